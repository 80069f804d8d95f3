//! Want of memory: what a run leaves one of whose allocations is refused. tools/refuse_memory.py refuses each in turn.

use crate::runs::{Part, Ran, run};
use crate::shelf::Shelf;
use crate::steps::{FILES, LOOK, STEPS, script, seen_behind, steps_printed};
use sqlr::{Ended, RunFault, Session};
use std::alloc::{AllocError, Global};

/// Room for all that is printed, so that no sink wants memory.
const ROOM: usize = 256;

/// What a run tells of a refused allocation, and a look behind it at what it left.
#[derive(Clone, Copy)]
pub(crate) enum Seen {
    /// There was no run.
    BeforeRun,
    /// It ended behind whole statements, of which the look sees the work.
    InRun,
    /// All of the run is done, and the look wants memory and prints nothing.
    BehindRun,
    /// Nothing was refused.
    Whole,
    /// What is printed or seen is not that of whole statements.
    Wrong,
}

impl Seen {
    /// What it says of the allocation.
    pub(crate) fn told(self) -> &'static str {
        match self {
            Seen::BeforeRun => "refused before the run",
            Seen::InRun => "refused in the run",
            Seen::BehindRun => "refused behind the run",
            Seen::Whole => "nothing is refused",
            Seen::Wrong => "wrong",
        }
    }
}

/// Whether no allocation of a run leaves what isn't the work of whole statements.
pub(crate) fn refused_allocation_leaves_whole_statements(alloc: Global) -> bool {
    !matches!(look_behind(alloc), Seen::Wrong)
}

/// Runs the script, and looks at what it left.
pub(crate) fn look_behind(alloc: Global) -> Seen {
    match script_and_tapes(alloc) {
        Ok((script, tape, second_tape)) => look_behind_run(alloc, &script, tape, second_tape),
        Err(AllocError) => Seen::BeforeRun,
    }
}

fn look_behind_run(alloc: Global, script: &str, tape: Vec<u8>, second_tape: Vec<u8>) -> Seen {
    let files = &FILES;
    let mut session = Session::new(alloc, Shelf { alloc, files });
    let ran = run(&mut session, tape, Part::whole(script));
    let look = run(&mut session, second_tape, Part::whole(LOOK));
    judge(&ran, &look)
}

fn judge(ran: &Ran, look: &Ran) -> Seen {
    let Some(done) = steps_printed(&ran.printed) else {
        return Seen::Wrong;
    };
    if !is_end_behind(ran.end, done) {
        return Seen::Wrong;
    }
    if done == STEPS.len() && look.end.is_err() {
        let is_refused = matches!(look.end, Err(RunFault::Memory { .. }));
        return if is_refused && look.printed.is_empty() {
            Seen::BehindRun
        } else {
            Seen::Wrong
        };
    }
    if look.printed.as_slice() != seen_behind(done).as_bytes() {
        Seen::Wrong
    } else if done < STEPS.len() {
        Seen::InRun
    } else {
        Seen::Whole
    }
}

/// The script, and two tapes with room.
fn script_and_tapes(alloc: Global) -> Result<(String, Vec<u8>, Vec<u8>), AllocError> {
    let script = script(alloc)?;
    let tape = Vec::with_capacity(alloc, ROOM)?;
    let second_tape = Vec::with_capacity(alloc, ROOM)?;
    Ok((script, tape, second_tape))
}

/// Whether a run ends so whose sink has the texts of so many steps.
fn is_end_behind(end: Result<Ended, RunFault>, steps: usize) -> bool {
    if steps < STEPS.len() {
        matches!(end, Err(RunFault::Memory { .. }))
    } else {
        matches!(end, Ok(Ended::Faulted))
    }
}
