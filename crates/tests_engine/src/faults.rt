//! Devices that fail: what is printed, and what is left.

ghost use Rattle.std.specs.Prelude.{◌≡◌, ◌<◌};

use crate::runs::{Part, Ran, run};
use crate::shelf::Shelf;
use crate::steps::{FILES, LOOK, script, seen_behind, steps_run, text};
use sqlr::{Ended, Failures, FetchFault, Fetched, Library, RunFault, Session};
use std::alloc::Global;
use std::marker::Brand;
use std::sync::ledger::{Blank, Ledger};

/// A library that has one file more, which cannot be fetched.
#[derive(Drop)]
struct Faulty<'a, L: Ledger> {
    shelf: Shelf<'a>,
    fault: FetchFault,
    failures: Failures<L>,
}

impl<L: Ledger> Library for Faulty<'_, L> {
    ghost use Rattle.std.specs.Prelude.{◌≡◌};
    ghost use Rattle.tests_engine.specs.Files.{bytes_of_file};

    ghost answers = { λ old name answer new. (new ≡ old) × (answer ≡ bytes_of_file old.shelf.files.now name) };

    ghost fails = { λ old name new. new.shelf ≡ old.shelf };

    ghost failures = { λ s. s.failures };

    fn fetch(&mut self, name: &str) -> Result<Fetched, FetchFault> {
        if name != "faulty.csv" {
            return self.shelf.fetch(name);
        }
        match self.fault {
            FetchFault::Device => {
                self.failures.rise();
                Err(FetchFault::Device)
            }
            FetchFault::Memory => Err(FetchFault::Memory),
        }
    }
}

/// Scripts that are run one behind the other over a faulty library.
#[derive(Clone, Copy)]
struct Job<'a> {
    fault: FetchFault,
    first: &'a str,
    second: &'a str,
}

/// How both scripts of a job end, and what they print.
fn run_faulty(alloc: Global, job: Job) -> (Ran, Ran) {
    run_faulty_job::<Brand>(alloc, job, Blank::new(1))
}

fn run_faulty_job<L: Ledger>(alloc: Global, job: Job, fetches: Blank) -> (Ran, Ran)
    requires name { fetches.name ≡ L.name }
    requires parts { fetches.parts ≡ L.parts }
    requires some { 0 < fetches.parts }
{
    let (book, share) = fetches.open::<L>();
    let library = Faulty {
        shelf: Shelf {
            alloc,
            files: &FILES,
        },
        fault: job.fault,
        failures: Failures::new(book, share),
    };
    let mut session = Session::new(alloc, library);
    let first = run(&mut session, Vec::new(alloc), Part::whole(job.first));
    let second = run(&mut session, Vec::new(alloc), Part::whole(job.second));
    (first, second)
}

/// Whether a file that cannot be fetched ends a run so, and leaves what the statements before it made.
fn changes_nothing(alloc: Global, fault: FetchFault, end: RunFault) -> bool {
    let job = Job {
        fault,
        first: "CREATE TABLE T (A INTEGER, B CHAR(3)); LOAD T FROM 'two.csv'; SELECT A FROM T; LOAD T FROM 'faulty.csv'; SELECT B FROM T;",
        second: "SELECT A, B FROM T; LOAD T FROM 'two.csv';",
    };
    let (broken, after) = run_faulty(alloc, job);
    broken.is(Err(end), "OK\n2 rows loaded\nA\n1\n2\n2 rows\n")
        && after.is(
            Ok(Ended::Well),
            "A|B\n1|'a  '\n2|'b  '\n2 rows\n2 rows loaded\n",
        )
}

/// Whether that is so of a device that fails and of want of memory. The file's name stands at byte 91 of the script.
pub(crate) fn faulty_file_changes_nothing(alloc: Global) -> bool {
    changes_nothing(alloc, FetchFault::Device, RunFault::Library { offset: 91 })
        && changes_nothing(alloc, FetchFault::Memory, RunFault::Memory { offset: 91 })
}

/// Whether LOAD of a table that isn't there asks for no file, and of one that is there does.
pub(crate) fn file_of_no_table_is_not_fetched(alloc: Global) -> bool {
    let job = Job {
        fault: FetchFault::Device,
        first: "LOAD T FROM 'faulty.csv'; CREATE TABLE T (A INTEGER);",
        second: "LOAD T FROM 'faulty.csv';",
    };
    let (refused, broken) = run_faulty(alloc, job);
    refused.is(Ok(Ended::Faulted), "error E08 42000\nOK\n")
        && broken.is(Err(RunFault::Library { offset: 12 }), "")
}

/// Whether a run ends so over a sink of so much room, with a beginning of the text in it, and leaves what the statements did whose texts
/// it took and the one that it broke off in.
fn ends_over(
    alloc: Global,
    script: &str,
    text: &str,
    room: usize,
    end: Result<Ended, RunFault>,
) -> bool {
    let files = &FILES;
    let mut session = Session::new(alloc, Shelf { alloc, files });
    let cut = run(&mut session, Vec::new(alloc), Part { script, room });
    let look = run(&mut session, Vec::new(alloc), Part::whole(LOOK));
    cut.end == end
        && text.as_bytes().get(..room) == Some(cut.printed.as_slice())
        && look.printed.as_slice() == seen_behind(steps_run(room)).as_bytes()
}

/// Whether the script of steps ends so over a sink of each room up to all of its text.
pub(crate) fn sinks_fail_at_each_byte(alloc: Global) -> bool {
    match (script(alloc), text(alloc)) {
        (Ok(script), Ok(text)) => fails_at_each_byte(alloc, &script, &text),
        _ => false,
    }
}

fn fails_at_each_byte(alloc: Global, script: &str, text: &str) -> bool {
    for room in 0..text.len() {
        if !ends_over(alloc, script, text, room, Err(RunFault::Sink)) {
            return false;
        }
    }
    ends_over(alloc, script, text, text.len(), Ok(Ended::Faulted))
}
