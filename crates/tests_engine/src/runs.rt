//! Runs whose printed text is kept.

ghost use Rattle.std.specs.Prelude.{◌≡◌, ◌<◌};
ghost use Rattle.tests_engine.specs.Runs.{IsCheck, IsRun};

use crate::tape::Tape;
use sqlr::{Ended, Failures, Library, RunFault, Session};
use std::marker::Brand;
use std::sync::ledger::{Blank, Ledger};

/// A script, and how many bytes of what it prints its sink takes.
#[derive(Clone, Copy)]
pub struct Part<'a> {
    pub script: &'a str,
    pub room: usize,
}

impl<'a> Part<'a> {
    /// A script all of whose text is taken.
    pub fn whole(script: &'a str) -> Part<'a>
        ensures script { result.script.now ≡ script.now }
        ensures room { result.room ≡ usize.MAX }
    {
        Part {
            script,
            room: usize::MAX,
        }
    }
}

/// How a run ended, and the bytes that its sink held then.
#[derive(Drop)]
pub struct Ran {
    pub end: Result<Ended, RunFault>,
    pub printed: Vec<u8>,
}

impl Ran {
    /// Whether it ended so, and its sink holds these bytes.
    pub fn is(&self, end: Result<Ended, RunFault>, printed: &str) -> bool {
        self.end == end && self.printed.as_slice() == printed.as_bytes()
    }
}

/// Runs a script in a session. What it prints goes behind the bytes of a tape, which fails where it
/// has no room left or no memory.
pub fn run<B: Library>(session: &mut Session<B>, tape: Vec<u8>, part: Part) -> Ran
    ensures { IsRun B.answers B.fails session.old part.entry.script.now session.new tape.items result }
{
    on_tape::<Brand, B>(session, tape, part, Blank::new(1))
}

/// Checks certificates for the last query of a script in a session, likewise.
pub fn check<B: Library>(
    session: &mut Session<B>,
    tape: Vec<u8>,
    part: Part,
    certificates: &[u8],
) -> Ran
    ensures { IsCheck B.answers B.fails session.old part.entry.script.now certificates.now session.new tape.items
        result }
{
    check_on_tape::<Brand, B>(session, tape, part, certificates, Blank::new(1))
}

fn on_tape<L: Ledger, B: Library>(
    session: &mut Session<B>,
    tape: Vec<u8>,
    part: Part,
    puts: Blank,
) -> Ran
    requires name { puts.name ≡ L.name }
    requires parts { puts.parts ≡ L.parts }
    requires some { 0 < puts.parts }
    ensures run { IsRun B.answers B.fails session.old part.entry.script.now session.new tape.items result }
{
    let (book, share) = puts.open::<L>();
    let mut tape = Tape {
        bytes: tape,
        room: part.room,
        failures: Failures::new(book, share),
    };
    let end = session.run(part.script, &mut tape);
    Ran {
        end,
        printed: tape.bytes,
    }
}

fn check_on_tape<L: Ledger, B: Library>(
    session: &mut Session<B>,
    tape: Vec<u8>,
    part: Part,
    certificates: &[u8],
    puts: Blank,
) -> Ran
    requires name { puts.name ≡ L.name }
    requires parts { puts.parts ≡ L.parts }
    requires some { 0 < puts.parts }
    ensures check { IsCheck B.answers B.fails session.old part.entry.script.now certificates.now session.new
        tape.items result }
{
    let (book, share) = puts.open::<L>();
    let mut tape = Tape {
        bytes: tape,
        room: part.room,
        failures: Failures::new(book, share),
    };
    let end = session.check(part.script, certificates, &mut tape);
    Ran {
        end,
        printed: tape.bytes,
    }
}
