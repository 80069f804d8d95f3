//! Asks the plans of `cases_plans` what files of rows say, and runs the statements of a script one by one in one session, each once more where
//! memory was wanting for it. tools/refuse_memory.py refuses its allocations in turn: what it prints has to stay the same. Its checks are those
//! that no case can say: devices that fail, want of memory, and the work of a session. They run over a library and a sink in memory. They are
//! no tests of the crate, since one with tests is proved and compiled twice.
#![tactic(auto)]

mod checking_runs;
mod checks;
mod faults;
mod memory;
mod runs;
mod shelf;
mod steps;
mod tape;
mod totals;
mod work;

use crate::memory::look_behind;
use crate::runs::{Part, Ran, run};
use crate::shelf::{File, Shelf};
use cases_plans::ask;
use sqlr::{Library, RunFault, Session};
use std::alloc::{AllocError, Global};
use std::io::{self, Write};
use std::rt::Runtime;
use std::{env, fs};

/// The bytes that a tape has room for beforehand, so that no tape wants memory.
const ROOM: usize = 1 << 16;

/// The words are `checks` or `steps`, files of rows, a script, a statement a line, and the files that it loads. Each may be left out.
fn main(rt: HostRuntime) -> io::Result<()> {
    let words: Vec<String> = env::args(&rt)?.collect(rt.alloc())?;
    let rest = run_checks(&rt, words.get(1..).unwrap_or(&[]))?;
    let rest = ask_rows(&rt, rest)?;
    match rest.split_first() {
        Some((script, names)) => run_script(&rt, script, names),
        None => Ok(()),
    }
}

/// Runs the checks that a first word asks for, and gives the words behind it.
fn run_checks<'a, R: Runtime + AllocGlobal>(
    rt: &R,
    words: &'a [String],
) -> io::Result<&'a [String]> {
    let Some((word, rest)) = words.split_first() else {
        return Ok(words);
    };
    if word.as_str() == "checks" {
        tell_checks(rt)?;
        return Ok(rest);
    }
    if word.as_str() == "steps" {
        println!(rt; "{}", look_behind(rt.alloc()).told())?;
        return Ok(rest);
    }
    Ok(words)
}

/// Prints a line of each check.
fn tell_checks<R: Runtime + AllocGlobal>(rt: &R) -> io::Result<()> {
    for (name, holds) in checks::all(rt.alloc()) {
        let end = if holds { "ok" } else { "wrong" };
        println!(rt; "{name}: {end}")?;
    }
    Ok(())
}

/// Asks the files of rows, whose names stand first and end so, and gives the words behind them.
fn ask_rows<'a, R: Runtime + AllocGlobal>(rt: &R, words: &'a [String]) -> io::Result<&'a [String]> {
    for (place, name) in words.iter().enumerate() {
        if !name.ends_with(".rows") {
            return Ok(words.get(place..).unwrap_or(&[]));
        }
        let text = fs::read_to_string(rt, name)?;
        let told = ask(rt.alloc(), name, &text)?;
        print!(rt; "{told}")?;
    }
    Ok(&[])
}

/// Runs a script with the files that it loads.
fn run_script<R: Runtime + AllocGlobal>(rt: &R, script: &str, names: &[String]) -> io::Result<()> {
    let mut contents = Vec::new(rt.alloc());
    for name in names {
        contents.push(fs::read(rt, name)?)?;
    }
    let files = files_of(rt.alloc(), names, &contents)?;
    run_lines(rt, &fs::read_to_string(rt, script)?, &files)
}

/// Files of these names, with what they hold.
fn files_of<'a>(
    alloc: Global,
    names: &'a [String],
    contents: &'a [Vec<u8>],
) -> Result<Vec<File<'a>>, AllocError> {
    let mut files = Vec::new(alloc);
    for (name, bytes) in names.iter().zip(contents) {
        files.push(File {
            name: name.as_str(),
            bytes: bytes.as_slice(),
        })?;
    }
    Ok(files)
}

/// Prints what the lines of a script print in one session.
fn run_lines<R: Runtime + AllocGlobal>(rt: &R, script: &str, files: &[File<'_>]) -> io::Result<()> {
    let alloc = rt.alloc();
    let mut session = Session::new(alloc, Shelf { alloc, files });
    for line in script.lines() {
        let ran = match run_line(alloc, &mut session, line) {
            Ok(ran) => ran,
            Err(AllocError) => run_line(alloc, &mut session, line)?,
        };
        io::writer(rt).write_all(&ran.printed)?;
    }
    Ok(())
}

/// Runs a line. An `Err` is want of memory.
fn run_line<L: Library>(
    alloc: Global,
    session: &mut Session<L>,
    line: &str,
) -> Result<Ran, AllocError> {
    let ran = run(session, Vec::with_capacity(alloc, ROOM)?, Part::whole(line));
    match ran.end {
        Err(RunFault::Memory { .. }) => Err(AllocError),
        _ => Ok(ran),
    }
}
