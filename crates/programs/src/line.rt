//! The words of the command line.

use crate::broken::{BROKEN_OFF, broken_off, tell_output};
use crate::requests::LineFault;
use crate::standard_error::StandardError;
use std::rt::Runtime;
use std::{env, io};

/// The words of the command line, the program's name first, or the status to end with where they can't be read.
pub fn line_words<R: Runtime + AllocGlobal>(
    rt: &R,
    standard_error: &StandardError<R>,
) -> Result<Vec<String>, u8> {
    match collected(rt) {
        Ok(words) => Ok(words),
        Err(reason) => Err(broken_off(standard_error, "the command line", reason)),
    }
}

fn collected<R: Runtime + AllocGlobal>(rt: &R) -> io::Result<Vec<String>> {
    Ok(env::args(rt)?.collect(rt.alloc())?)
}

/// Prints what words ask for that ask for nothing else, and gives the status to end with: help and the version go to standard output,
/// and what is wrong with others to standard error.
pub fn print_line_fault<R: Runtime + AllocGlobal>(
    rt: &R,
    standard_error: &StandardError<R>,
    fault: LineFault,
) -> u8 {
    match fault.print(rt) {
        Ok(()) if !fault.use_stderr() => 0,
        Ok(()) => BROKEN_OFF,
        Err(reason) => {
            tell_output(standard_error, reason);
            BROKEN_OFF
        }
    }
}
