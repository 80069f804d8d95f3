//! How a run is told that broke off.

use crate::folder::FileFault;
use crate::standard_error::StandardError;
use messages_excerpts::{LineColumn, Lines};
use sqlr::RunFault;
use std::io::{self, ErrorKind};
use std::rt::Runtime;

/// The exit status of a run that breaks off.
pub const BROKEN_OFF: u8 = 2;

/// Says why nothing is run, and gives the exit status.
pub fn broken_off<R: Runtime + AllocGlobal>(
    standard_error: &StandardError<R>,
    what: &str,
    reason: io::Error,
) -> u8 {
    standard_error.tell_failed(what, reason);
    BROKEN_OFF
}

/// Says where in the script a run broke off and why, by the system's reason where a device has failed.
pub fn tell_broken_off<R: Runtime + AllocGlobal>(
    standard_error: &StandardError<R>,
    script_name: &str,
    script: &str,
    fault: RunFault,
    file: &Option<FileFault>,
    output: Option<io::Error>,
) {
    if let Some(reason) = output {
        tell_output(standard_error, reason);
    }
    let (RunFault::Memory { offset } | RunFault::Library { offset }) = fault else {
        return;
    };
    let LineColumn { line, column } = Lines::new(script).locate(offset);
    match file {
        Some(file) => {
            let file_name = file.name.as_str();
            let what = format_args!("{script_name}:{line}:{column}: {file_name}");
            standard_error.tell_failed(what, file.reason);
        }
        None => standard_error.tell(format_args!("{script_name}:{line}:{column}: {fault}")),
    }
}

/// Says why standard output takes no more. Nothing is said where its reader has gone, as `head` goes
/// when it has seen enough.
pub fn tell_output<R: Runtime + AllocGlobal>(standard_error: &StandardError<R>, reason: io::Error) {
    if !matches!(reason.kind(), ErrorKind::BrokenPipe) {
        standard_error.tell_failed("standard output", reason);
    }
}
