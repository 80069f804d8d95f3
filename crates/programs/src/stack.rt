//! The stack that the system gives the program.

use crate::standard_error::StandardError;
use std::fs;
use std::rt::Runtime;

/// How much stack any script and any certificate is run and checked in, in KB (own): what the deepest take, as measured, and a
/// fifth more.
const NEEDED: u64 = 512;

/// Where the system says what a process may take, a line each: its name, and then the limit that stands.
const LIMITS: &str = "/proc/self/limits";

/// Whether the stack is large enough. Where it isn't, words say so; where the system doesn't say how large it is, it is taken to be.
pub fn is_enough<R: Runtime + AllocGlobal>(rt: &R, standard_error: &StandardError<R>) -> bool {
    match stack_size(rt) {
        Some(size) if size < NEEDED => {
            standard_error.tell(format_args!(
                "a stack of {NEEDED} KB is needed, and this one has {size} KB"
            ));
            false
        }
        _ => true,
    }
}

/// The size of the stack in KB, if the system says one.
fn stack_size<R: Runtime + AllocGlobal>(rt: &R) -> Option<u64> {
    let limits = fs::read_to_string(rt, LIMITS).ok()?;
    let (_, limit) = limits.split_once("Max stack size")?;
    let bytes = limit.split_whitespace().next()?.parse::<u64>().ok()?;
    Some(bytes / 1024)
}
