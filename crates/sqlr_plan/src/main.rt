//! The program `sqlr-plan`: what it is asked, and the exit status.
#![tactic(auto)]

mod answers;
mod asking;
mod listener;
mod printing;
mod queries;
mod reading;

ghost use Rattle.std.specs.Prelude.{◌≡◌, ◌<◌};

use answers::answer;
use programs::questions::Asked;
use programs::{
    BROKEN_OFF, Input, StandardError, asked_question, is_enough, line_words, print_line_fault,
};
use sqlr::Failures;
use std::io::{self, IsTerminal};
use std::marker::Brand;
use std::process::ExitCode;
use std::rt::Runtime;
use std::sync::ledger::{Blank, Ledger};

/// What is said to one who gives a statement for a file.
const STATEMENT_HINT: &str =
    "statements are read from a file, or where it is called `-` from standard input";

fn main(rt: HostRuntime) -> io::Result<ExitCode> {
    let standard_error = StandardError::new(&rt, "sqlr-plan", rt.stderr().is_terminal());
    if !is_enough(&rt, &standard_error) {
        return Ok(ExitCode::from(BROKEN_OFF));
    }
    let input = Input {
        rt: &rt,
        standard_error: &standard_error,
        is_typed: rt.stdin().is_terminal(),
        statement_hint: STATEMENT_HINT,
    };
    let status = exit_status::<Brand, Brand, HostRuntime>(
        &input,
        rt.stdout().is_terminal(),
        Blank::new(1),
        Blank::new(1),
    );
    Ok(ExitCode::from(status))
}

/// Does what the command line asks for, where standard output may be a terminal, and gives the exit status: 0 well, 1 a statement refused or a
/// question that has no answer, 2 broken off, 3 a certificate refused, with words on standard error.
fn exit_status<F: Ledger, S: Ledger, R: Runtime + AllocGlobal>(
    input: &Input<R>,
    is_shown: bool,
    first: Blank,
    second: Blank,
) -> u8
    requires first_name { first.name ≡ F.name }
    requires first_parts { first.parts ≡ F.parts }
    requires some_first { 0 < first.parts }
    requires second_name { second.name ≡ S.name }
    requires second_parts { second.parts ≡ S.parts }
    requires some_second { 0 < second.parts }
{
    let (book, share) = first.open::<F>();
    let first_failures = Failures::new(book, share);
    let (book, share) = second.open::<S>();
    let second_failures = Failures::new(book, share);
    match read_line(input) {
        Ok(asked) => match answer(input, &asked, is_shown, first_failures, second_failures) {
            Ok(status) | Err(status) => status,
        },
        Err(status) => status,
    }
}

/// What the command line asks for, or the status to end with where its words ask for nothing.
fn read_line<R: Runtime + AllocGlobal>(input: &Input<R>) -> Result<Asked, u8> {
    let words = line_words(input.rt, input.standard_error)?;
    let mut texts: Vec<&str> = Vec::new(input.rt.alloc());
    for word in &words {
        if texts.push(word.as_str()).is_err() {
            return Err(printing::out_of_memory(input.standard_error));
        }
    }
    match asked_question(input.rt.alloc(), &texts) {
        Ok(asked) => Ok(asked),
        Err(fault) => Err(print_line_fault(input.rt, input.standard_error, fault)),
    }
}
