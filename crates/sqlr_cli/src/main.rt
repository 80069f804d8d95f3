//! The program `sqlr`: files, standard output and the exit status.
#![tactic(auto)]

mod aligned;
mod answer;
mod comma_separated;
mod given;
mod objects;
mod output;

ghost use Rattle.std.specs.Prelude.{◌≡◌, ◌<◌};

use given::Given;
use messages_statements::Reporter;
use output::Output;
use programs::requests::Request;
use programs::{
    BROKEN_OFF, Folder, Input, StandardError, broken_off, is_enough, line_words, print_line_fault,
    request, tell_broken_off,
};
use sqlr::{Failures, Session, status};
use std::alloc::AllocError;
use std::cell::Cell;
use std::io::{self, IsTerminal};
use std::marker::Brand;
use std::process::ExitCode;
use std::rt::Runtime;
use std::sync::ledger::{Blank, Ledger};

/// The exit status of a run that ends at a refused statement.
const REFUSED: u8 = 1;

/// What is said to one who gives a statement for a file.
const STATEMENT_HINT: &str =
    "statements are read from a file, by `sqlr run -` from standard input, or behind `-c`";

fn main(rt: HostRuntime) -> io::Result<ExitCode> {
    let standard_error = StandardError::new(&rt, "sqlr", rt.stderr().is_terminal());
    if !is_enough(&rt, &standard_error) {
        return Ok(ExitCode::from(BROKEN_OFF));
    }
    let input = Input {
        rt: &rt,
        standard_error: &standard_error,
        is_typed: rt.stdin().is_terminal(),
        statement_hint: STATEMENT_HINT,
    };
    let status = exit_status::<Brand, Brand, HostRuntime>(&input, Blank::new(1), Blank::new(1));
    Ok(ExitCode::from(status))
}

/// Does what the command line asks for, and gives the exit status: 0 well, 1 a statement refused, 2 broken off, 3 a certificate refused, with
/// words on standard error.
fn exit_status<F: Ledger, P: Ledger, R: Runtime + AllocGlobal>(
    input: &Input<R>,
    fetches: Blank,
    puts: Blank,
) -> u8
    requires fetches_name { fetches.name ≡ F.name }
    requires fetches_parts { fetches.parts ≡ F.parts }
    requires some_fetches { 0 < fetches.parts }
    requires puts_name { puts.name ≡ P.name }
    requires puts_parts { puts.parts ≡ P.parts }
    requires some_puts { 0 < puts.parts }
{
    let (book, share) = fetches.open::<F>();
    let fetch_failures = Failures::new(book, share);
    let (book, share) = puts.open::<P>();
    let put_failures = Failures::new(book, share);
    match read_request(input) {
        Ok(request) => match Given::read(input, &request) {
            Ok(given) => do_request(input, given, fetch_failures, put_failures),
            Err(status) => status,
        },
        Err(status) => status,
    }
}

/// What the command line asks for, or the status to end with where its words ask for nothing.
fn read_request<R: Runtime + AllocGlobal>(input: &Input<R>) -> Result<Request, u8> {
    let words = line_words(input.rt, input.standard_error)?;
    let mut texts: Vec<&str> = Vec::new(input.rt.alloc());
    for word in &words {
        if texts.push(word.as_str()).is_err() {
            let reason = io::Error::from(AllocError);
            return Err(broken_off(input.standard_error, "the command line", reason));
        }
    }
    match request(input.rt.alloc(), &texts) {
        Ok(request) => Ok(request),
        Err(fault) => Err(print_line_fault(input.rt, input.standard_error, fault)),
    }
}

/// Runs a script, or checks certificates for its last query, and gives the exit status.
fn do_request<F: Ledger, P: Ledger, R: Runtime + AllocGlobal>(
    input: &Input<R>,
    given: Given<'_>,
    fetch_failures: Failures<F>,
    put_failures: Failures<P>,
) -> u8 {
    let Given {
        script_name,
        script,
        options,
        certificates_name,
        certificates,
    } = given;
    let (rt, standard_error) = (input.rt, input.standard_error);
    let folder = Folder {
        rt,
        standard_error,
        failures: fetch_failures,
        fault: None,
    };
    let mut output = Output {
        rt,
        writer: io::writer(rt),
        standard_error,
        options,
        reporter: Reporter::new(rt.alloc(), script_name, &script),
        script_name,
        certificates_name,
        messages: Cell::new(0),
        failures: put_failures,
        fault: None,
        has_stopped: false,
    };
    let mut session = Session::new(rt.alloc(), folder);
    standard_error.begin_statement();
    let run = match &certificates {
        Some(bytes) => session.check(&script, bytes, &mut output),
        None => session.run(&script, &mut output),
    };
    tell_left_out(standard_error, script_name, output.left_out());
    if output.has_stopped {
        return REFUSED;
    }
    if let Err(fault) = &run {
        let file = &session.library().fault;
        tell_broken_off(
            standard_error,
            script_name,
            &script,
            *fault,
            file,
            output.fault,
        );
    }
    status(&run)
}

/// Says how many messages were left out, if any were.
fn tell_left_out<R: Runtime + AllocGlobal>(
    standard_error: &StandardError<R>,
    script_name: &str,
    count: u64,
) {
    if count > 0 {
        let plural = if count == 1 { "" } else { "s" };
        standard_error.tell(format_args!("{script_name}: and {count} more message{plural}"));
    }
}
