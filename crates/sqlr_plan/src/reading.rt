//! From a source to what its query is planned over.

use crate::asking::SessionPlanner;
use crate::listener::Listener;
use crate::printing::{out_of_memory, print};
use crate::queries::{Found, QueryPlace, find_query};
use messages_statements::Reporter;
use plan_questions::{PlanningScript, ViewFault, proposals};
use programs::requests::Source;
use programs::{Folder, Input, source_name, tell_broken_off};
use sqlr::{Failures, Session, status};
use std::alloc::Global;
use std::rt::Runtime;
use std::sync::ledger::Ledger;

/// The exit status where a statement is refused, or a question has no answer.
pub(crate) const REFUSED: u8 = 1;

/// Certificates, and what messages call them.
#[derive(Drop)]
pub(crate) struct Certificates<'r> {
    pub name: &'r str,
    pub bytes: Vec<u8>,
}

/// What is read of a script.
#[derive(Drop)]
pub(crate) struct Reading {
    pub planned: PlanningScript,
    /// What the check of certificates printed, where there are any.
    pub lines: Vec<u8>,
    /// The exit status of that check, or 0.
    pub status: u8,
}

/// What the query of a number in a source is planned over; or the status to end with, where all is said that there is to say.
pub(crate) fn read_query<L: Ledger, R: Runtime + AllocGlobal>(
    input: &Input<R>,
    source: &Source,
    wanted: Option<u64>,
    certificates: Option<&Certificates<'_>>,
    failures: Failures<L>,
) -> Result<Reading, u8> {
    let script = input.read_script(source)?;
    let name = source_name(source);
    match find_query(input.rt.alloc(), &script, wanted) {
        Ok(Found::Query(place)) => {
            let given = Given {
                name,
                script: &script,
                read: script.get(..=place.semicolon).unwrap_or(&script),
                query: query_text(&script, place),
                certificates,
            };
            given.read(input, failures)
        }
        // reading it says what is wrong
        Ok(Found::Faulty) => {
            let given = Given {
                name,
                script: &script,
                read: &script,
                query: "",
                certificates,
            };
            given.read(input, failures)
        }
        Ok(Found::NoQuery { count }) => {
            tell_no_query(input, name, wanted, count);
            Err(REFUSED)
        }
        Err(_) => Err(out_of_memory(input.standard_error)),
    }
}

/// What a query is planned over with each index besides that it could use, whose statistics are counted, and which is left out; the same as
/// it was where there is none. The script is read once more, with CREATE INDEX for each before the query.
pub(crate) fn with_proposals<L: Ledger, R: Runtime + AllocGlobal>(
    input: &Input<R>,
    source: &Source,
    wanted: Option<u64>,
    planned: PlanningScript,
    failures: Failures<L>,
) -> Result<PlanningScript, u8> {
    let Some(proposed) = proposed_script(input, source, wanted, &planned)? else {
        return Ok(planned);
    };
    let text = proposed.text.as_str();
    let given = Given {
        name: "",
        script: text,
        read: text,
        query: text.get(proposed.query..proposed.semicolon).unwrap_or(""),
        certificates: None,
    };
    let mut reading = given.read(input, failures)?;
    reading.planned.leave_out_others(&planned);
    Ok(reading.planned)
}

/// A script with a CREATE INDEX for each proposed index before its query.
#[derive(Drop)]
struct ProposedScript {
    text: String,
    /// Where the query begins.
    query: usize,
    semicolon: usize,
}

/// The script with its proposals, if there are any.
fn proposed_script<R: Runtime + AllocGlobal>(
    input: &Input<R>,
    source: &Source,
    wanted: Option<u64>,
    planned: &PlanningScript,
) -> Result<Option<ProposedScript>, u8> {
    let alloc = input.rt.alloc();
    let proposed = match proposals(alloc, &SessionPlanner { alloc }, planned) {
        Ok(proposed) => proposed,
        Err(ViewFault::Memory) => return Err(out_of_memory(input.standard_error)),
        Err(ViewFault::Refused(_fault)) => String::new(alloc),
    };
    if proposed.is_empty() {
        return Ok(None);
    }
    let script = input.read_script(source)?;
    match find_query(alloc, &script, wanted) {
        Ok(Found::Query(place)) => with_proposed(input, &script, place, &proposed),
        Ok(_) => Ok(None),
        Err(_) => Err(out_of_memory(input.standard_error)),
    }
}

/// The script with what is proposed before a query of it, which ends it.
fn with_proposed<R: Runtime + AllocGlobal>(
    input: &Input<R>,
    script: &str,
    place: QueryPlace,
    proposed: &str,
) -> Result<Option<ProposedScript>, u8> {
    let before = without_explain(script.get(..place.start).unwrap_or(""));
    let query = query_text(script, place);
    match with_query(input.rt.alloc(), before, proposed, query) {
        Some(text) => {
            let semicolon = text.len().saturating_sub(1);
            let start = semicolon.saturating_sub(query.len());
            Ok(Some(ProposedScript {
                text,
                query: start,
                semicolon,
            }))
        }
        None => Err(out_of_memory(input.standard_error)),
    }
}

fn with_query(alloc: Global, before: &str, proposed: &str, query: &str) -> Option<String> {
    format!(in alloc; "{before}{proposed}{query};").ok()
}

/// A script's beginning without the EXPLAIN that it ends with, if it does.
fn without_explain(before: &str) -> &str {
    let trimmed = before.trim_end();
    let start = trimmed.len().saturating_sub("EXPLAIN".len());
    match (trimmed.get(..start), trimmed.get(start..)) {
        (Some(front), Some(word)) if word.eq_ignore_ascii_case("EXPLAIN") => front,
        _ => before,
    }
}

/// The text of a query, without the blanks before its semicolon.
fn query_text(script: &str, place: QueryPlace) -> &str {
    script
        .get(place.start..place.semicolon)
        .unwrap_or("")
        .trim_end()
}

fn tell_no_query<R: Runtime + AllocGlobal>(
    input: &Input<R>,
    name: &str,
    wanted: Option<u64>,
    count: usize,
) {
    match wanted {
        Some(number) if count > 0 => input.standard_error.tell(format_args!(
            "{name}: there is no query {number}: it has {count}"
        )),
        _ => input
            .standard_error
            .tell(format_args!("{name}: it has no SELECT and no EXPLAIN")),
    }
}

/// A script that is read up to a query.
#[derive(Clone, Copy)]
struct Given<'r> {
    name: &'r str,
    script: &'r str,
    /// The script up to the query's end.
    read: &'r str,
    query: &'r str,
    certificates: Option<&'r Certificates<'r>>,
}

impl Given<'_> {
    /// Runs the statements before the query, and binds it.
    fn read<L: Ledger, R: Runtime + AllocGlobal>(
        &self,
        input: &Input<R>,
        failures: Failures<L>,
    ) -> Result<Reading, u8> {
        let (rt, standard_error) = (input.rt, input.standard_error);
        let folder = Folder {
            rt,
            standard_error,
            failures,
            fault: None,
        };
        let certificates: &[u8] = match self.certificates {
            Some(given) => &given.bytes,
            None => &[],
        };
        let mut listener = Listener {
            rt,
            standard_error,
            reporter: Reporter::new(rt.alloc(), self.name, self.script),
            script_name: self.name,
            certificates_name: self.certificates.map(|given| given.name),
            query: self.query,
            planned: None,
            printed: Vec::new(rt.alloc()),
            is_cut: false,
        };
        let mut session = Session::new(rt.alloc(), folder);
        standard_error.begin_statement();
        let run = session.check(self.read, certificates, &mut listener);
        if let Err(fault) = &run {
            let file = &session.library().fault;
            tell_broken_off(standard_error, self.name, self.script, *fault, file, None);
        }
        self.reading(input, listener, status(&run))
    }

    /// What was heard of a script; where that is nothing but refusals, these are printed.
    fn reading<R: Runtime + AllocGlobal>(
        &self,
        input: &Input<R>,
        listener: Listener<'_, '_, R>,
        status: u8,
    ) -> Result<Reading, u8> {
        let Listener {
            planned,
            printed,
            is_cut,
            ..
        } = listener;
        if is_cut {
            return Err(out_of_memory(input.standard_error));
        }
        match planned {
            Some(Ok(planned)) => Ok(self.with_lines(planned, printed, status)),
            Some(Err(_)) => Err(out_of_memory(input.standard_error)),
            None => {
                print(input, &printed)?;
                Err(status)
            }
        }
    }

    /// What is read, with what the check of certificates told of them, where there are any.
    fn with_lines(&self, planned: PlanningScript, mut lines: Vec<u8>, status: u8) -> Reading {
        if self.certificates.is_some() {
            return Reading {
                planned,
                lines,
                status,
            };
        }
        lines.clear();
        Reading {
            planned,
            lines,
            status: 0,
        }
    }
}
