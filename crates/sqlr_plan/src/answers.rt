//! Answers to questions.

use crate::asking::SessionPlanner;
use crate::printing::{Form, drawing_of, out_of_memory, print};
use crate::reading::{Certificates, REFUSED, Reading, read_query, with_proposals};
use plan_pages::{Page, Part, Section};
use plan_questions::{PlanningScript, View, ViewFault, difference, page};
use programs::questions::{Asked, AskedView, Options, Question};
use programs::requests::Source;
use programs::{BROKEN_OFF, Input, source_name};
use sqlr::Failures;
use std::alloc::{AllocError, Global};
use std::rt::Runtime;
use std::sync::ledger::Ledger;

/// Answers a question, where standard output may be a terminal, and gives the exit status; or the one to end with where all is said.
pub(crate) fn answer<F: Ledger, S: Ledger, R: Runtime + AllocGlobal>(
    input: &Input<R>,
    asked: &Asked,
    is_shown: bool,
    first_failures: Failures<F>,
    second_failures: Failures<S>,
) -> Result<u8, u8> {
    let options = asked.options;
    match &asked.question {
        Question::One { script, view } => {
            let certificates = read_certificates(input, script, view)?;
            let given = certificates.as_ref();
            let mut reading = read_query(input, script, options.query, given, first_failures)?;
            if matches!(view, AskedView::Indexes) && !is_standard_input(script) {
                let planned = reading.planned;
                reading.planned = with_proposals(
                    input,
                    script,
                    options.query,
                    planned,
                    second_failures,
                )?;
            }
            answer_one(input, reading, view, given, options, is_shown)
        }
        Question::Difference { first, second } => {
            tell_same_source(input, first, second)?;
            let first = read_query(input, first, options.query, None, first_failures)?;
            let second = read_query(input, second, options.query, None, second_failures)?;
            let alloc = input.rt.alloc();
            let page = difference(
                alloc,
                &SessionPlanner { alloc },
                &first.planned,
                &second.planned,
            );
            let form = form_of(input, options, is_shown);
            print_page(input, page, form, b"")?;
            Ok(0)
        }
    }
}

/// Whether a source is standard input, which can't be read twice.
fn is_standard_input(source: &Source) -> bool {
    matches!(source, Source::StandardInput)
}

/// The certificates of a tree, where there are any.
fn read_certificates<'r, R: Runtime + AllocGlobal>(
    input: &Input<R>,
    script: &Source,
    view: &'r AskedView,
) -> Result<Option<Certificates<'r>>, u8> {
    match view {
        AskedView::Tree {
            certificates: Some(source),
        } => {
            tell_same_source(input, script, source)?;
            Ok(Some(Certificates {
                name: source_name(source),
                bytes: input.read(source)?,
            }))
        }
        _ => Ok(None),
    }
}

/// Says that standard input can't be two sources, where it is to be.
fn tell_same_source<R: Runtime + AllocGlobal>(
    input: &Input<R>,
    first: &Source,
    second: &Source,
) -> Result<(), u8> {
    match (first, second) {
        (Source::StandardInput, Source::StandardInput) => {
            input
                .standard_error
                .tell("only one of two files can be standard input");
            Err(BROKEN_OFF)
        }
        _ => Ok(()),
    }
}

fn form_of<R: Runtime + AllocGlobal>(input: &Input<R>, options: Options, is_shown: bool) -> Form {
    if options.is_json {
        Form::Json
    } else {
        Form::Text(drawing_of(input.rt, options.is_unicode, is_shown))
    }
}

/// Answers a question on one query. What the check of certificates printed stands last.
fn answer_one<R: Runtime + AllocGlobal>(
    input: &Input<R>,
    reading: Reading,
    view: &AskedView,
    certificates: Option<&Certificates<'_>>,
    options: Options,
    is_shown: bool,
) -> Result<u8, u8> {
    let Reading {
        mut planned,
        lines,
        status,
    } = reading;
    let alloc = input.rt.alloc();
    let planner = SessionPlanner { alloc };
    let (page, form) = match view_of(view, certificates) {
        Some(View::Page) if !options.is_json => (
            page(alloc, &planner, &mut planned, View::Page),
            Form::Html,
        ),
        Some(view) => (
            page(alloc, &planner, &mut planned, view),
            form_of(input, options, is_shown),
        ),
        None if options.is_json => (statistics_page(alloc, &planned), Form::Json),
        None => return print_statistics(input, &planned),
    };
    print_page(input, page, form, &lines)?;
    Ok(status)
}

/// What is asked of the plans, if it is asked of them.
fn view_of<'a>(
    view: &'a AskedView,
    certificates: Option<&'a Certificates<'a>>,
) -> Option<View<'a>> {
    match view {
        AskedView::Tree { .. } => Some(View::Tree {
            certificates: certificates.map(|given| given.bytes.as_slice()),
        }),
        AskedView::Why { plan } => Some(View::Why {
            plan: plan.as_str(),
        }),
        AskedView::Sweep { figure, values } => Some(View::Sweep {
            figure: figure.as_str(),
            values: values.as_slice(),
        }),
        AskedView::Indexes => Some(View::Indexes),
        AskedView::Search { all, within } => Some(View::Search {
            all: *all,
            within: *within,
        }),
        AskedView::Statistics => None,
        AskedView::Page => Some(View::Page),
    }
}

/// Prints the script without rows.
fn print_statistics<R: Runtime + AllocGlobal>(
    input: &Input<R>,
    planned: &PlanningScript,
) -> Result<u8, u8> {
    match planned.text(input.rt.alloc()) {
        Ok(text) => {
            print(input, text.as_bytes())?;
            Ok(0)
        }
        Err(_) => Err(out_of_memory(input.standard_error)),
    }
}

/// A page whose one line is the script without rows.
fn statistics_page(alloc: Global, planned: &PlanningScript) -> Result<Page, ViewFault> {
    let text = planned.text(alloc)?;
    let mut parts = Vec::new(alloc);
    parts.push(Part::Line {
        key: "script",
        text,
    })?;
    let mut sections = Vec::new(alloc);
    sections.push(Section {
        key: "statistics",
        number: None,
        title: String::new(alloc),
        parts,
    })?;
    Ok(Page {
        view: "statistics",
        title: planned.query.clone()?,
        sections,
        foot: Vec::new(alloc),
    })
}

/// Prints a page with lines at its foot, or says why there is none.
fn print_page<R: Runtime + AllocGlobal>(
    input: &Input<R>,
    page: Result<Page, ViewFault>,
    form: Form,
    lines: &[u8],
) -> Result<(), u8> {
    let mut page = match page {
        Ok(page) => page,
        Err(ViewFault::Refused(words)) => {
            input.standard_error.tell(words);
            return Err(REFUSED);
        }
        Err(ViewFault::Memory) => return Err(out_of_memory(input.standard_error)),
    };
    match written(input.rt.alloc(), &mut page, form, lines) {
        Ok(text) => print(input, text.as_bytes()),
        Err(_) => Err(out_of_memory(input.standard_error)),
    }
}

/// A page with lines at its foot, as it is printed.
fn written(alloc: Global, page: &mut Page, form: Form, lines: &[u8]) -> Result<String, AllocError> {
    let text = str::from_utf8(lines).unwrap_or("");
    for line in text.lines() {
        let line = String::from_str(alloc, line)?;
        page.foot.push(line)?;
    }
    form.write(alloc, page)
}
