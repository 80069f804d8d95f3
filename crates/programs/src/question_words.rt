//! From the words of the command line of `sqlr-plan` to what they ask for.

use crate::questions::{Asked, AskedView, Options, Question};
use crate::requests::{LineFault, Source};
use crate::subcommands::command;
use clap::ArgMatches;
use std::alloc::{AllocError, Global};

/// What words ask for, the first of which is the program's name.
///
/// # Errors
/// The words have a fault, or ask for help or the version.
pub fn asked_question(alloc: Global, words: &[&str]) -> Result<Asked, LineFault> {
    let matches = command(alloc)?.try_get_matches_from(words)?;
    asked_in(alloc, &matches)
}

/// What the subcommand asks for that was met; clap has seen to it that there is one, with its words.
fn asked_in(alloc: Global, matches: &ArgMatches<'_>) -> Result<Asked, LineFault> {
    let Some((name, given)) = matches.subcommand() else {
        return Err(LineFault::from(AllocError));
    };
    let Some(question) = question(alloc, name, given)? else {
        return Err(LineFault::from(AllocError));
    };
    let options = Options {
        query: given.get_one::<u64>("query"),
        is_json: is_on(given, "json"),
        is_unicode: is_on(given, "unicode"),
    };
    Ok(Asked { question, options })
}

fn question(
    alloc: Global,
    name: &str,
    given: &ArgMatches<'_>,
) -> Result<Option<Question>, AllocError> {
    let script = source_of(alloc, given, "SCRIPT")?;
    if name == "diff" {
        return Ok(Some(Question::Difference {
            first: script,
            second: source_of(alloc, given, "OTHER")?,
        }));
    }
    match view(alloc, name, given)? {
        Some(view) => Ok(Some(Question::One { script, view })),
        None => Ok(None),
    }
}

fn view(
    alloc: Global,
    name: &str,
    given: &ArgMatches<'_>,
) -> Result<Option<AskedView>, AllocError> {
    let view = match name {
        "tree" => AskedView::Tree {
            certificates: certificates(alloc, given)?,
        },
        "why" => AskedView::Why {
            plan: word_of(alloc, given, "PLAN")?,
        },
        "sweep" => AskedView::Sweep {
            figure: word_of(alloc, given, "FIGURE")?,
            values: values(alloc, given)?,
        },
        "indexes" => AskedView::Indexes,
        "search" => AskedView::Search {
            all: is_on(given, "all"),
            within: given.get_one::<u64>("within"),
        },
        "statistics" => AskedView::Statistics,
        "page" => AskedView::Page,
        _ => return Ok(None),
    };
    Ok(Some(view))
}

fn certificates(alloc: Global, given: &ArgMatches<'_>) -> Result<Option<Source>, AllocError> {
    match given.get_str("CERTIFICATES") {
        Some(word) => Ok(Some(source_named(alloc, word)?)),
        None => Ok(None),
    }
}

fn values(alloc: Global, given: &ArgMatches<'_>) -> Result<Vec<String>, AllocError> {
    let mut values = Vec::new(alloc);
    for word in given.get_strs("VALUES").unwrap_or(&[]) {
        let value = String::from_str(alloc, word)?;
        values.push(value)?;
    }
    Ok(values)
}

/// A word that is given, or an empty one.
fn word_of(alloc: Global, given: &ArgMatches<'_>, id: &str) -> Result<String, AllocError> {
    String::from_str(alloc, given.get_str(id).unwrap_or(""))
}

fn is_on(given: &ArgMatches<'_>, id: &str) -> bool {
    given.get_str(id) == Some("true")
}

/// The source that a word names that has to be given.
fn source_of(alloc: Global, given: &ArgMatches<'_>, id: &str) -> Result<Source, AllocError> {
    source_named(alloc, given.get_str(id).unwrap_or(""))
}

/// The source that a word names: `-` is standard input.
fn source_named(alloc: Global, word: &str) -> Result<Source, AllocError> {
    if word == "-" {
        return Ok(Source::StandardInput);
    }
    Ok(Source::File(String::from_str(alloc, word)?))
}
