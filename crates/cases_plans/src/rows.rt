//! Rows of worked answers: questions to the plan spaces of queries, in files of lines.
//!
//! A file has groups of lines with an empty line between: `tables` and statements that make them, `load`, a table and its records with `;`
//! behind each, `query` and a query, `version` and the version of the plan space, and below these rows `QUESTION = ANSWER`. A group may
//! have several queries and versions. A line that begins with `--` is a comment.

use crate::answer::Answer;
use crate::blocks::block;
use crate::questions::ask_block;
use crate::selecting::add_select;
use crate::statements::{apply, load};
use catalog::Database;
use plan_space::Version;
use std::alloc::{AllocError, Global};

/// What the rows of a group are asked of.
#[derive(Drop)]
struct Group<'t> {
    database: Database,
    query: &'t str,
    version: Version,
    /// Whether its statements and records were taken.
    is_made: bool,
}

/// Asks the rows of a file, and tells which are wrong and how many there are.
pub fn ask(alloc: Global, name: &str, text: &str) -> Result<String, AllocError> {
    let mut told = String::new(alloc);
    let mut group = Group::new(alloc);
    let mut rows: usize = 0;
    let mut wrong: usize = 0;
    for line in text.lines() {
        if group.take(alloc, line) {
            rows = rows.saturating_add(1);
            if !is_right(alloc, &mut told, &group, line)? {
                wrong = wrong.saturating_add(1);
            }
        }
    }
    writeln!(told, "{name}: {rows} rows, {wrong} wrong")?;
    Ok(told)
}

impl<'t> Group<'t> {
    fn new(alloc: Global) -> Group<'t> {
        Group {
            database: Database::new(alloc),
            query: "",
            version: Version::Three,
            is_made: true,
        }
    }

    /// Takes a line, or says that it is a row.
    fn take(&mut self, alloc: Global, line: &'t str) -> bool {
        if line.is_empty() {
            *self = Group::new(alloc);
            return false;
        }
        let (word, rest) = line.split_once(' ').unwrap_or((line, ""));
        match word {
            "tables" => {
                let is_taken = apply(alloc, &mut self.database, rest);
                self.note(is_taken);
            }
            "load" => {
                let is_taken = load(alloc, &mut self.database, rest);
                self.note(is_taken);
            }
            "query" => self.query = rest,
            "version" => self.take_version(rest),
            _ => return !word.starts_with("--"),
        }
        false
    }

    /// Notes whether something of the group was taken.
    fn note(&mut self, is_taken: bool) {
        self.is_made = self.is_made && is_taken;
    }

    fn take_version(&mut self, number: &str) {
        match number {
            "1" => self.version = Version::One,
            "2" => self.version = Version::Two,
            "3" => self.version = Version::Three,
            _ => self.note(false),
        }
    }
}

/// Whether a row is right; else it is told with what is found.
fn is_right(
    alloc: Global,
    told: &mut String,
    group: &Group<'_>,
    row: &str,
) -> Result<bool, AllocError> {
    let (question, wanted) = row.split_once(" =").unwrap_or((row, ""));
    let mut found = Answer::new(alloc);
    answer(alloc, group, question, &mut found)?;
    if found.is(&Answer::of_words(alloc, wanted)) {
        return Ok(true);
    }
    tell(told, row, &found)?;
    Ok(false)
}

/// Tells of a row that is wrong.
fn tell(told: &mut String, row: &str, found: &Answer) -> Result<(), AllocError> {
    write!(told, "wrong: {row}: found")?;
    found.push_to(told)?;
    told.push_str("\n")
}

/// Adds the answer to a question.
fn answer(
    alloc: Global,
    group: &Group<'_>,
    question: &str,
    found: &mut Answer,
) -> Result<(), AllocError> {
    if !group.is_made {
        found.fail();
        return Ok(());
    }
    let database = &group.database;
    if let Some(plans) = question.strip_prefix("select ") {
        return add_select(alloc, database, group.query, plans, found);
    }
    match block(alloc, database, group.query) {
        Some(block) => ask_block(alloc, database, &block, group.version, question, found),
        None => {
            found.fail();
            Ok(())
        }
    }
}
