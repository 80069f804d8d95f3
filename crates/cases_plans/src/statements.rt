//! Statements and records that change a database, from their text.

use catalog::{Database, LoadProgress, LoadWatch};
use lexer::lex;
use std::alloc::Global;
use syntax::{Statement, parse};

/// Whether each statement of a script changes a database.
pub(crate) fn apply(alloc: Global, database: &mut Database, script: &str) -> bool {
    let Ok(tokens) = lex(alloc, script) else {
        return false;
    };
    let Ok(read) = parse(alloc, &tokens, script.len()) else {
        return false;
    };
    for statement in &read.statements {
        if !changes(database, statement) {
            return false;
        }
    }
    true
}

fn changes(database: &mut Database, statement: &Statement) -> bool {
    match statement {
        Statement::CreateTable { name, columns } => {
            database.create_table(name.text.as_str(), columns).is_ok()
        }
        Statement::CreateIndex {
            unique,
            table,
            columns,
        } => database
            .create_index(*unique, table.text.as_str(), columns)
            .is_ok(),
        Statement::SetTableStatistics { table, rows, pages } => database
            .set_table_statistics(table.text.as_str(), rows.units, pages.units)
            .is_ok(),
        Statement::SetIndexStatistics {
            table,
            columns,
            statistics,
        } => database
            .set_index_statistics(table.text.as_str(), columns, statistics)
            .is_ok(),
        _ => false,
    }
}

/// Nobody who would be told how far a LOAD is.
#[derive(Drop)]
struct Unwatched;

impl LoadWatch for Unwatched {
    fn loaded(&self, _progress: LoadProgress) {}
}

/// Whether a table takes records. Behind its name and a blank each ends with `;`.
pub(crate) fn load(alloc: Global, database: &mut Database, named: &str) -> bool {
    let (table, records) = named.split_once(' ').unwrap_or((named, ""));
    let Ok(text) = records.replace(alloc, ";", "\n") else {
        return false;
    };
    database.load(table, text.as_bytes(), &Unwatched).is_ok()
}
