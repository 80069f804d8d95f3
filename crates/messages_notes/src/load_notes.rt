//! Notes on a LOAD that has gone well.

use catalog::Table;
use messages_excerpts::LineColumn;
use sqlvalue::{Value, rank};
use std::alloc::Global;
use std::cmp::Ordering;
use std::fmt::{self, Display, Formatter};
use std::mem::replace;

/// How many rows each table had when its last LOAD had gone well, by its place in the database.
#[derive(Drop)]
pub(crate) struct LoadedRows {
    counts: Vec<usize>,
}

impl LoadedRows {
    pub(crate) fn new(alloc: Global) -> LoadedRows {
        LoadedRows {
            counts: Vec::new(alloc),
        }
    }

    /// Keeps how many rows a table has now, and gives how many it had before; 0 where nothing is known. Where memory is wanting it is passed over.
    pub(crate) fn replace(&mut self, place: usize, count: usize) -> usize {
        for _ in self.counts.len()..place.saturating_add(1) {
            if self.counts.push(0).is_err() {
                return 0;
            }
        }
        match self.counts.get_mut(place) {
            Some(kept) => replace(kept, count),
            None => 0,
        }
    }
}

/// What there is to say of a table that was loaded: `script.sql:2:6: note: ..`, a line each.
#[derive(Clone, Copy)]
pub struct LoadReport<'r> {
    pub(crate) script_name: &'r str,
    pub(crate) place: LineColumn,
    pub(crate) table: Option<&'r Table>,
    /// How many rows it had before.
    pub(crate) before: usize,
}

impl LoadReport<'_> {
    /// Whether there is nothing to tell.
    pub fn is_empty(&self) -> bool {
        match self.table {
            Some(table) => !begins_with_heading(table) && !has_doubled(table, self.before),
            None => true,
        }
    }

    /// `script.sql:2:6: note: `.
    fn write_place<W: fmt::Write>(&self, f: &mut Formatter<W>) -> fmt::Result {
        let LineColumn { line, column } = self.place;
        write!(f, "{}:{line}:{column}: note: ", self.script_name)
    }
}

impl Display for LoadReport<'_> {
    fn fmt<W: fmt::Write>(&self, f: &mut Formatter<W>) -> fmt::Result {
        let Some(table) = self.table else {
            return Ok(());
        };
        let name = table.name();
        if begins_with_heading(table) {
            self.write_place(f)?;
            writeln!(
                f,
                "the first row of {name} is the names of its columns: a heading is no row, and its line has to go"
            )?;
        }
        if has_doubled(table, self.before) {
            self.write_place(f)?;
            writeln!(
                f,
                "these are the very rows that {name} had before, in the same order: each is there twice now"
            )?;
        }
        Ok(())
    }
}

/// Whether the first row of a table holds the names of its columns, in letters of whatever case.
fn begins_with_heading(table: &Table) -> bool {
    if table.len() == 0 {
        return false;
    }
    for column in 0..table.width() {
        if !is_text(table.cell(0, column), table.column_name(column)) {
            return false;
        }
    }
    true
}

/// Whether a value is a text, blanks at its end aside.
fn is_text(value: Value, text: &str) -> bool {
    match value {
        Value::Text(own) => own.trim_end().eq_ignore_ascii_case(text),
        _ => false,
    }
}

/// Whether a table has got the rows that it had before once more, in their order.
fn has_doubled(table: &Table, before: usize) -> bool {
    let count = table.len();
    if before == 0 || count.checked_sub(before) != Some(before) {
        return false;
    }
    for row in 0..before {
        if !is_same_row(table, row, row.saturating_add(before)) {
            return false;
        }
    }
    true
}

/// Whether two rows of a table are the same, nulls among them.
fn is_same_row(table: &Table, row: usize, other: usize) -> bool {
    let count = table.len();
    if row >= count || other >= count {
        return false;
    }
    for column in 0..table.width() {
        if rank(&table.cell(row, column), &table.cell(other, column)) != Ordering::Equal {
            return false;
        }
    }
    true
}
