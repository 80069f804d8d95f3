//! Rows as a table for the eye.

use crate::answer::{Answer, Cell, put_single, split_fields};
use std::alloc::{AllocError, Global};

/// What stands between two columns.
const GAP: &str = "  ";

/// Columns as wide as their widest cell, with a line of dashes under their names, numbers to the right and texts to
/// the left; and how many rows there are.
pub fn table_text(alloc: Global, answer: &Answer<'_>) -> Result<String, AllocError> {
    let mut table = Table {
        columns: Vec::new(alloc),
        fields: Vec::new(alloc),
        text: String::new(alloc),
        written: String::new(alloc),
        line: String::new(alloc),
    };
    table.put_answer(answer)?;
    Ok(table.written)
}

/// How a column is set.
#[derive(Clone, Copy)]
struct Column {
    width: usize,
    /// Whether its name stands to the right, as its numbers do.
    has_numbers: bool,
}

/// A table that is being written.
#[derive(Drop)]
struct Table<'t> {
    columns: Vec<Column>,
    /// Those of the line that was read last.
    fields: Vec<&'t str>,
    /// What is shown of the field that was read last.
    text: String,
    written: String,
    /// The line that isn't ended yet.
    line: String,
}

impl<'t> Table<'t> {
    fn put_answer(&mut self, answer: &Answer<'t>) -> Result<(), AllocError> {
        self.begin_columns(answer.names)?;
        for row in answer.rows.lines() {
            self.widen_columns(row)?;
        }
        self.put_names(answer.names)?;
        self.put_dashes()?;
        self.put_rows(answer.rows)?;
        self.put_count(answer.count)
    }

    /// Begins a column for each name, as wide as the name.
    fn begin_columns(&mut self, names: &'t str) -> Result<(), AllocError> {
        split_fields(names, &mut self.fields)?;
        for name in &self.fields {
            self.columns.push(Column {
                width: name.len(),
                has_numbers: false,
            })?;
        }
        Ok(())
    }

    /// Makes columns as wide as the cells of a row.
    fn widen_columns(&mut self, row: &'t str) -> Result<(), AllocError> {
        split_fields(row, &mut self.fields)?;
        for (number, field) in self.fields.iter().enumerate() {
            if let Some(column) = self.columns.get_mut(number) {
                column.has_numbers |= put_cell_text(field, &mut self.text)?;
                column.width = column.width.max(self.text.len());
            }
        }
        Ok(())
    }

    fn put_names(&mut self, names: &'t str) -> Result<(), AllocError> {
        split_fields(names, &mut self.fields)?;
        for (number, name) in self.fields.iter().enumerate() {
            if let Some(column) = self.columns.get(number) {
                put_cell(&mut self.line, name, column.width, column.has_numbers)?;
            }
        }
        self.end_line()
    }

    fn put_dashes(&mut self) -> Result<(), AllocError> {
        for column in &self.columns {
            put_signs(&mut self.line, '-', column.width)?;
            self.line.push_str(GAP)?;
        }
        self.end_line()
    }

    fn put_rows(&mut self, rows: &'t str) -> Result<(), AllocError> {
        for row in rows.lines() {
            self.put_row(row)?;
        }
        Ok(())
    }

    fn put_row(&mut self, row: &'t str) -> Result<(), AllocError> {
        split_fields(row, &mut self.fields)?;
        for (number, field) in self.fields.iter().enumerate() {
            if let Some(column) = self.columns.get(number) {
                let is_number = put_cell_text(field, &mut self.text)?;
                put_cell(&mut self.line, &self.text, column.width, is_number)?;
            }
        }
        self.end_line()
    }

    /// Ends the line, without the blanks at its end.
    fn end_line(&mut self) -> Result<(), AllocError> {
        self.written.push_str(self.line.trim_end())?;
        self.written.push('\n')?;
        self.line.clear();
        Ok(())
    }

    /// Puts how many rows there are: `(5 rows)`.
    fn put_count(&mut self, count: &str) -> Result<(), AllocError> {
        self.written.push('(')?;
        self.written.push_str(count)?;
        self.written.push_str(")\n")
    }
}

/// Replaces a text by what is shown of a field, and tells whether it is a number.
fn put_cell_text(field: &str, text: &mut String) -> Result<bool, AllocError> {
    text.clear();
    match Cell::read(field) {
        Cell::Null => Ok(false),
        Cell::Number(number) => {
            text.push_str(number)?;
            Ok(true)
        }
        Cell::Text(doubled) => {
            put_single(doubled, text)?;
            Ok(false)
        }
    }
}

/// Adds a text to a line, in a column of some width, and the gap behind it.
fn put_cell(
    line: &mut String,
    text: &str,
    width: usize,
    is_number: bool,
) -> Result<(), AllocError> {
    let blanks = width.saturating_sub(text.len());
    let (before, behind) = if is_number { (blanks, 0) } else { (0, blanks) };
    put_signs(line, ' ', before)?;
    line.push_str(text)?;
    put_signs(line, ' ', behind)?;
    line.push_str(GAP)
}

fn put_signs(line: &mut String, sign: char, count: usize) -> Result<(), AllocError> {
    for _ in 0..count {
        line.push(sign)?;
    }
    Ok(())
}
