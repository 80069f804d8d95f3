//! Tables that are being made.

use crate::tables::{Align, Cell, Column, Row, Table};
use std::alloc::{AllocError, Global};

/// A column of texts.
pub const fn words(key: &'static str, title: &'static str) -> Column {
    Column {
        key,
        title,
        align: Align::Left,
    }
}

/// A column of numbers.
pub const fn number(key: &'static str, title: &'static str) -> Column {
    Column {
        key,
        title,
        align: Align::Right,
    }
}

/// A table that is filled cell by cell. Where memory is wanting for a part of it, that is remembered, and it is no table in the end: so those who
/// fill it need no way out.
#[derive(Drop)]
pub struct MadeTable {
    alloc: Global,
    table: Table,
    lacks_memory: bool,
}

impl MadeTable {
    /// A table without rows.
    pub fn new(alloc: Global, key: &'static str, title: &str, columns: &[Column]) -> MadeTable {
        let mut made = MadeTable {
            alloc,
            table: Table {
                key,
                title: String::new(alloc),
                columns: Vec::new(alloc),
                rows: Vec::new(alloc),
            },
            lacks_memory: false,
        };
        made.lacks_memory |= made.table.title.push_str(title).is_err();
        made.lacks_memory |= made.table.columns.extend_from_slice(columns).is_err();
        made
    }

    /// How many rows there are.
    pub fn row_count(&self) -> usize {
        self.table.rows.len()
    }

    /// Begins a row, as deep below the row that it belongs to; it is marked where it is on the plan's way.
    pub fn begin_row(&mut self, depth: usize, marked: bool) {
        let cells = Vec::new(self.alloc);
        let row = Row {
            depth,
            marked,
            cells,
        };
        self.lacks_memory |= self.table.rows.push(row).is_err();
    }

    /// Puts a cell behind those of the last row.
    pub fn put(&mut self, cell: Cell) {
        self.lacks_memory |= match self.table.rows.last_mut() {
            Some(row) => row.cells.push(cell).is_err(),
            None => true,
        };
    }

    pub fn put_nothing(&mut self) {
        self.put(Cell::Nothing);
    }

    pub fn put_number(&mut self, number: u64) {
        self.put(Cell::Number(number));
    }

    /// Puts a number, or an empty cell.
    pub fn put_found(&mut self, found: Option<u64>) {
        self.put(match found {
            Some(number) => Cell::Number(number),
            None => Cell::Nothing,
        });
    }

    /// Puts a text, if there was memory to make it.
    pub fn put_text(&mut self, text: Result<String, AllocError>) {
        match text {
            Ok(text) => self.put(Cell::Text(text)),
            Err(AllocError) => self.lacks_memory = true,
        }
    }

    pub fn put_word(&mut self, word: &str) {
        self.put_text(String::from_str(self.alloc, word));
    }

    /// The whole table.
    pub fn finish(self) -> Result<Table, AllocError> {
        if self.lacks_memory {
            return Err(AllocError);
        }
        Ok(self.table)
    }
}
