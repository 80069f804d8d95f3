//! Tables, flat and of trees.

/// Rows under titles.
#[derive(Drop)]
pub struct Table {
    pub key: &'static str,
    pub title: String,
    pub columns: Vec<Column>,
    pub rows: Vec<Row>,
}

impl Table {
    /// Whether a row belongs to one above it.
    pub fn is_tree(&self) -> bool {
        for row in &self.rows {
            if row.depth > 0 {
                return true;
            }
        }
        false
    }

    pub fn has_marks(&self) -> bool {
        for row in &self.rows {
            if row.marked {
                return true;
            }
        }
        false
    }

    /// Whether the row of a number is on the plan's way.
    pub fn is_marked(&self, number: usize) -> bool {
        match self.rows.get(number) {
            Some(row) => row.marked,
            None => false,
        }
    }
}

/// What stands above the cells of one place in their rows.
#[derive(Clone, Copy)]
pub struct Column {
    pub key: &'static str,
    pub title: &'static str,
    pub align: Align,
}

/// The side on which cells stand.
#[derive(Clone, Copy, PartialEq)]
pub enum Align {
    Left,
    Right,
}

/// A row of a table.
#[derive(Drop)]
pub struct Row {
    /// How deep it stands below the row above it that it belongs to: a tree is drawn in the first column; 0 of flat tables.
    pub depth: usize,
    /// Whether it is on the plan's way.
    pub marked: bool,
    pub cells: Vec<Cell>,
}

/// What stands in one column of a row.
#[derive(Drop)]
pub enum Cell {
    Nothing,
    Number(u64),
    Text(String),
}
