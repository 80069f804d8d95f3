//! Rows of a table as texts.

use crate::column_widths::columns_of;
use crate::drawing::Drawing;
use plan_pages::{Cell, Row, Table};
use std::alloc::{AllocError, Global};

/// How many columns a row of a tree stands behind the one that it belongs to.
const STEP: usize = 2;

/// A row as texts.
#[derive(Drop)]
pub(crate) struct TextRow {
    pub lead: Lead,
    pub texts: Vec<String>,
}

/// What stands before the first text of a row.
#[derive(Clone, Copy)]
pub(crate) struct Lead {
    pub blanks: usize,
    pub branch: &'static str,
}

impl Lead {
    const NOTHING: Lead = Lead {
        blanks: 0,
        branch: "",
    };

    fn of_depth(depth: usize, drawing: Drawing) -> Lead {
        if depth == 0 {
            return Lead::NOTHING;
        }
        Lead {
            blanks: STEP.saturating_mul(depth.saturating_sub(1)),
            branch: drawing.branch(),
        }
    }

    /// What stands before the lines in which the text goes on.
    pub fn of_rest(self) -> Lead {
        Lead {
            blanks: self.width(),
            branch: "",
        }
    }

    pub fn width(self) -> usize {
        self.blanks.saturating_add(columns_of(self.branch))
    }
}

impl TextRow {
    /// The titles of a table's columns; a tree's own stands above its first column.
    pub fn of_titles(alloc: Global, table: &Table) -> Result<TextRow, AllocError> {
        let mut own = if table.is_tree() {
            Some(table.title.as_str())
        } else {
            None
        };
        let mut row = TextRow::new(alloc, Lead::NOTHING);
        for column in &table.columns {
            let title = own.take().unwrap_or(column.title);
            row.add(String::from_str(alloc, title))?;
        }
        Ok(row)
    }

    pub fn of_cells(alloc: Global, row: &Row, drawing: Drawing) -> Result<TextRow, AllocError> {
        let mut texts = TextRow::new(alloc, Lead::of_depth(row.depth, drawing));
        for cell in &row.cells {
            texts.add(cell_text(alloc, cell))?;
        }
        Ok(texts)
    }

    fn new(alloc: Global, lead: Lead) -> TextRow {
        TextRow {
            lead,
            texts: Vec::new(alloc),
        }
    }

    /// Adds a text, if there was memory to make it.
    fn add(&mut self, text: Result<String, AllocError>) -> Result<(), AllocError> {
        self.texts.push(text?)?;
        Ok(())
    }

    /// What is to be put of each text.
    pub fn rests(&self, alloc: Global) -> Result<Vec<&str>, AllocError> {
        let mut rests = Vec::new(alloc);
        for text in &self.texts {
            rests.push(text.as_str())?;
        }
        Ok(rests)
    }

    /// How many bytes the longest text has.
    pub fn longest(&self) -> usize {
        let mut longest = 0;
        for text in &self.texts {
            longest = text.len().max(longest);
        }
        longest
    }

    /// How many columns the text of a number takes, with what stands before it.
    pub fn width(&self, number: usize) -> usize {
        let width = match self.texts.get(number) {
            Some(text) => columns_of(text),
            None => 0,
        };
        if number == 0 {
            width.saturating_add(self.lead.width())
        } else {
            width
        }
    }
}

fn cell_text(alloc: Global, cell: &Cell) -> Result<String, AllocError> {
    match cell {
        Cell::Nothing => Ok(String::new(alloc)),
        Cell::Number(number) => number.to_string(alloc),
        Cell::Text(text) => text.clone(),
    }
}
