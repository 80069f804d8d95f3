//! Tables as text.

use crate::column_widths::{columns_of, split_fitting};
use crate::drawing::Drawing;
use crate::places::{Place, places_of};
use crate::text_rows::{Lead, TextRow};
use crate::written::Written;
use plan_pages::{Align, Table};
use std::alloc::{AllocError, Global};

/// How many columns a line has at most.
pub(crate) const LINE: usize = 120;

/// What stands between two columns.
const GAP: &str = "  ";

/// What stands before a row that is marked.
const MARK: &str = "* ";

/// What stands before the others of such a table.
const NO_MARK: &str = "  ";

/// A table as text: the titles, and below them the rows.
pub(crate) fn table_text(
    alloc: Global,
    table: &Table,
    drawing: Drawing,
) -> Result<String, AllocError> {
    let rows = text_rows(alloc, table, drawing)?;
    let has_marks = !table.is_tree() && table.has_marks();
    let room = if has_marks {
        LINE.saturating_sub(columns_of(MARK))
    } else {
        LINE
    };
    let places = places_of(alloc, table, &rows, room)?;
    let mut lines = Lines::new(alloc);
    for (number, row) in rows.iter().enumerate() {
        let mark = if has_marks {
            mark_before(table, number)
        } else {
            ""
        };
        lines.put_row(row, &places, mark);
    }
    lines.finish()
}

/// What stands before a line of a table that has marks: the titles, and its rows from 1.
fn mark_before(table: &Table, number: usize) -> &'static str {
    match number.checked_sub(1) {
        Some(place) if table.is_marked(place) => MARK,
        _ => NO_MARK,
    }
}

/// The titles of a table, and its rows.
fn text_rows(alloc: Global, table: &Table, drawing: Drawing) -> Result<Vec<TextRow>, AllocError> {
    let mut rows = Vec::new(alloc);
    let titles = TextRow::of_titles(alloc, table)?;
    rows.push(titles)?;
    for row in &table.rows {
        let texts = TextRow::of_cells(alloc, row, drawing)?;
        rows.push(texts)?;
    }
    Ok(rows)
}

/// The lines of a table, and the one that isn't ended yet.
#[derive(Drop)]
struct Lines {
    alloc: Global,
    written: Written,
    line: Written,
}

impl Lines {
    fn new(alloc: Global) -> Lines {
        Lines {
            alloc,
            written: Written::new(alloc),
            line: Written::new(alloc),
        }
    }

    /// Puts a row behind its mark, in several lines where a text is wider than its column.
    fn put_row(&mut self, row: &TextRow, places: &[Place], mark: &str) {
        let Ok(mut rests) = row.rests(self.alloc) else {
            return self.written.fail();
        };
        self.line.put(mark);
        let mut lead = row.lead;
        // each line takes at least a byte of each text that isn't at its end
        for _ in 0..row.longest() {
            if !self.put_line(&mut rests, places, lead) {
                return;
            }
            lead = lead.of_rest();
            self.line.put_blanks(columns_of(mark));
        }
    }

    /// Puts what has room of each text, which is left with the rest, and ends the line. Whether there is any rest.
    fn put_line(&mut self, rests: &mut Vec<&str>, places: &[Place], lead: Lead) -> bool {
        self.line.put_blanks(lead.blanks);
        self.line.put(lead.branch);
        let mut taken = lead.width();
        let mut has_rest = false;
        for (rest, place) in rests.iter_mut().zip(places.iter()) {
            let (head, behind) = split_fitting(rest, place.width.saturating_sub(taken));
            *rest = behind;
            has_rest = has_rest || !behind.is_empty();
            self.put_text(head, place, taken);
            taken = 0;
        }
        self.end_line();
        has_rest
    }

    /// Puts a text into its column, some of which is taken already, and the gap behind it.
    fn put_text(&mut self, text: &str, place: &Place, taken: usize) {
        let blanks = place
            .width
            .saturating_sub(taken)
            .saturating_sub(columns_of(text));
        let (before, behind) = match place.align {
            Align::Left => (0, blanks),
            Align::Right => (blanks, 0),
        };
        self.line.put_blanks(before);
        self.line.put(text);
        self.line.put_blanks(behind);
        self.line.put(GAP);
    }

    /// Ends the line, without the blanks at its end.
    fn end_line(&mut self) {
        self.written.put(self.line.as_str().trim_end());
        self.written.put("\n");
        self.line.clear();
    }

    fn finish(self) -> Result<String, AllocError> {
        self.line.finish()?;
        self.written.finish()
    }
}
