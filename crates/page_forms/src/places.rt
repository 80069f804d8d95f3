//! Where the columns of a table stand in its lines.

use crate::text_rows::TextRow;
use plan_pages::{Align, Table};
use std::alloc::{AllocError, Global};

/// How many blanks stand between two columns.
const GAP: usize = 2;

/// How narrow a column is made at most, where a table is too wide.
const NARROW: usize = 16;

/// How wide a column is, and on which side its texts stand.
#[derive(Clone, Copy)]
pub(crate) struct Place {
    pub width: usize,
    pub align: Align,
}

/// Columns as wide as the widest of some rows' texts, or narrower where they would take more than some room.
pub(crate) fn places_of(
    alloc: Global,
    table: &Table,
    rows: &[TextRow],
    room: usize,
) -> Result<Vec<Place>, AllocError> {
    let mut places = Vec::new(alloc);
    for (number, column) in table.columns.iter().enumerate() {
        places.push(Place {
            width: widest(rows, number),
            align: column.align,
        })?;
    }
    narrow(&mut places, room);
    Ok(places)
}

fn widest(rows: &[TextRow], number: usize) -> usize {
    let mut width = 0;
    for row in rows {
        width = row.width(number).max(width);
    }
    width
}

/// Makes the widest columns narrower till all have room, or are narrow.
fn narrow(places: &mut Vec<Place>, room: usize) {
    for _ in 0..places.len() {
        let excess = line_width(places).saturating_sub(room);
        let width = widest_of_texts(places);
        if let Some(place) = places.iter_mut().find(|place| place.has_texts(width)) {
            place.width = width.saturating_sub(excess).max(NARROW.min(width));
        }
    }
}

fn line_width(places: &[Place]) -> usize {
    let mut width = GAP.saturating_mul(places.len().saturating_sub(1));
    for place in places {
        width = width.saturating_add(place.width);
    }
    width
}

/// How wide the widest column of texts is.
fn widest_of_texts(places: &[Place]) -> usize {
    let mut width = 0;
    for place in places {
        if place.align == Align::Left {
            width = place.width.max(width);
        }
    }
    width
}

impl Place {
    /// Whether it is a column of texts of some width.
    fn has_texts(&self, width: usize) -> bool {
        self.align == Align::Left && self.width == width
    }
}
