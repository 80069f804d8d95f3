//! Where the boxes of a graph's nodes stand.

use crate::column_widths::columns_of;
use plan_pages::Graph;
use std::alloc::{AllocError, Global};

/// How wide a picture is at most, in pixels.
const WIDTH: usize = 1200;

/// What a picture leaves free at its sides.
const MARGIN: usize = 10;

/// What it leaves free above its highest boxes, for edges between them.
const HEAD: usize = 60;

/// How high a box is, and how much is left free below it.
pub(crate) const BOX_HEIGHT: usize = 44;

pub(crate) const ROOM: usize = 80;

/// How far the next row lies below.
const ROW_HEIGHT: usize = BOX_HEIGHT + ROOM;

/// What is left free between two boxes.
const GAP: usize = 30;

/// How wide a character is at most, for all that is known of the font.
pub(crate) const CHARACTER: usize = 9;

const NARROWEST: usize = 110;

const WIDEST: usize = 300;

/// The middle of a box's upper side.
#[derive(Clone, Copy)]
pub(crate) struct Spot {
    pub x: usize,
    pub y: usize,
}

/// Boxes in rows, those of one layer next to and above each other.
#[derive(Drop)]
pub(crate) struct Layout {
    pub width: usize,
    pub height: usize,
    pub box_width: usize,
    /// Of each node that is drawn.
    pub spots: Vec<Option<Spot>>,
}

impl Layout {
    /// Where the nodes stand that are shown.
    pub fn new(alloc: Global, graph: &Graph, shown: &[bool]) -> Result<Layout, AllocError> {
        let box_width = box_width_of(graph, shown);
        let most = WIDTH
            .saturating_add(GAP)
            .checked_div(box_width.saturating_add(GAP))
            .unwrap_or(1);
        let rows = rows_of(alloc, graph, shown, most)?;
        let mut layout = Layout {
            width: row_width(longest(&rows), box_width).saturating_add(MARGIN * 2),
            height: ROW_HEIGHT
                .saturating_mul(rows.len())
                .saturating_sub(ROOM)
                .saturating_add(HEAD + MARGIN),
            box_width,
            spots: nowhere(alloc, graph.nodes.len())?,
        };
        for (number, row) in rows.iter().rev().enumerate() {
            let y = ROW_HEIGHT.saturating_mul(number).saturating_add(HEAD);
            layout.place(row, y);
        }
        Ok(layout)
    }

    /// Puts a row into the middle.
    fn place(&mut self, row: &[usize], y: usize) {
        let free = self
            .width
            .saturating_sub(row_width(row.len(), self.box_width));
        let mut x = (free / 2).saturating_add(self.box_width / 2);
        for number in row {
            if let Some(spot) = self.spots.get_mut(*number) {
                *spot = Some(Spot { x, y });
            }
            x = x.saturating_add(self.box_width).saturating_add(GAP);
        }
    }

    /// Where a node stands, if it is drawn.
    pub fn spot(&self, number: usize) -> Option<Spot> {
        *self.spots.get(number)?
    }
}

/// How wide boxes are, by the longest title that is shown.
fn box_width_of(graph: &Graph, shown: &[bool]) -> usize {
    let mut width = NARROWEST;
    for (node, is_shown) in graph.nodes.iter().zip(shown.iter()) {
        if *is_shown {
            let title = columns_of(&node.title).saturating_add(2);
            width = title.saturating_mul(CHARACTER).max(width);
        }
    }
    width.min(WIDEST)
}

/// The numbers of the nodes that are shown, in rows of at most some, the lowest first.
fn rows_of(
    alloc: Global,
    graph: &Graph,
    shown: &[bool],
    most: usize,
) -> Result<Vec<Vec<usize>>, AllocError> {
    let mut rows: Vec<Vec<usize>> = Vec::new(alloc);
    let mut last: Option<usize> = None;
    for (layer, number) in &by_layers(alloc, graph, shown)? {
        let is_full = match rows.last() {
            Some(row) => row.len() >= most,
            None => true,
        };
        if is_full || last != Some(*layer) {
            rows.push(Vec::new(alloc))?;
        }
        if let Some(row) = rows.last_mut() {
            row.push(*number)?;
        }
        last = Some(*layer);
    }
    Ok(rows)
}

/// The layers and the numbers of the nodes that are shown, the lowest first.
fn by_layers(
    alloc: Global,
    graph: &Graph,
    shown: &[bool],
) -> Result<Vec<(usize, usize)>, AllocError> {
    let mut layers = Vec::new(alloc);
    for (number, node) in graph.nodes.iter().enumerate() {
        if let Some(true) = shown.get(number) {
            layers.push((node.layer, number))?;
        }
    }
    layers.sort()?;
    Ok(layers)
}

fn longest(rows: &[Vec<usize>]) -> usize {
    let mut length = 0;
    for row in rows {
        length = row.len().max(length);
    }
    length
}

/// How wide a row of some boxes is.
fn row_width(count: usize, box_width: usize) -> usize {
    count
        .saturating_mul(box_width.saturating_add(GAP))
        .saturating_sub(GAP)
}

fn nowhere(alloc: Global, count: usize) -> Result<Vec<Option<Spot>>, AllocError> {
    let mut spots = Vec::new(alloc);
    for _ in 0..count {
        spots.push(None)?;
    }
    Ok(spots)
}
