//! Places of a file as people are shown them.

use messages_excerpts::{LineColumn, Lines, write_excerpt};
use std::fmt::{self, Formatter};

/// A file whose places are found from one to the next.
#[derive(Drop)]
pub(crate) enum Page<'a> {
    Text(Lines<'a>),
    /// It isn't UTF-8.
    Bytes(&'a [u8]),
}

impl<'a> Page<'a> {
    pub fn new(file: &'a [u8]) -> Page<'a> {
        match str::from_utf8(file) {
            Ok(text) => Page::Text(Lines::new(text)),
            Err(_) => Page::Bytes(file),
        }
    }

    /// The line and the column of a byte; in a file that isn't UTF-8 columns are bytes.
    pub fn locate(&mut self, offset: usize) -> LineColumn {
        match self {
            Page::Text(lines) => lines.locate(offset),
            Page::Bytes(file) => place_in(file.get(..offset).unwrap_or(&[])),
        }
    }

    /// Shows the line around a byte with a caret under the place, where the file is UTF-8 and has something in that line.
    pub fn write_line<W: fmt::Write>(&self, f: &mut Formatter<W>, offset: usize) -> fmt::Result {
        match self {
            Page::Text(lines) if !is_empty_at(lines.script(), offset) => {
                write_excerpt(f, lines.script(), offset)
            }
            Page::Text(_) | Page::Bytes(_) => Ok(()),
        }
    }
}

/// The place behind bytes.
fn place_in(bytes: &[u8]) -> LineColumn {
    let mut place = LineColumn { line: 1, column: 1 };
    for byte in bytes {
        if *byte == b'\n' {
            place.line = place.line.saturating_add(1);
            place.column = 1;
        } else {
            place.column = place.column.saturating_add(1);
        }
    }
    place
}

/// Whether a text ends at an offset, and no line is begun there.
fn is_empty_at(text: &str, offset: usize) -> bool {
    let is_begun = match text.as_bytes() {
        [.., last] => *last != b'\n',
        [] => false,
    };
    offset >= text.len() && !is_begun
}
