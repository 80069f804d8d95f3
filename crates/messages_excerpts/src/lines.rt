//! Lines and columns of a script.

use std::cell::Cell;

/// Where a byte of a script stands: its line and its column, both from 1, the column in characters.
#[derive(Clone, Copy)]
pub struct LineColumn {
    pub line: usize,
    pub column: usize,
}

/// A script whose places are found from one to the next, so that finding one takes no longer than reading what is between it and the
/// last, and its line.
#[derive(Drop)]
pub struct Lines<'a> {
    script: &'a str,
    last: Cell<Located>,
}

/// A byte of a script, and where it stands.
#[derive(Clone, Copy)]
struct Located {
    offset: usize,
    place: LineColumn,
}

impl Located {
    /// A script's first byte.
    fn first() -> Located {
        Located {
            offset: 0,
            place: LineColumn { line: 1, column: 1 },
        }
    }
}

impl<'a> Lines<'a> {
    pub fn new(script: &'a str) -> Lines<'a> {
        Lines {
            script,
            last: Cell::new(Located::first()),
        }
    }

    /// The whole text of the script.
    pub fn script(&self) -> &'a str {
        self.script
    }

    /// The place of a byte, by its offset.
    pub fn locate(&self, offset: usize) -> LineColumn {
        let last = self.last.get();
        let place = if offset < last.offset {
            before(self.script, last, offset)
        } else {
            behind(
                last.place,
                self.script.get(last.offset..offset).unwrap_or(""),
            )
        };
        self.last.set(Located { offset, place });
        place
    }
}

/// The place of a byte that stands before a place.
fn before(script: &str, last: Located, offset: usize) -> LineColumn {
    let between = script.get(offset..last.offset).unwrap_or("");
    let breaks = behind(Located::first().place, between)
        .line
        .saturating_sub(1);
    let head = script.get(..offset).unwrap_or("");
    let line_head = match head.rsplit_once('\n') {
        Some((_, line_head)) => line_head,
        None => head,
    };
    let line_start = LineColumn {
        line: last.place.line.saturating_sub(breaks),
        column: 1,
    };
    behind(line_start, line_head)
}

/// The place behind a text that begins at a place.
fn behind(place: LineColumn, text: &str) -> LineColumn {
    let mut line = place.line;
    let mut column = place.column;
    for byte in text.as_bytes() {
        if *byte == b'\n' {
            line = line.saturating_add(1);
            column = 1;
        } else if begins_character(*byte) {
            column = column.saturating_add(1);
        }
    }
    LineColumn { line, column }
}

/// Whether a byte is the first of a character in UTF-8 (RFC 3629, 3).
pub(crate) fn begins_character(byte: u8) -> bool {
    !matches!(byte, 0x80..=0xbf)
}
