//! The line of a script around a place.

use crate::lines::begins_character;
use crate::visible::make_visible;
use std::fmt::{self, Formatter};

/// How many characters are shown on each side of a place, at most.
const SIDE: usize = 80;

/// What stands around an offset in its line: the text before it and the text from it on, and whether the
/// line begins before the one and ends behind the other.
#[derive(Clone, Copy)]
struct Excerpt<'a> {
    before: &'a str,
    after: &'a str,
    is_begun: bool,
    is_cut: bool,
}

/// Shows the line around an offset, of any length, with a caret under the place.
pub fn write_excerpt<W: fmt::Write>(
    f: &mut Formatter<W>,
    script: &str,
    offset: usize,
) -> fmt::Result {
    let excerpt = around(script, offset);
    if excerpt.is_begun {
        f.write_str("..")?;
    }
    write_shown(f, excerpt.before)?;
    write_shown(f, excerpt.after)?;
    f.write_str(if excerpt.is_cut { "..\n" } else { "\n" })?;
    if excerpt.is_begun {
        f.write_str("  ")?;
    }
    for character in excerpt.before.chars() {
        f.write_char(if character == '\t' { '\t' } else { ' ' })?;
    }
    f.write_str("^\n")
}

fn write_shown<W: fmt::Write>(f: &mut Formatter<W>, text: &str) -> fmt::Result {
    for character in text.chars() {
        f.write_char(make_visible(character))?;
    }
    Ok(())
}

/// What stands around an offset.
fn around(script: &str, offset: usize) -> Excerpt<'_> {
    let (head, tail) = (
        script.get(..offset).unwrap_or(""),
        script.get(offset..).unwrap_or(""),
    );
    let begin = side_before(head);
    let before = head.get(begin..).unwrap_or("");
    let line = tail.get(..side_behind(tail)).unwrap_or("");
    let after = line.strip_suffix('\r').unwrap_or(line);
    Excerpt {
        before,
        after,
        is_begun: ends_in_line(head.get(..begin).unwrap_or("")),
        is_cut: begins_in_line(tail.get(line.len()..).unwrap_or("")),
    }
}

fn ends_in_line(text: &str) -> bool {
    match text.as_bytes() {
        [.., last] => *last != b'\n',
        [] => false,
    }
}

fn begins_in_line(text: &str) -> bool {
    match text.as_bytes() {
        [first, ..] => *first != b'\n',
        [] => false,
    }
}

/// Where the characters begin that are shown before the end of a text: those of its last line, and the
/// last ones of these where there are many.
fn side_before(head: &str) -> usize {
    let mut begin = head.len();
    let mut count: usize = 0;
    for byte in head.as_bytes().iter().rev() {
        if *byte == b'\n' || count >= SIDE {
            return begin;
        }
        begin = begin.saturating_sub(1);
        if begins_character(*byte) {
            count = count.saturating_add(1);
        }
    }
    begin
}

/// Where the characters end that are shown from the beginning of a text on.
fn side_behind(tail: &str) -> usize {
    let mut count: usize = 0;
    for (offset, byte) in tail.as_bytes().iter().enumerate() {
        if *byte == b'\n' {
            return offset;
        }
        if begins_character(*byte) {
            count = count.saturating_add(1);
        }
        if count > SIDE {
            return offset;
        }
    }
    tail.len()
}
