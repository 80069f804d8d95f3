//! How wide texts are, and where they are broken.

use unicode_width::UnicodeWidthChar;

/// How many columns a text takes.
pub(crate) fn columns_of(text: &str) -> usize {
    let mut columns: usize = 0;
    for sign in text.chars() {
        columns = columns.saturating_add(sign.width().unwrap_or(0));
    }
    columns
}

/// The beginning of a text that has room in a number of columns, broken at a blank where there is one, and the rest.
pub(crate) fn split_fitting(text: &str, columns: usize) -> (&str, &str) {
    let room = room_in(text, columns);
    let head = text.get(..room).unwrap_or(text);
    let rest = text.get(room..).unwrap_or("");
    if rest.is_empty() || rest.starts_with(' ') {
        return (head, rest.trim_start());
    }
    match head.rsplit_once(' ') {
        Some((before, _)) if !before.is_empty() => {
            let behind = text.get(before.len()..).unwrap_or("");
            (before, behind.trim_start())
        }
        _ => (head, rest),
    }
}

/// How many bytes of a text have room in a number of columns: at least its first character's.
fn room_in(text: &str, columns: usize) -> usize {
    let mut taken: usize = 0;
    for (offset, sign) in text.char_indices() {
        taken = taken.saturating_add(sign.width().unwrap_or(0));
        if taken > columns && offset > 0 {
            return offset;
        }
    }
    text.len()
}
