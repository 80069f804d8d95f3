//! An answer of rows, read from the text of its statement.

use std::alloc::AllocError;

/// The text of an answer of rows: its header, a line for each row, and how many there are.
#[derive(Clone, Copy)]
pub struct Answer<'t> {
    pub(crate) names: &'t str,
    /// The lines of the rows, without the last one's end.
    pub(crate) rows: &'t str,
    /// The last line, as `5 rows`.
    pub(crate) count: &'t str,
}

impl<'t> Answer<'t> {
    /// The parts of a statement's text, if it is an answer of rows. Such a text ends in how many rows there are, as
    /// that of no other statement does: `5 rows loaded` goes on.
    pub fn read(text: &'t str) -> Option<Answer<'t>> {
        let (lines, count) = text.strip_suffix('\n')?.rsplit_once('\n')?;
        if !is_number(count.strip_suffix(" rows")?) {
            return None;
        }
        let (names, rows) = lines.split_once('\n').unwrap_or((lines, ""));
        Some(Answer { names, rows, count })
    }
}

/// Whether a text is of digits alone, and has one.
fn is_number(text: &str) -> bool {
    for byte in text.as_bytes() {
        if !byte.is_ascii_digit() {
            return false;
        }
    }
    !text.is_empty()
}

/// What a field of a row says.
#[derive(Clone, Copy)]
pub(crate) enum Cell<'t> {
    Null,
    Number(&'t str),
    /// A text without its quotes and without the blanks at its end, in which quotes are still doubled.
    Text(&'t str),
}

impl<'t> Cell<'t> {
    pub(crate) fn read(field: &'t str) -> Cell<'t> {
        if field == "NULL" {
            return Cell::Null;
        }
        match field.strip_prefix('\'') {
            Some(rest) => Cell::Text(rest.strip_suffix('\'').unwrap_or(rest).trim_end()),
            None => Cell::Number(field),
        }
    }
}

/// Replaces fields by those of a line. A bar between quotes is one of a text, which a doubled quote closes and opens again.
pub(crate) fn split_fields<'t>(line: &'t str, fields: &mut Vec<&'t str>) -> Result<(), AllocError> {
    fields.clear();
    let mut begin = 0;
    let mut is_in_text = false;
    for (at, sign) in line.char_indices() {
        if sign == '\'' {
            is_in_text = !is_in_text;
        } else if sign == '|' && !is_in_text {
            fields.push(line.get(begin..at).unwrap_or(""))?;
            begin = at.saturating_add(1);
        }
    }
    fields.push(line.get(begin..).unwrap_or(""))?;
    Ok(())
}

/// Replaces a text by one in which quotes are doubled, each once.
pub(crate) fn put_single(doubled: &str, text: &mut String) -> Result<(), AllocError> {
    text.clear();
    let mut is_behind = false;
    for part in doubled.split("''") {
        if is_behind {
            text.push('\'')?;
        }
        text.push_str(part)?;
        is_behind = true;
    }
    Ok(())
}
