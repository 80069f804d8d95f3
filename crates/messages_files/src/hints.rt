//! What may be wrong with a record of a file, as a hint.

use crate::record::{FileRecord, Format};
use crate::spelling::{Spelling, has_digit, spelling_of};
use catalog::{ColumnFault, RecordFault, RefusedRecord, Table};
use sqlvalue::{FieldFault, SqlType};
use std::fmt::{self, Formatter};

const HEADINGS: &str =
    "this looks like a line of headings: every line of a file is loaded, so take it out";

/// A hint for what may be wrong with the file, as a line, where one is sure.
pub fn write_record_hint<W: fmt::Write>(
    f: &mut Formatter<W>,
    table: &Table,
    refused: &RefusedRecord,
    record: &FileRecord,
) -> fmt::Result {
    if let Some(hint) = hint_of(table, refused, record) {
        return writeln!(f, "hint: {hint}");
    }
    match refused.fault {
        RecordFault::Field {
            fault: ColumnFault::Value(FieldFault::Unprintable),
            column,
        } => write_character_hint(f, record.field(column)),
        RecordFault::Field {
            fault: ColumnFault::Value(FieldFault::NoNumber),
            column,
        } => write_sign_hint(f, record.field(column)),
        _ => Ok(()),
    }
}

fn hint_of(table: &Table, refused: &RefusedRecord, record: &FileRecord) -> Option<&'static str> {
    if let Some(hint) = format_hint(record.format()) {
        return Some(hint);
    }
    if record.runs_on() {
        return Some(
            "a quote in this record is not closed, and so it runs on to the end of the file",
        );
    }
    match refused.fault {
        RecordFault::FieldCount { fields: 1 } if record.is_parted_by(b';') => {
            Some("fields are parted by commas, and here semicolons stand")
        }
        RecordFault::FieldCount { fields: 1 } if record.is_parted_by(b'\t') => {
            Some("fields are parted by commas, and here tabs stand")
        }
        RecordFault::Field {
            fault: ColumnFault::Value(FieldFault::NoNumber),
            column,
        } => number_hint(table, refused, record, column),
        _ => None,
    }
}

/// A hint for a file that is no text.
fn format_hint(format: Format) -> Option<&'static str> {
    match format {
        Format::Text => None,
        Format::Utf16 => Some("this file is UTF-16: save it as UTF-8"),
        Format::Gzip => Some("this file is packed by gzip: unpack it first"),
        Format::Zip => Some(
            "this file is an archive, as those of spreadsheets are: save it as CSV",
        ),
    }
}

/// A hint for a field that is no number.
fn number_hint(
    table: &Table,
    refused: &RefusedRecord,
    record: &FileRecord,
    column: usize,
) -> Option<&'static str> {
    match spelling_of(record.read_field(column)?) {
        Spelling::Empty | Spelling::Missing => Some("write \\N for null"),
        _ if refused.number == 1 && is_heading(table, record, column) => Some(HEADINGS),
        Spelling::Spaced => Some("no space stands before or behind a number"),
        Spelling::WithComma => Some("a number is written without commas, as 1200 or 8.5"),
        Spelling::WithSign => Some("a number stands alone, with no sign of a currency and no %"),
        Spelling::WithExponent => Some("a number has no exponent: write it out"),
        Spelling::Other => None,
    }
}

/// Whether a record names columns: in a field that should be a number its column, or no number stands where several should.
fn is_heading(table: &Table, record: &FileRecord, column: usize) -> bool {
    let names_column = column < table.width()
        && names(record.field(column), table.column_name(column));
    names_column || lacks_numbers(table, record)
}

/// Whether a heading names a column, in letters of whatever case and with other signs between its words.
fn names(heading: &[u8], column: &str) -> bool {
    for (one, other) in heading.iter().zip(column.as_bytes()) {
        if folded(*one) != folded(*other) {
            return false;
        }
    }
    heading.len() == column.len()
}

fn folded(byte: u8) -> u8 {
    match byte {
        b' ' | b'-' | b'.' => b'_',
        _ => byte.to_ascii_uppercase(),
    }
}

/// Whether a record has a word without digits for each number of a table that has several.
fn lacks_numbers(table: &Table, record: &FileRecord) -> bool {
    let mut numbers = 0usize;
    for column in 0..table.width() {
        if matches!(table.sql_type(column), SqlType::Char { .. }) {
            continue;
        }
        let field = record.field(column);
        let is_word = matches!(spelling_of(field), Spelling::Other) && !has_digit(field);
        if !is_word {
            return false;
        }
        numbers = numbers.saturating_add(1);
    }
    numbers > 1
}

/// Which character of a field looks like one of a number, and is another.
fn write_sign_hint<W: fmt::Write>(f: &mut Formatter<W>, field: &[u8]) -> fmt::Result {
    if printable_length(field) == field.len() || !has_digit(field) {
        return Ok(());
    }
    write_character_hint(f, field)
}

/// Which character of a text can't be stored.
fn write_character_hint<W: fmt::Write>(f: &mut Formatter<W>, field: &[u8]) -> fmt::Result {
    let before = printable_length(field);
    let rest = field.get(before..).unwrap_or(b"");
    write!(f, "hint: character {} is ", before.saturating_add(1))?;
    match rest {
        [b'\n' | b'\r', ..] => f.write_str("a line break\n"),
        [b'\t', ..] => f.write_str("a tab\n"),
        [byte, ..] => match first_character(rest) {
            Some(letter @ '\u{a1}'..='\u{24f}') => writeln!(f, "'{letter}'"),
            Some(character) => writeln!(f, "U+{:04X}", character as u32),
            None => writeln!(
                f,
                "byte {byte:02X}, which is not UTF-8: the file may be Latin-1"
            ),
        },
        [] => Ok(()),
    }
}

/// How many bytes of printable ASCII a field begins with.
fn printable_length(field: &[u8]) -> usize {
    let mut length: usize = 0;
    for byte in field {
        if !matches!(*byte, 0x20..=0x7e) {
            break;
        }
        length = length.saturating_add(1);
    }
    length
}

/// The character that some bytes begin with, if they are UTF-8 there.
fn first_character(bytes: &[u8]) -> Option<char> {
    for length in 1..5 {
        let Some(head) = bytes.get(..length) else {
            return None;
        };
        if let Ok(text) = str::from_utf8(head) {
            return text.chars().next();
        }
    }
    None
}
