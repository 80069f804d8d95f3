//! Why a record of a file is no row of a table.

ghost use Rattle.std.specs.Prelude.{◌<◌, length};

use catalog::{ColumnFault, RecordFault, RefusedRecord, Table};
use csv::{ByteRecord, ReaderBuilder};
use lexer::MAX_DIGITS;
use messages_excerpts::VisibleBytes;
use sqlvalue::{FieldFault, SqlType};
use std::alloc::{AllocError, Global};
use std::fmt::{self, Formatter};

/// A record that is refused, as the file has it.
#[derive(Drop)]
pub struct FileRecord<'a> {
    /// The line of the file that it begins in, from 1.
    pub line: u64,
    fields: Option<ByteRecord>,
    /// The bytes of the file from the record on, and how many of them are its own.
    rest: &'a [u8],
    length: usize,
    format: Format,
}

/// What a file's first bytes say that it is (own).
#[derive(Clone, Copy, PartialEq, Eq)]
pub(crate) enum Format {
    Text,
    Utf16,
    Gzip,
    /// An archive, as the files of spreadsheets are.
    Zip,
}

impl<'a> FileRecord<'a> {
    /// Reads a record again, from the byte behind the one before it and that byte's line. Where memory is wanting
    /// it has no fields.
    pub fn new(alloc: Global, bytes: &'a [u8], start: u64, line: u64) -> FileRecord<'a> {
        let behind = bytes.get(start as usize..).unwrap_or(b"");
        let (blank, rest) = behind.split_at(blank_length(behind).min(behind.len()));
        let feeds = count_of(b'\n', blank);
        let (fields, length) = match fields_at(alloc, rest) {
            Ok((fields, length)) => (Some(fields), length),
            Err(_) => (None, 0),
        };
        FileRecord {
            line: line.saturating_add(feeds as u64),
            fields,
            rest,
            length,
            format: format_of(bytes),
        }
    }

    /// The bytes of a field; nothing where there is no such one, or memory was wanting for it.
    pub(crate) fn read_field(&self, place: usize) -> Option<&[u8]> {
        match &self.fields {
            Some(fields) => fields.get(place),
            None => None,
        }
    }

    /// The bytes of a field; none where nothing was read.
    pub(crate) fn field(&self, place: usize) -> &[u8] {
        self.read_field(place).unwrap_or(b"")
    }

    /// Whether a quote that is not closed made it run on over line ends to the end of the file.
    pub(crate) fn runs_on(&self) -> bool {
        if self.length < self.rest.len() || !self.rest.contains(&b'\n') {
            return false;
        }
        count_of(b'"', self.rest) % 2 == 1
    }

    /// Whether its first field holds a byte.
    pub(crate) fn is_parted_by(&self, byte: u8) -> bool {
        self.field(0).contains(&byte)
    }

    /// What the file is, by its first bytes.
    pub(crate) fn format(&self) -> Format {
        self.format
    }
}

/// How many bytes stand before the first that ends no line.
fn blank_length(bytes: &[u8]) -> usize {
    for (length, byte) in bytes.iter().enumerate() {
        if !matches!(*byte, b'\n' | b'\r') {
            return length;
        }
    }
    bytes.len()
}

/// How often a byte stands in a text.
fn count_of(wanted: u8, bytes: &[u8]) -> usize {
    let mut count: usize = 0;
    for byte in bytes {
        if *byte == wanted {
            count = count.saturating_add(1);
        }
    }
    count
}

/// What begins with these bytes: a mark of UTF-16, that of gzip (RFC 1952, 2.3.1) or that of an archive, or else a text.
pub(crate) fn format_of(bytes: &[u8]) -> Format {
    match bytes {
        [0xff, 0xfe, ..] | [0xfe, 0xff, ..] => Format::Utf16,
        [0x1f, 0x8b, ..] => Format::Gzip,
        [b'P', b'K', 3, 4, ..] => Format::Zip,
        _ => Format::Text,
    }
}

/// The first record of some bytes, and how many bytes it takes.
fn fields_at(alloc: Global, bytes: &[u8]) -> Result<(ByteRecord, usize), AllocError> {
    let mut reader = ReaderBuilder::new()
        .has_headers(false)
        .flexible(true)
        .from_reader(alloc, bytes);
    let mut fields = ByteRecord::new(alloc);
    match reader.read_byte_record(&mut fields) {
        Ok(_) => Ok((fields, reader.position().byte() as usize)),
        Err(_) => Err(AllocError),
    }
}

/// `record 2, field 3 (M NUMERIC(5,2)): 8.251 has more than 2 digits behind the point`.
pub fn write_record<W: fmt::Write>(
    f: &mut Formatter<W>,
    table: &Table,
    refused: &RefusedRecord,
    record: &FileRecord,
) -> fmt::Result {
    write!(f, "record {}", refused.number)?;
    match refused.fault {
        RecordFault::FieldCount { fields } => write_count(f, table, fields),
        RecordFault::Field { fault, column } if column < table.width() => {
            write_column(f, table, column)?;
            match fault {
                ColumnFault::Null => f.write_str("NULL in a column that is NOT NULL"),
                ColumnFault::Value(fault) => {
                    write_field(f, fault, table.sql_type(column), record.read_field(column))
                }
            }
        }
        RecordFault::Field { .. } => Ok(()),
    }
}

/// `, field 3 (M NUMERIC(5,2)): `.
fn write_column<W: fmt::Write>(f: &mut Formatter<W>, table: &Table, column: usize) -> fmt::Result
    requires { column < length table.now.columns }
{
    let (name, sql_type) = (table.column_name(column), table.sql_type(column));
    let field = column.saturating_add(1);
    write!(f, ", field {field} ({name} {sql_type}): ")
}

fn write_count<W: fmt::Write>(f: &mut Formatter<W>, table: &Table, fields: usize) -> fmt::Result {
    let (name, width) = (table.name(), table.width());
    let field_plural = if fields == 1 { "" } else { "s" };
    let column_plural = if width == 1 { "" } else { "s" };
    write!(
        f,
        ": it has {fields} field{field_plural}, and table {name} has {width} column{column_plural}"
    )
}

fn write_field<W: fmt::Write>(
    f: &mut Formatter<W>,
    fault: FieldFault,
    sql_type: SqlType,
    field: Option<&[u8]>,
) -> fmt::Result {
    match field {
        Some(b"") => return f.write_str("the field is empty"),
        Some(bytes) => write_bytes(f, fault, bytes)?,
        None => f.write_str("the field ")?,
    }
    match fault {
        FieldFault::NoNumber => f.write_str("is no number"),
        FieldFault::Unprintable => f.write_str("has a character that is not printable ASCII"),
        FieldFault::ManyDigits => write!(f, "has more than {MAX_DIGITS} digits"),
        FieldFault::TooFine => write_too_fine(f, sql_type),
        FieldFault::TooGreat => write_too_great(f, sql_type),
        FieldFault::TooLong => write_too_long(f, sql_type),
    }
}

/// The bytes of a field: a number as it stands, and anything else between quotes.
fn write_bytes<W: fmt::Write>(
    f: &mut Formatter<W>,
    fault: FieldFault,
    bytes: &[u8],
) -> fmt::Result {
    match fault {
        FieldFault::ManyDigits | FieldFault::TooFine | FieldFault::TooGreat => {
            write!(f, "{} ", VisibleBytes(bytes))
        }
        FieldFault::NoNumber | FieldFault::Unprintable | FieldFault::TooLong => {
            write!(f, "'{}' ", VisibleBytes(bytes))
        }
    }
}

fn write_too_fine<W: fmt::Write>(f: &mut Formatter<W>, sql_type: SqlType) -> fmt::Result {
    match sql_type {
        SqlType::Numeric { scale: 1, .. } => {
            f.write_str("has more than 1 digit behind the point")
        }
        SqlType::Numeric { scale, .. } if scale > 0 => {
            write!(f, "has more than {scale} digits behind the point")
        }
        _ => f.write_str("is no whole number"),
    }
}

/// That a number is beyond the range of a type, which is told too.
fn write_too_great<W: fmt::Write>(f: &mut Formatter<W>, sql_type: SqlType) -> fmt::Result {
    f.write_str("is not in the range of ")?;
    match sql_type {
        SqlType::Smallint => write!(f, "{} to {}", i16::MIN, i16::MAX),
        SqlType::Integer => write!(f, "{} to {}", i32::MIN, i32::MAX),
        SqlType::Numeric { precision, scale } => {
            f.write_str("-")?;
            write_greatest(f, precision, scale)?;
            f.write_str(" to ")?;
            write_greatest(f, precision, scale)
        }
        SqlType::Char { .. } => Ok(()),
    }
}

/// The greatest number of a precision and a scale: `999.99`.
fn write_greatest<W: fmt::Write>(f: &mut Formatter<W>, precision: u8, scale: u8) -> fmt::Result {
    let whole = precision.saturating_sub(scale);
    if whole == 0 {
        f.write_str("0")?;
    }
    for digit in 0..precision {
        if digit == whole {
            f.write_str(".")?;
        }
        f.write_str("9")?;
    }
    Ok(())
}

fn write_too_long<W: fmt::Write>(f: &mut Formatter<W>, sql_type: SqlType) -> fmt::Result {
    match sql_type {
        SqlType::Char { length: 1 } => f.write_str("is longer than 1 character"),
        SqlType::Char { length } => write!(f, "is longer than {length} characters"),
        _ => Ok(()),
    }
}
