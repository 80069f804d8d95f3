//! What is wrong with the records of a file, counted by column and kind.

use crate::record::{Format, format_of};
use crate::spelling::{Spelling, spelling_of};
use catalog::{ColumnFault, Table};
use csv::{ByteRecord, ReaderBuilder};
use lexer::MAX_DIGITS;
use messages_excerpts::VisibleBytes;
use sqlvalue::{FieldFault, SqlType};
use std::alloc::{AllocError, Global};
use std::fmt::{self, Formatter};

/// How many bytes of a field are shown as an example, at most.
const EXAMPLE: usize = 40;

/// What is wrong with a field.
#[derive(Clone, Copy, PartialEq, Eq)]
enum Kind {
    /// Null in a column that is NOT NULL.
    Null,
    /// No number, by how it is written.
    NoNumber(Spelling),
    ManyDigits,
    TooFine,
    TooGreat,
    TooLong,
    LineBreak,
    Unprintable,
}

impl Kind {
    fn of(fault: ColumnFault, field: &[u8]) -> Kind {
        let ColumnFault::Value(fault) = fault else {
            return Kind::Null;
        };
        match fault {
            FieldFault::NoNumber => Kind::NoNumber(spelling_of(field)),
            FieldFault::ManyDigits => Kind::ManyDigits,
            FieldFault::TooFine => Kind::TooFine,
            FieldFault::TooGreat => Kind::TooGreat,
            FieldFault::TooLong => Kind::TooLong,
            FieldFault::Unprintable if field.contains(&b'\n') || field.contains(&b'\r') => {
                Kind::LineBreak
            }
            FieldFault::Unprintable => Kind::Unprintable,
        }
    }

    /// What is told of fields of the kind, behind how many they are.
    fn write<W: fmt::Write>(self, f: &mut Formatter<W>, sql_type: SqlType) -> fmt::Result {
        let words = self.words();
        match self {
            Kind::TooFine | Kind::TooGreat | Kind::TooLong => write!(f, "{words} {sql_type}"),
            Kind::ManyDigits => write!(f, "{words} {MAX_DIGITS} digits"),
            _ => f.write_str(words),
        }
    }

    /// The words of it before a type or a number, if it tells one.
    fn words(self) -> &'static str {
        match self {
            Kind::Null => "null",
            Kind::NoNumber(spelling) => words_of(spelling),
            Kind::ManyDigits => "with more than",
            Kind::TooFine => "with too many digits behind the point for",
            Kind::TooGreat => "out of the range of",
            Kind::TooLong => "too long for",
            Kind::LineBreak => "with a line break",
            Kind::Unprintable => "with a character that is not printable ASCII",
        }
    }

    /// Whether an example tells more than the kind.
    fn has_example(self) -> bool {
        !matches!(self, Kind::Null | Kind::NoNumber(Spelling::Empty))
    }
}

fn words_of(spelling: Spelling) -> &'static str {
    match spelling {
        Spelling::Empty => "empty",
        Spelling::Missing => "with a word for null",
        Spelling::Spaced => "with a space",
        Spelling::WithComma => "with a comma",
        Spelling::WithSign => "with a sign of a currency or %",
        Spelling::WithExponent => "with an exponent",
        Spelling::Other => "not a number",
    }
}

/// How many fields of a column have a fault of a kind, and the first of them.
#[derive(Drop)]
struct Tally {
    kind: Kind,
    count: u64,
    example: Vec<u8>,
}

/// Counts a fault of a column, whose tallies stand in the order in which their kinds were met.
fn count_fault(
    alloc: Global,
    tallies: &mut Vec<Tally>,
    kind: Kind,
    field: &[u8],
) -> Result<(), AllocError> {
    for tally in tallies.iter_mut() {
        if tally.kind == kind {
            tally.count = tally.count.saturating_add(1);
            return Ok(());
        }
    }
    let mut example = Vec::new(alloc);
    example.extend_from_slice(field.get(..EXAMPLE).unwrap_or(field))?;
    tallies.push(Tally {
        kind,
        count: 1,
        example,
    })?;
    Ok(())
}

/// What is wrong with the records of a file for a table.
#[derive(Drop)]
struct Survey<'t> {
    table: &'t Table,
    records: u64,
    faulty: u64,
    /// How many records have another number of fields than the table has columns.
    of_other_width: u64,
    /// What is wrong with the fields of each column.
    columns: Vec<Vec<Tally>>,
}

impl<'t> Survey<'t> {
    /// Goes through a file once. An `Err` is want of memory, of which it takes as much as a record and some for each column.
    fn of(alloc: Global, table: &'t Table, bytes: &[u8]) -> Result<Survey<'t>, AllocError> {
        let mut survey = Survey {
            table,
            records: 0,
            faulty: 0,
            of_other_width: 0,
            columns: Vec::new(alloc),
        };
        for _ in 0..table.width() {
            survey.columns.push(Vec::new(alloc))?;
        }
        let mut reader = ReaderBuilder::new()
            .has_headers(false)
            .flexible(true)
            .from_reader(alloc, bytes);
        let mut record = ByteRecord::new(alloc);
        // each record takes a byte at least
        for _ in 0..bytes.len() {
            match reader.read_byte_record(&mut record) {
                Ok(true) => survey.count_record(alloc, &record)?,
                Ok(false) => break,
                Err(_) => return Err(AllocError),
            }
        }
        Ok(survey)
    }

    fn count_record(&mut self, alloc: Global, record: &ByteRecord) -> Result<(), AllocError> {
        self.records = self.records.saturating_add(1);
        if record.len() != self.table.width() {
            self.of_other_width = self.of_other_width.saturating_add(1);
            self.faulty = self.faulty.saturating_add(1);
        } else if self.count_fields(alloc, record)? {
            self.faulty = self.faulty.saturating_add(1);
        }
        Ok(())
    }

    /// Counts the faults of a record's fields, and tells whether there is one.
    fn count_fields(&mut self, alloc: Global, record: &ByteRecord) -> Result<bool, AllocError> {
        let mut is_faulty = false;
        let table = self.table;
        for column in 0..table.width() {
            let field = record.get(column).unwrap_or(b"");
            if let Some(fault) = table.judge_field(column, field)
                && let Some(tallies) = self.columns.get_mut(column)
            {
                is_faulty = true;
                count_fault(alloc, tallies, Kind::of(fault, field), field)?;
            }
        }
        Ok(is_faulty)
    }

    fn write<W: fmt::Write>(&self, f: &mut Formatter<W>) -> fmt::Result {
        writeln!(
            f,
            "note: {} of {} records have a fault",
            self.faulty, self.records
        )?;
        if self.of_other_width > 0 {
            let (count, width) = (self.of_other_width, self.table.width());
            writeln!(f, "  {count} with another number of fields than {width}")?;
        }
        for (column, tallies) in self.columns.iter().enumerate() {
            if column < self.table.width() && !tallies.is_empty() {
                let (name, sql_type) = (
                    self.table.column_name(column),
                    self.table.sql_type(column),
                );
                write!(f, "  {name}: ")?;
                write_faults(f, tallies, sql_type)?;
            }
        }
        Ok(())
    }
}

/// `140 empty, 153 with a comma ('1,200')`.
fn write_faults<W: fmt::Write>(
    f: &mut Formatter<W>,
    tallies: &[Tally],
    sql_type: SqlType,
) -> fmt::Result {
    let mut separator = "";
    for tally in tallies {
        write!(f, "{separator}{} ", tally.count)?;
        tally.kind.write(f, sql_type)?;
        if tally.kind.has_example() {
            write!(f, " ('{}')", VisibleBytes(&tally.example))?;
        }
        separator = ", ";
    }
    f.write_str("\n")
}

/// Writes how many of a file's records have a fault, and in each column how many of each kind, where more than one record has one and the
/// file is in an encoding that is read. What is wrong with a field is judged as LOAD judges it.
pub fn write_survey<W: fmt::Write>(
    f: &mut Formatter<W>,
    alloc: Global,
    table: &Table,
    bytes: &[u8],
) -> fmt::Result {
    if format_of(bytes) != Format::Text {
        return Ok(());
    }
    match Survey::of(alloc, table, bytes) {
        Ok(survey) if survey.faulty > 1 => survey.write(f),
        _ => Ok(()),
    }
}
