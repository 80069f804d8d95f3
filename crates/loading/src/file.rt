//! Files of comma-separated values (RFC 4180).

ghost use Rattle.std.specs.Prelude.{◌≡◌, ◌≤◌, ◌<◌, ◌+◌, ◌^◌, ◌∷◌, [], ◌++◌, ℕ, List, Ok, Err, IfOk, IfErr, OnOk, OnErr, length, map};
ghost use Rattle.std.specs.Bool.{OnTrue, OnFalse};
ghost use Rattle.std.specs.List.{AllByRecursion};
ghost use Rattle.csv.specs.Records.{fields_of};
ghost use Rattle.definitions.specs.Value.{Value};
ghost use Rattle.definitions.specs.Table.{Row};
ghost use Rattle.definitions.specs.Loading.{Record, AreFileRecords, ColumnLoads, FieldsLoad, RecordReads};
ghost use Rattle.loading.specs.Stored.{StoredColumn, headers, with_value, with_row, cut_to, AreFilled, Extends};
ghost use Rattle.loading.specs.Cells.{IfRefused};
ghost use Rattle.loading.specs.Meaning.{record_refusal};
ghost use Rattle.loading.specs.Pushes.{Pushes};
ghost use Rattle.loading.specs.Files.{HasRead};

use crate::fault::{PushFault, RecordFault, RefusedRecord};
use crate::pushed::{Pushed, StopReason};
use crate::table_column::TableColumn;
use crate::watch::{LoadProgress, LoadWatch};
use csv::{ByteRecord, Position, Reader, ReaderBuilder};
use std::alloc::{AllocError, Global};

/// Adds a row for each record of a file (own) to columns of `len` values each, up to the first record that is no
/// row, or for which there is no `room`, and tells a watch how far it is. An `Err` is want of memory, and leaves the rows that were added.
pub fn push_records<W: LoadWatch>(
    alloc: Global,
    columns: &mut [TableColumn],
    len: usize,
    bytes: &[u8],
    room: u64,
    watch: &W,
) -> Result<Pushed, AllocError>
    requires filled { AreFilled len columns.old }
    requires counted { len + room < 2 ^ 64 }
    ensures pushes { IfOk result (λ pushed. Pushes columns.old bytes.now room pushed columns.new) }
    ensures err { OnErr result (Extends columns.old columns.new) }
{
    let mut reader = reader_of(alloc, bytes);
    let mut record = ByteRecord::new(alloc);
    let mut rows = 0;
    while next_record(&mut reader, &mut record)? {
        if rows == room {
            return Ok(Pushed {
                rows,
                stopped: Some(StopReason::Full),
            });
        }
        match push_record(columns, len + rows as usize, &record) {
            Ok(()) => {
                rows += 1;
                tell(watch, rows, &record, bytes);
            }
            Err(PushFault::Refused(fault)) => {
                let refused = refused_record(fault, rows + 1, record.position());
                return Ok(Pushed {
                    rows,
                    stopped: Some(StopReason::Record(refused)),
                });
            }
            Err(PushFault::Memory) => return Err(AllocError),
        }
    }
    Ok(Pushed {
        rows,
        stopped: None,
    })
}

/// How many records are loaded from one time that a watch is told to the next (own).
const TOLD_EACH: u64 = 65_536;

/// Tells a watch of the records loaded so far, now and then.
fn tell<W: LoadWatch>(watch: &W, records: u64, last: &ByteRecord, file: &[u8]) {
    if records % TOLD_EACH == 0 {
        let RecordStart { start, .. } = start_at(last.position());
        watch.loaded(LoadProgress {
            records,
            bytes: start,
            of_bytes: file.len() as u64,
        });
    }
}

/// Where a record of a file begins, as `csv` says it.
#[derive(Clone, Copy, PartialEq, Eq)]
pub struct RecordStart {
    /// The byte of the file behind the record before it.
    pub start: u64,
    /// The line of that byte, from 1.
    pub line: u64,
}

/// Where the record of a number, from 1, begins; the last one, if there are fewer. It is for messages, and nothing
/// is promised of it. An `Err` is want of memory.
pub fn record_start(alloc: Global, bytes: &[u8], number: u64) -> Result<RecordStart, AllocError> {
    let mut reader = reader_of(alloc, bytes);
    let mut record = ByteRecord::new(alloc);
    let mut position = None;
    for _ in 0..number {
        if !next_record(&mut reader, &mut record)? {
            break;
        }
        position = record.position();
    }
    Ok(start_at(position))
}

fn start_at(position: Option<Position>) -> RecordStart {
    let position = position.unwrap_or(Position::new());
    RecordStart {
        start: position.byte(),
        line: position.line(),
    }
}

/// A record that is refused, and where it begins.
fn refused_record(fault: RecordFault, number: u64, position: Option<Position>) -> RefusedRecord
    ensures fault { result.fault ≡ fault }
    ensures number { result.number ≡ number }
{
    let RecordStart { start, line } = start_at(position);
    RefusedRecord {
        fault,
        number,
        start,
        line,
    }
}

/// A reader at the beginning of a file, which has no line of names.
fn reader_of(alloc: Global, bytes: &[u8]) -> Reader<&[u8]>
    ensures { HasRead bytes.now result [] }
{
    ReaderBuilder::new()
        .has_headers(false)
        .flexible(true)
        .from_reader(alloc, bytes)
}

/// Reads the next record, if there is one. Reading memory fails for want of memory alone.
fn next_record(reader: &mut Reader<&[u8]>, fields: &mut ByteRecord) -> Result<bool, AllocError>
    ensures more { IfOk result (λ found. OnTrue found ((bytes : List ℕ) (records : List Record) →
        HasRead bytes reader.old records → HasRead bytes reader.new (records ++ fields_of fields.new ∷ []))) }
    ensures end { IfOk result (λ found. OnFalse found ((bytes : List ℕ) (records : List Record) →
        HasRead bytes reader.old records → AreFileRecords bytes records)) }
{
    reader.read_byte_record(fields).map_err(|_| AllocError)
}

/// Adds the row that a record is stored as to columns of `len` values each: first the number of its fields is
/// judged, and then each field in turn. An `Err` leaves the columns as they were.
fn push_record(
    columns: &mut [TableColumn],
    len: usize,
    fields: &ByteRecord,
) -> Result<(), PushFault<RecordFault>>
    requires { AreFilled len columns.old }
    ensures ok { OnOk result ((row : Row) × RecordReads (headers columns.old) (fields_of fields.now) (Ok row) ×
        (columns.new ≡ with_row columns.old row)) }
    ensures refused { IfErr result (IfRefused (λ f. RecordReads (headers columns.old) (fields_of fields.now)
        (Err (record_refusal f)))) }
    ensures err { OnErr result (columns.new ≡ columns.old) }
{
    if fields.len() != columns.len() {
        return Err(PushFault::Refused(RecordFault::FieldCount {
            fields: fields.len(),
        }));
    }
    match push_fields(columns, fields) {
        Ok(()) => Ok(()),
        Err(fault) => {
            cut_columns(columns, len);
            Err(fault)
        }
    }
}

/// Adds the value of each field to its column. An `Err` leaves those before it.
fn push_fields(
    columns: &mut [TableColumn],
    fields: &ByteRecord,
) -> Result<(), PushFault<RecordFault>>
    requires { length (fields_of fields.now) ≡ length columns.old }
    ensures ok { OnOk result ((row : Row) × FieldsLoad (headers columns.old) (fields_of fields.now) (Ok row) ×
        (columns.new ≡ with_row columns.old row)) }
    ensures refused { IfErr result (IfRefused (λ f. FieldsLoad (headers columns.old) (fields_of fields.now)
        (Err (record_refusal f)))) }
    ensures err { OnErr result (Extends columns.old columns.new) }
{
    for i in 0..columns.len() {
        let field = fields.get(i).unwrap();
        push_field(&mut columns[i], i, field)?;
    }
    Ok(())
}

/// Adds the value of a field to the column of a number. An `Err` leaves the column as it was.
fn push_field(
    column: &mut TableColumn,
    number: usize,
    field: &[u8],
) -> Result<(), PushFault<RecordFault>>
    ensures ok { OnOk result ((v : Value) × ColumnLoads column.old.header field.now (Ok v) ×
        (column.new ≡ with_value column.old v)) }
    ensures refused { IfErr result (IfRefused (λ f. ColumnLoads column.old.header field.now (Err (record_refusal f)))) }
    ensures err { OnErr result (column.new ≡ column.old) }
{
    match column.push_field(field) {
        Ok(()) => Ok(()),
        Err(PushFault::Refused(fault)) => Err(PushFault::Refused(RecordFault::Field {
            fault,
            column: number,
        })),
        Err(PushFault::Memory) => Err(PushFault::Memory),
    }
}

/// Keeps the first rows alone, as many as `rows`.
pub fn cut_columns(columns: &mut [TableColumn], rows: usize)
    requires { AllByRecursion (λ (c : StoredColumn). rows ≤ length c.values) columns.old }
    ensures { columns.new ≡ map (cut_to rows) columns.old }
{
    for column in columns.iter_mut() {
        column.truncate(rows);
    }
}
