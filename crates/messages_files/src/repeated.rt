//! Why a record whose key comes again is not loaded.

use catalog::{EarlierRow, Index, RepeatedRecord, Table};
use std::fmt::{self, Formatter};

/// `record 3 repeats the key (A, B) of record 1`.
pub fn write_repeated<W: fmt::Write>(
    f: &mut Formatter<W>,
    table: &Table,
    record: &RepeatedRecord,
) -> fmt::Result {
    write!(f, "record {} repeats the key ", record.number)?;
    if record.index < table.index_count() {
        write_key(f, table, table.index(record.index))?;
    }
    match record.earlier {
        EarlierRow::Stored(row) => write!(f, " of row {row} of table {}", table.name()),
        EarlierRow::Loaded(number) => write!(f, " of record {number}"),
    }
}

/// The columns of an index: `(A, B)`.
pub fn write_key<W: fmt::Write>(f: &mut Formatter<W>, table: &Table, index: &Index) -> fmt::Result {
    let mut separator = "(";
    for column in index.columns() {
        if *column < table.width() {
            write!(f, "{separator}{}", table.column_name(*column))?;
        }
        separator = ", ";
    }
    f.write_str(")")
}
