//! Why a record is not loaded.

ghost use Rattle.std.specs.Prelude.{◌≡◌};
ghost use Rattle.sqlvalue.specs.RefusalMeaning.{refusal_of};
ghost use Rattle.loading.specs.Meaning.{column_refusal, record_refusal};

use sqlvalue::{FieldFault, Refusal};
use thiserror::Error;

/// Why a field does not load into a column.
#[derive(Clone, Copy, Debug, PartialEq, Eq, Error)]
pub enum ColumnFault {
    #[error("the field is null, and the column is NOT NULL")]
    Null,
    #[error("the field is no value of the column's type")]
    Value(FieldFault),
}

impl ColumnFault {
    /// The refusal that it is.
    pub fn refusal(self) -> Refusal
        ensures { refusal_of result ≡ column_refusal self }
    {
        match self {
            ColumnFault::Null => Refusal::NullOrRepeated,
            ColumnFault::Value(fault) => Refusal::Field(fault),
        }
    }
}

/// Why a record is no row of a table. Columns are told by their numbers, from 0.
#[derive(Clone, Copy, Debug, PartialEq, Eq, Error)]
pub enum RecordFault {
    #[error("the record has {fields} fields, which are not as many as the table has columns")]
    FieldCount { fields: usize },
    #[error("a field does not load into its column")]
    Field { fault: ColumnFault, column: usize },
}

impl RecordFault {
    /// The refusal that it is.
    pub fn refusal(self) -> Refusal
        ensures { refusal_of result ≡ record_refusal self }
    {
        match self {
            RecordFault::FieldCount { .. } => Refusal::FieldCount,
            RecordFault::Field { fault, .. } => fault.refusal(),
        }
    }
}

/// The first record of a file that is no row.
#[derive(Clone, Copy, Debug, PartialEq, Eq)]
pub struct RefusedRecord {
    pub fault: RecordFault,
    /// Its number among the records, from 1.
    pub number: u64,
    /// The byte of the file behind the record before it.
    pub start: u64,
    /// The line of that byte, from 1.
    pub line: u64,
}

/// Why a field or a record is not stored.
#[derive(Clone, Copy)]
pub(crate) enum PushFault<F> {
    Refused(F),
    Memory,
}
