//! Why a statement on the catalogue is refused.

ghost use Rattle.std.specs.Prelude.{◌≡◌, option_map};
ghost use Rattle.sqlvalue.specs.RefusalMeaning.{refusal_of};
ghost use Rattle.catalog.specs.Meaning.{create_refusal, list_refusal, index_refusal, table_statistics_refusal, statistics_refusal};
ghost use Rattle.catalog.specs.declared.fault.CreateFault.TheVariants as create;
ghost use Rattle.catalog.specs.declared.fault.ListFault.TheVariants as list;
ghost use Rattle.catalog.specs.declared.fault.IndexFault.TheVariants as index;

use indexes::RepeatedKey;
use loading::RefusedRecord;
use sqlvalue::{Refusal, TypeFault};
use std::alloc::{AllocError, AllocFailed};
use thiserror::Error;

/// Why CREATE TABLE is refused. Its columns are told by their places, from 0.
#[derive(Clone, Copy, Debug, PartialEq, Eq, Error)]
pub enum CreateFault {
    #[error("there is a table of that name")]
    TableTaken,
    #[error("a column has the name of one before it")]
    ColumnTwice { column: usize },
    #[error("there are too many tables")]
    ManyTables,
    #[error("there are too many columns")]
    ManyColumns,
    #[error("too many columns are UNIQUE or PRIMARY KEY")]
    ManyKeys,
    #[error("two columns are PRIMARY KEY")]
    TwoPrimaryKeys { column: usize },
    #[error("the type of a column is out of range")]
    Type { column: usize, fault: TypeFault },
    #[error("out of memory")]
    Memory,
}

impl CreateFault {
    /// The refusal that it is, unless memory was wanting.
    pub fn refusal(self) -> Option<Refusal>
        ensures { option_map refusal_of result ≡ create_refusal self }
    {
        match self {
            CreateFault::TableTaken | CreateFault::ColumnTwice { .. } => Some(Refusal::NameTaken),
            CreateFault::ManyTables
            | CreateFault::ManyColumns
            | CreateFault::ManyKeys
            | CreateFault::TwoPrimaryKeys { .. }
            | CreateFault::Type { .. } => Some(Refusal::OverLimit),
            CreateFault::Memory => None,
        }
    }
}

impl From<AllocError> for CreateFault {
    ghost from_gives = { λ _ fault. fault ≡ create.Memory };

    fn from(_error: AllocError) -> CreateFault {
        CreateFault::Memory
    }
}

impl<T: Drop> From<AllocFailed<T>> for CreateFault {
    ghost from_gives = { λ _ fault. fault ≡ create.Memory };

    fn from(_error: AllocFailed<T>) -> CreateFault {
        CreateFault::Memory
    }
}

/// Why a list of columns stands for none of a table. Its columns are told by their places, from 0.
#[derive(Clone, Copy, Debug, PartialEq, Eq, Error)]
pub enum ListFault {
    #[error("there is no such table")]
    NoTable,
    #[error("the table has no such column")]
    NoColumn { column: usize },
    #[error("there is no column")]
    Empty,
    #[error("there are too many columns")]
    ManyColumns,
    #[error("out of memory")]
    Memory,
}

impl ListFault {
    /// The refusal that it is, unless memory was wanting.
    pub fn refusal(self) -> Option<Refusal>
        ensures { option_map refusal_of result ≡ list_refusal self }
    {
        match self {
            ListFault::NoTable | ListFault::NoColumn { .. } | ListFault::Empty => {
                Some(Refusal::NotFound)
            }
            ListFault::ManyColumns => Some(Refusal::OverLimit),
            ListFault::Memory => None,
        }
    }
}

impl<T: Drop> From<AllocFailed<T>> for ListFault {
    ghost from_gives = { λ _ fault. fault ≡ list.Memory };

    fn from(_error: AllocFailed<T>) -> ListFault {
        ListFault::Memory
    }
}

/// Why CREATE INDEX is refused. Columns of the list are told by their places, and indexes and rows by their numbers,
/// all from 0.
#[derive(Clone, Copy, Debug, PartialEq, Eq, Error)]
pub enum IndexFault {
    #[error("the list stands for no columns")]
    List(ListFault),
    #[error("a column is listed twice")]
    ColumnTwice { column: usize },
    #[error("there is an index on that list")]
    ListTaken { index: usize },
    #[error("there are too many indexes")]
    ManyIndexes,
    #[error("a key comes again")]
    Repeated(RepeatedKey),
    #[error("out of memory")]
    Memory,
}

impl IndexFault {
    /// The refusal that it is, unless memory was wanting.
    pub fn refusal(self) -> Option<Refusal>
        ensures { option_map refusal_of result ≡ index_refusal self }
    {
        match self {
            IndexFault::List(fault) => fault.refusal(),
            IndexFault::ColumnTwice { .. } | IndexFault::ListTaken { .. } => {
                Some(Refusal::NameTaken)
            }
            IndexFault::ManyIndexes => Some(Refusal::OverLimit),
            IndexFault::Repeated(_) => Some(Refusal::NullOrRepeated),
            IndexFault::Memory => None,
        }
    }
}

impl<T: Drop> From<AllocFailed<T>> for IndexFault {
    ghost from_gives = { λ _ fault. fault ≡ index.Memory };

    fn from(_error: AllocFailed<T>) -> IndexFault {
        IndexFault::Memory
    }
}

/// Why SET STATISTICS of a table is refused.
#[derive(Clone, Copy, Debug, PartialEq, Eq, Error)]
pub enum TableStatisticsFault {
    #[error("there is no such table")]
    NoTable,
    #[error("ROWS is out of range")]
    Rows,
    #[error("PAGES is out of range")]
    Pages,
}

impl TableStatisticsFault {
    /// The refusal that it is.
    pub fn refusal(self) -> Refusal
        ensures { refusal_of result ≡ table_statistics_refusal self }
    {
        match self {
            TableStatisticsFault::NoTable => Refusal::NotFound,
            TableStatisticsFault::Rows | TableStatisticsFault::Pages => Refusal::OverLimit,
        }
    }
}

/// Which end of a range of keys a bound of SET STATISTICS gives: LOW or HIGH.
#[derive(Clone, Copy, Debug, PartialEq, Eq)]
pub enum RangeEnd {
    Low,
    High,
}

/// Why SET STATISTICS of an index is refused.
#[derive(Clone, Copy, Debug, PartialEq, Eq, Error)]
pub enum StatisticsFault {
    #[error("the list stands for no columns")]
    List(ListFault),
    #[error("there is no index on that list")]
    NoIndex,
    #[error("KEYS is out of range")]
    Keys,
    #[error("PAGES is out of range")]
    Pages,
    #[error("the first column has texts, which have no LOW and HIGH")]
    Texts,
    #[error("no value of the first column's type is equal to LOW or HIGH")]
    Unfit { end: RangeEnd },
    #[error("LOW is above HIGH")]
    Falls,
}

impl StatisticsFault {
    /// The refusal that it is, unless memory was wanting.
    pub fn refusal(self) -> Option<Refusal>
        ensures { option_map refusal_of result ≡ statistics_refusal self }
    {
        match self {
            StatisticsFault::List(fault) => fault.refusal(),
            StatisticsFault::NoIndex => Some(Refusal::NotFound),
            StatisticsFault::Texts => Some(Refusal::MixedKinds),
            StatisticsFault::Keys
            | StatisticsFault::Pages
            | StatisticsFault::Unfit { .. }
            | StatisticsFault::Falls => Some(Refusal::OverLimit),
        }
    }
}

/// A row that a key was in before.
#[derive(Clone, Copy, Debug, PartialEq, Eq)]
pub enum EarlierRow {
    /// A row of the table as it was, by its number from 1.
    Stored(u64),
    /// A record of the same file, by its number from 1.
    Loaded(u64),
}

/// The first record of a file that is no row, as its key in an index comes again.
#[derive(Clone, Copy, Debug, PartialEq, Eq)]
pub struct RepeatedRecord {
    /// The number of the index, from 0.
    pub index: usize,
    pub earlier: EarlierRow,
    /// Its number among the records, from 1.
    pub number: u64,
    /// The byte of the file behind the record before it.
    pub start: u64,
    /// The line of that byte, from 1.
    pub line: u64,
}

/// Why a file is not loaded; none of its rows is in the table then.
#[derive(Clone, Copy, Debug, PartialEq, Eq, Error)]
pub enum LoadFault {
    #[error("there is no such table")]
    NoTable,
    #[error("a record is no row of the table")]
    Record(RefusedRecord),
    #[error("the key of a record comes again")]
    Repeated(RepeatedRecord),
    #[error("there are too many rows")]
    ManyRows,
    #[error("out of memory")]
    Memory,
}
