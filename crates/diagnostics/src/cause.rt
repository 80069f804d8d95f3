//! What stands behind a refusal.

use binder::QueryFault;
use catalog::{
    CreateFault, IndexFault, RefusedRecord, RepeatedRecord, StatisticsFault, TableStatisticsFault,
};
use lexer::LexFault;
use sqlvalue::Refusal;
use syntax::{ColumnDefinition, Count, IndexStatistics, Name, Select, StringLiteral, Unexpected};

/// A refusal and its cause.
#[derive(Drop)]
pub struct Refused<'a> {
    pub refusal: Refusal,
    pub cause: Cause<'a>,
}

/// Why a script, or one of its statements, is refused. Names and literals tell where they stand in the
/// script.
#[derive(Drop)]
pub enum Cause<'a> {
    /// The script has no tokens.
    Lexical(LexFault),
    /// Its tokens are no statements.
    Unexpected(Unexpected),
    /// More than 64 levels are open with the token at a byte of the script.
    TooDeep {
        offset: usize,
    },
    /// A table is not made.
    Create {
        name: &'a Name,
        columns: &'a [ColumnDefinition],
        fault: CreateFault,
    },
    /// An index is not made.
    Index {
        list: ColumnList<'a>,
        fault: IndexFault,
    },
    TableStatistics(TableStatisticsCause<'a>),
    Statistics(StatisticsCause<'a>),
    /// There is no table to load.
    NoTable(&'a Name),
    /// There is no file of a name to load into a table.
    NoFile {
        table: &'a Name,
        file: &'a StringLiteral,
    },
    /// A table would have too many rows.
    ManyRows(&'a Name),
    /// A record of a file is no row of a table.
    Record {
        load: FileLoad<'a>,
        record: RefusedRecord,
    },
    /// The key of a record comes again.
    Repeated {
        load: FileLoad<'a>,
        record: RepeatedRecord,
    },
    Query(QueryCause<'a>),
}

/// Columns of a table as a statement lists them.
#[derive(Clone, Copy)]
pub struct ColumnList<'a> {
    pub table: &'a Name,
    pub columns: &'a [Name],
}

/// Why the statistics of a table are not set.
#[derive(Clone, Copy)]
pub struct TableStatisticsCause<'a> {
    pub table: &'a Name,
    pub rows: Count,
    pub pages: Count,
    pub fault: TableStatisticsFault,
}

/// Why the statistics of an index are not set.
#[derive(Clone, Copy)]
pub struct StatisticsCause<'a> {
    pub list: ColumnList<'a>,
    pub statistics: &'a IndexStatistics,
    pub fault: StatisticsFault,
}

/// A LOAD, with the bytes of its file.
#[derive(Drop)]
pub struct FileLoad<'a> {
    pub table: &'a Name,
    pub file: &'a StringLiteral,
    pub bytes: Vec<u8>,
}

/// Why a query is refused.
#[derive(Clone, Copy)]
pub struct QueryCause<'a> {
    pub query: &'a Select,
    pub fault: QueryFault<'a>,
}
