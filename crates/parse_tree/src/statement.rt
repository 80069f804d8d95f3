//! Trees of statements.

use crate::expr::Block;
use crate::leaf::{Count, Name, Numeral, StringLiteral};
use sqlvalue::DeclaredType;

/// What a key of ORDER BY names: a result column, or the position of one.
#[derive(Drop)]
pub enum KeyName {
    Name(Name),
    Position(Count),
}

/// A key of ORDER BY (ISO/IEC 9075:1992, 13.1).
#[derive(Drop)]
pub struct Key {
    pub name: KeyName,
    pub descending: bool,
}

/// A query with its order (ISO/IEC 9075:1992, 13.1).
#[derive(Drop)]
pub struct Select {
    pub block: Block,
    pub order: Vec<Key>,
}

/// What is asked of the values of a column (ISO/IEC 9075:1992, 11.4 and 11.7).
#[derive(Clone, Copy, Debug, PartialEq, Eq)]
pub enum Constraint {
    Nullable,
    NotNull,
    Unique,
    PrimaryKey,
}

/// A column of CREATE TABLE (ISO/IEC 9075:1992, 11.4).
#[derive(Drop)]
pub struct ColumnDefinition {
    pub name: Name,
    pub declared: DeclaredType,
    pub constraint: Constraint,
}

/// A number under a sign or none, as LOW and HIGH have it.
#[derive(Clone, Copy)]
pub struct Bound {
    pub minus: bool,
    pub number: Numeral,
}

/// The least and the greatest key of an index.
#[derive(Clone, Copy)]
pub struct Range {
    pub low: Bound,
    pub high: Bound,
}

/// What SET STATISTICS says of an index.
#[derive(Clone, Copy)]
pub struct IndexStatistics {
    pub keys: Count,
    pub pages: Count,
    pub clustered: bool,
    pub range: Option<Range>,
}

/// A statement of a script, with the places of its names (ISO/IEC 9075:1992, 11 and 13; LOAD, EXPLAIN and SET STATISTICS are own).
#[derive(Drop)]
pub enum Statement {
    CreateTable {
        name: Name,
        columns: Vec<ColumnDefinition>,
    },
    CreateIndex {
        unique: bool,
        table: Name,
        columns: Vec<Name>,
    },
    Load {
        table: Name,
        file: StringLiteral,
    },
    SetTableStatistics {
        table: Name,
        rows: Count,
        pages: Count,
    },
    SetIndexStatistics {
        table: Name,
        columns: Vec<Name>,
        statistics: IndexStatistics,
    },
    Query(Select),
    Explain(Select),
}
