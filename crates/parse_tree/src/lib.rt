//! Statements as trees, which keep where each name, literal and operator stands: `start` is the offset of its
//! first byte in the script.
#![tactic(auto)]

mod expr;
mod leaf;
mod list;
mod statement;

pub use expr::{Block, Expr, Item, Operand, SelectList, Source, Sources};
pub use leaf::{
    ColumnReference, Count, LineOperator, Name, Numeral, Quantifier, SetFunction, StringLiteral,
};
pub use list::{
    ListKind, ListPlace, LongList, MAX_COLUMNS, MAX_FROM_TABLES, MAX_GROUP_COLUMNS,
    MAX_INDEX_COLUMNS, MAX_ITEMS, MAX_KEYS, MAX_MEMBERS,
};
pub use sqlvalue::ComparisonOperator;
pub use statement::{
    Bound, ColumnDefinition, Constraint, IndexStatistics, Key, KeyName, Range, Select, Statement,
};
