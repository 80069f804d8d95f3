//! Bound query blocks: tables, conditions, groups and result columns by number.

use crate::condition::Condition;
use crate::leaf::BlockColumn;
use crate::value::ValueExpr;
use parse_tree::SetFunction;

/// `COUNT(*)`, or a set function of an argument's values, which stands at `start` in the script (ISO/IEC 9075:1992, 6.5).
#[derive(Drop)]
pub enum Aggregate {
    CountRows,
    OfValues {
        function: SetFunction,
        distinct: bool,
        start: usize,
        argument: ValueExpr,
    },
}

/// A result column: its name in the header and its value (ISO/IEC 9075:1992, 7.9).
#[derive(Drop)]
pub struct Item {
    pub name: String,
    pub value: ValueExpr,
}

/// A key of ORDER BY: the number of a result column, from 0 (ISO/IEC 9075:1992, 13.1).
#[derive(Clone, Copy, Debug, PartialEq, Eq)]
pub struct Key {
    pub item: usize,
    pub descending: bool,
}

/// A query block (ISO/IEC 9075:1992, 7.9, 7.4 to 7.8): its tables by their numbers in the database, and its set functions in
/// text order. Only the outermost block has an order.
#[derive(Drop)]
pub struct Block {
    pub tables: Vec<usize>,
    pub distinct: bool,
    pub items: Vec<Item>,
    pub condition: Option<Condition>,
    pub groups: Vec<BlockColumn>,
    pub having: Option<Condition>,
    pub functions: Vec<Aggregate>,
    pub order: Vec<Key>,
}
