//! Bound value expressions, each with its type.

use crate::leaf::{BlockColumn, NumberLiteral, Operator, ValueType};
use sqlvalue::SqlType;

/// A value. Each leaf that stands for values of elsewhere has their type (ISO/IEC 9075:1992, 6.2 to 6.5, 6.11, 6.12).
#[cycle(value)]
#[derive(Drop)]
pub enum ValueExpr {
    /// A column of one of the block's own tables.
    Column {
        column: BlockColumn,
        sql_type: SqlType,
    },
    /// A column of a block around this one; `between` says how many blocks lie between.
    Parameter {
        between: usize,
        column: BlockColumn,
        sql_type: SqlType,
    },
    Number(NumberLiteral),
    Text(String),
    /// An operand under a sign: minus, or else plus.
    Signed {
        minus: bool,
        operand: Box<ValueExpr>,
    },
    /// Operands of one line, as `a + b - c`, from the left.
    Chain {
        first: Box<ValueExpr>,
        others: Vec<Operand>,
    },
    /// The value of a set function of the block, by its number there.
    AggregateValue {
        number: usize,
        value_type: ValueType,
    },
    /// A subquery as a value, by its block's number; `start` is where it stands in the script.
    Subquery {
        block: usize,
        value_type: ValueType,
        start: usize,
    },
}

/// An operand behind the first of a line, and the operator before it, which stands at `start` in the script.
#[cycle(value)]
#[derive(Drop)]
pub struct Operand {
    pub operator: Operator,
    pub start: usize,
    pub value: ValueExpr,
}
