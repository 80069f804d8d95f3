//! Trees of expressions and of query blocks, with the places of what is written.

ghost use Rattle.std.specs.Prelude.{◌<◌, length};

use crate::leaf::{
    ColumnReference, LineOperator, Name, Numeral, Quantifier, SetFunction, StringLiteral,
};
use sqlvalue::ComparisonOperator;

/// A value or a condition; the binder tells them apart (ISO/IEC 9075:1992, 6.11 and 8.12). What stands
/// in parentheses is the same tree without them.
#[cycle(tree)]
#[derive(Drop)]
pub enum Expr {
    Column(ColumnReference),
    Numeral(Numeral),
    String(StringLiteral),
    /// An operand under a sign: minus, or else plus.
    Signed {
        start: usize,
        minus: bool,
        operand: Box<Expr>,
    },
    /// Operands of one line, as `a + b - c` or `a AND b AND c`, from the left; at least two.
    Line {
        first: Box<Expr>,
        others: Vec<Operand>,
    },
    Not {
        start: usize,
        operand: Box<Expr>,
    },
    Compare {
        start: usize,
        op: ComparisonOperator,
        left: Box<Expr>,
        right: Box<Expr>,
    },
    /// `left op ALL (query)`.
    CompareAll {
        start: usize,
        op: ComparisonOperator,
        quantifier: Quantifier,
        left: Box<Expr>,
        query: Box<Block>,
    },
    IsNull {
        start: usize,
        negated: bool,
        value: Box<Expr>,
    },
    Between {
        start: usize,
        negated: bool,
        value: Box<Expr>,
        low: Box<Expr>,
        high: Box<Expr>,
    },
    Like {
        start: usize,
        negated: bool,
        value: Box<Expr>,
        pattern: StringLiteral,
    },
    /// `value IN (members)`; a member that is none is NULL.
    InList {
        start: usize,
        negated: bool,
        value: Box<Expr>,
        members: Vec<Option<Expr>>,
    },
    InQuery {
        start: usize,
        negated: bool,
        value: Box<Expr>,
        query: Box<Block>,
    },
    Exists {
        start: usize,
        query: Box<Block>,
    },
    /// A subquery as a value.
    Scalar {
        start: usize,
        query: Box<Block>,
    },
    /// `COUNT(*)`.
    CountRows {
        start: usize,
    },
    Function {
        start: usize,
        function: SetFunction,
        distinct: bool,
        argument: Box<Expr>,
    },
}

/// An operand behind the first of a line, and the operator before it.
#[cycle(tree)]
#[derive(Drop)]
pub struct Operand {
    pub operator: LineOperator,
    pub start: usize,
    pub value: Expr,
}

/// An item of a select list, with its AS name if it has one (ISO/IEC 9075:1992, 7.9).
#[cycle(tree)]
#[derive(Drop)]
pub struct Item {
    pub value: Expr,
    pub alias: Option<Name>,
}

/// A select list (ISO/IEC 9075:1992, 7.9).
#[cycle(tree)]
#[derive(Drop)]
pub enum SelectList {
    Asterisk { start: usize },
    Items(Vec<Item>),
}

/// A table of FROM, with its correlation name if it has one (ISO/IEC 9075:1992, 6.3).
#[derive(Drop)]
pub struct Source {
    pub table: Name,
    pub correlation: Option<Name>,
}

/// The tables of FROM, one at least (ISO/IEC 9075:1992, 7.4).
#[derive(Drop)]
pub struct Sources {
    pub tables: Vec<Source>,
    pub ghost some: { 0 < length tables.items },
}

/// A query block; `start` is that of its word SELECT (ISO/IEC 9075:1992, 7.9).
#[cycle(tree)]
#[derive(Drop)]
pub struct Block {
    pub start: usize,
    pub distinct: bool,
    pub list: SelectList,
    pub sources: Sources,
    pub condition: Option<Expr>,
    pub groups: Vec<ColumnReference>,
    pub having: Option<Expr>,
}
