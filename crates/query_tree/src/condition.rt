//! Bound conditions.

use crate::value::ValueExpr;
use parse_tree::Quantifier;
use sqlvalue::ComparisonOperator;

/// A condition (ISO/IEC 9075:1992, 8.1 to 8.12). Inner blocks go by number.
#[derive(Drop)]
pub enum Condition {
    Compare {
        op: ComparisonOperator,
        left: ValueExpr,
        right: ValueExpr,
    },
    /// `value op ALL (query)`.
    Quantified {
        op: ComparisonOperator,
        quantifier: Quantifier,
        value: ValueExpr,
        block: usize,
    },
    IsNull {
        negated: bool,
        value: ValueExpr,
    },
    Between {
        negated: bool,
        value: ValueExpr,
        low: ValueExpr,
        high: ValueExpr,
    },
    Like {
        negated: bool,
        value: ValueExpr,
        pattern: String,
    },
    /// `value IN (members)`; a member that is none is NULL.
    InList {
        negated: bool,
        value: ValueExpr,
        members: Vec<Option<ValueExpr>>,
    },
    InQuery {
        negated: bool,
        value: ValueExpr,
        block: usize,
    },
    Exists {
        block: usize,
    },
    Not(Box<Condition>),
    And(Vec<Condition>),
    Or(Vec<Condition>),
}
