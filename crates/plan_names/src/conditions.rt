//! Conditions as SQL has them.

use crate::names::BlockNames;
use crate::values::{Binding, Quoted, write_value};
use parse_tree::Quantifier;
use query_tree::{Condition, ValueExpr};
use sqlvalue::ComparisonOperator;
use std::fmt::{self, Display, Formatter};

/// A list of so many members is written whole.
const WHOLE_LIST: usize = 6;

/// Of a longer list so many members are written.
const FIRST_MEMBERS: usize = 4;

/// A condition of a block, as SQL has it.
#[derive(Clone, Copy)]
pub struct ConditionText<'n, 'a> {
    pub(crate) names: &'n BlockNames<'a>,
    pub(crate) condition: &'n Condition,
}

impl Display for ConditionText<'_, '_> {
    fn fmt<W: fmt::Write>(&self, f: &mut Formatter<W>) -> fmt::Result {
        write_condition(f, self.names, self.condition, Level::Or)
    }
}

/// How strongly the parts of a condition are bound, the weakest first (ISO/IEC 9075:1992, 8.12).
#[derive(Clone, Copy, PartialEq, Eq, PartialOrd, Ord)]
enum Level {
    Or,
    And,
    Not,
    Predicate,
}

fn level_of(condition: &Condition) -> Level {
    match condition {
        Condition::Or(_) => Level::Or,
        Condition::And(_) => Level::And,
        Condition::Not(_) => Level::Not,
        _ => Level::Predicate,
    }
}

fn connective(level: Level) -> &'static str {
    match level {
        Level::Or => " OR ",
        _ => " AND ",
    }
}

/// Writes a condition, in parentheses if it is bound more weakly than its place asks.
fn write_condition<'n, W: fmt::Write>(
    f: &mut Formatter<W>,
    names: &'n BlockNames<'_>,
    condition: &'n Condition,
    least: Level,
) -> fmt::Result {
    let (open, close) = if level_of(condition) < least {
        ("(", ")")
    } else {
        ("", "")
    };
    f.write_str(open)?;
    match condition {
        Condition::Or(parts) | Condition::And(parts) => {
            let level = level_of(condition);
            let mut is_first = true;
            for part in parts {
                if !is_first {
                    f.write_str(connective(level))?;
                }
                write_condition(f, names, part, level)?;
                is_first = false;
            }
        }
        Condition::Not(operand) => {
            f.write_str("NOT ")?;
            write_condition(f, names, operand, Level::Predicate)?;
        }
        predicate => write_predicate(f, names, predicate)?,
    }
    f.write_str(close)
}

/// A condition without AND, OR and NOT around it: what it is about, and then what it asks of that.
fn write_predicate<'n, W: fmt::Write>(
    f: &mut Formatter<W>,
    names: &'n BlockNames<'_>,
    predicate: &'n Condition,
) -> fmt::Result {
    match predicate {
        Condition::Compare { left: value, .. }
        | Condition::Quantified { value, .. }
        | Condition::IsNull { value, .. }
        | Condition::Between { value, .. }
        | Condition::Like { value, .. }
        | Condition::InList { value, .. }
        | Condition::InQuery { value, .. } => {
            write!(f, "{} ", names.value(value))?;
            write_asked(f, names, predicate)
        }
        Condition::Exists { block } => write!(f, "EXISTS (block {})", block.saturating_add(1)),
        Condition::Not(_) | Condition::And(_) | Condition::Or(_) => Ok(()),
    }
}

/// What a predicate asks of its first value: `= 3`, `IS NOT NULL`.
fn write_asked<'n, W: fmt::Write>(
    f: &mut Formatter<W>,
    names: &'n BlockNames<'_>,
    predicate: &'n Condition,
) -> fmt::Result {
    match predicate {
        Condition::Compare { op, right, .. } => {
            write!(f, "{} {}", symbol(*op), names.value(right))
        }
        Condition::IsNull { negated, .. } => {
            f.write_str(if *negated { "IS NOT NULL" } else { "IS NULL" })
        }
        Condition::Between {
            negated,
            low,
            high,
            ..
        } => {
            f.write_str(not(*negated))?;
            write!(f, "BETWEEN {} AND {}", names.value(low), names.value(high))
        }
        Condition::Like {
            negated,
            pattern,
            ..
        } => write!(f, "{}LIKE {}", not(*negated), Quoted(pattern.as_str())),
        Condition::InList {
            negated,
            members,
            ..
        } => {
            f.write_str(not(*negated))?;
            write_members(f, names, members)
        }
        of_block => write_asked_of_block(f, of_block),
    }
}

/// What a predicate asks of its first value and of an inner block: `IN (block 2)`.
fn write_asked_of_block<W: fmt::Write>(f: &mut Formatter<W>, predicate: &Condition) -> fmt::Result {
    match predicate {
        Condition::Quantified {
            op,
            quantifier,
            block,
            ..
        } => write!(
            f,
            "{} {} (block {})",
            symbol(*op),
            word_of(*quantifier),
            block.saturating_add(1)
        ),
        Condition::InQuery { negated, block, .. } => {
            write!(f, "{}IN (block {})", not(*negated), block.saturating_add(1))
        }
        _ => Ok(()),
    }
}

fn not(negated: bool) -> &'static str {
    if negated { "NOT " } else { "" }
}

fn word_of(quantifier: Quantifier) -> &'static str {
    match quantifier {
        Quantifier::All => "ALL",
        Quantifier::Any => "ANY",
    }
}

fn symbol(op: ComparisonOperator) -> &'static str {
    match op {
        ComparisonOperator::Equals => "=",
        ComparisonOperator::NotEquals => "<>",
        ComparisonOperator::LessThan => "<",
        ComparisonOperator::GreaterThan => ">",
        ComparisonOperator::LessOrEquals => "<=",
        ComparisonOperator::GreaterOrEquals => ">=",
    }
}

/// `IN (1, 2, 3, 4, .. 40 more)`.
fn write_members<'n, W: fmt::Write>(
    f: &mut Formatter<W>,
    names: &'n BlockNames<'_>,
    members: &'n [Option<ValueExpr>],
) -> fmt::Result {
    let shown = if members.len() <= WHOLE_LIST {
        members.len()
    } else {
        FIRST_MEMBERS
    };
    let mut separator = "IN (";
    for member in members.get(..shown).unwrap_or(&[]) {
        f.write_str(separator)?;
        write_member(f, names, member)?;
        separator = ", ";
    }
    match members.len().saturating_sub(shown) {
        0 => f.write_str(")"),
        more => write!(f, ", .. {more} more)"),
    }
}

fn write_member<'n, W: fmt::Write>(
    f: &mut Formatter<W>,
    names: &'n BlockNames<'_>,
    member: &'n Option<ValueExpr>,
) -> fmt::Result {
    match member {
        Some(value) => write_value(f, names, value, Binding::Sum),
        None => f.write_str("NULL"),
    }
}
