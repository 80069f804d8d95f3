//! What can raise, known before any row is read (own).

ghost use Rattle.std.specs.Prelude.{◌≡◌, option_map};
ghost use Rattle.definitions.specs.Queries.CanRaise as raising;
ghost use Rattle.sqlvalue.specs.Meaning.{type_of};
ghost use Rattle.query_tree.specs.Bound.{literal_of, operator_of, value_of as tree_of};
ghost use Rattle.expr.specs.Sizes.{capped, size_of, safe_joined, safe_size as safe_size_of};

use query_tree::{NumberLiteral, Operator, ValueExpr};
use sqlvalue::SqlType;

/// How many digits a number may have (own).
const MAX_DIGITS: u16 = 38;

/// How many digits the numbers of an expression have at most, and how many of them stand behind the point. A number over 255
/// stands as 255.
#[derive(Clone, Copy)]
pub(crate) struct Size {
    digits: u8,
    scale: u8,
}

/// Whether a value can raise: it holds a division, a subquery, a set function, or a part of more than 38 digits (own).
pub fn can_raise(expr: &ValueExpr) -> bool
    ensures { result ≡ raising.can_raise (tree_of expr.now) }
{
    safe_size(expr).is_none()
}

/// The size of a value that cannot raise.
fn safe_size(expr: &ValueExpr) -> Option<Size>
    ensures { option_map size_of result ≡ safe_size_of (tree_of expr.now) }
{
    match expr {
        ValueExpr::Column { sql_type, .. } | ValueExpr::Parameter { sql_type, .. } => {
            Some(type_size(*sql_type))
        }
        ValueExpr::Number(literal) => Some(literal_size(*literal)),
        ValueExpr::Text(_) => Some(Size {
            digits: 0,
            scale: 0,
        }),
        ValueExpr::Signed { operand, .. } => safe_size(operand),
        ValueExpr::Chain { first, others } => {
            let mut size = safe_size(first);
            for operand in others {
                size = joined_size(operand.operator, size, safe_size(&operand.value));
            }
            size
        }
        ValueExpr::AggregateValue { .. } | ValueExpr::Subquery { .. } => None,
    }
}

fn literal_size(literal: NumberLiteral) -> Size
    ensures { size_of result ≡ capped (raising.size (literal_of literal)) }
{
    Size {
        digits: literal.digits,
        scale: literal.scale,
    }
}

fn type_size(sql_type: SqlType) -> Size
    ensures { size_of result ≡ capped (raising.type_size (type_of sql_type)) }
{
    match sql_type {
        SqlType::Smallint => Size {
            digits: 5,
            scale: 0,
        },
        SqlType::Integer => Size {
            digits: 10,
            scale: 0,
        },
        SqlType::Numeric { precision, scale } => Size {
            digits: precision,
            scale,
        },
        SqlType::Char { .. } => Size {
            digits: 0,
            scale: 0,
        },
    }
}

/// The size of two operands with an operator between them, where that cannot raise.
fn joined_size(operator: Operator, left: Option<Size>, right: Option<Size>) -> Option<Size>
    ensures { option_map size_of result ≡ safe_joined (operator_of operator) (option_map size_of left)
        (option_map size_of right) }
{
    let (a, b) = (left?, right?);
    let (digits, scale) = match operator {
        Operator::Plus | Operator::Minus => (sum_digits(a, b), a.scale.max(b.scale)),
        Operator::Times => (
            a.digits as u16 + b.digits as u16,
            a.scale.saturating_add(b.scale),
        ),
        Operator::Over => return None,
    };
    if digits > MAX_DIGITS {
        return None;
    }
    Some(Size {
        digits: digits as u8,
        scale,
    })
}

/// A sum has as many digits before the point as the operand with more of them, and one for the carry.
fn sum_digits(a: Size, b: Size) -> u16
    ensures { result ≡ (raising.sum_size (size_of a) (size_of b)).digits }
{
    let whole = a
        .digits
        .saturating_sub(a.scale)
        .max(b.digits.saturating_sub(b.scale));
    whole as u16 + 1 + a.scale.max(b.scale) as u16
}
