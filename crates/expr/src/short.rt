//! Calculation with numbers whose units fit 64 bits: most do, and it takes a small part of the time.

ghost use Rattle.std.specs.Prelude.{◌≡◌, ◌^◌, ◌*ℤ◌, ℤ, pos, IfSome};
ghost use Rattle.definitions.specs.Arithmetic.{Is, judged};
ghost use Rattle.definitions.specs.Truth as truth;
ghost use Rattle.definitions.specs.Queries.BoundBlock as b;
ghost use Rattle.definitions.specs.Queries.Evaluation as meaning;
ghost use Rattle.sqlvalue.specs.Meaning.{number_of, op_of, value_of};
ghost use Rattle.sqlvalue.specs.Truths.{truth_of};
ghost use Rattle.query_tree.specs.Bound.{operator_of, value_of as tree_of};
ghost use Rattle.definitions.specs.Value.{Number};
ghost use Rattle.expr.specs.Shorts.{short_of, IsWhole};

use crate::environments::Environment;
use query_tree::{Operator, ValueExpr};
use sqlvalue::{ComparisonOperator, Num, Tri, Value};

/// A null, or a number of so many units at a scale.
#[derive(Clone, Copy)]
pub(crate) enum Short {
    Null,
    Number { units: i64, scale: u8 },
}

/// A comparison of two values that can be calculated in 64 bits (ISO/IEC 9075:1992, 8.2). None says nothing of them.
pub(crate) fn compared_in_short<'a, S: Environment>(
    op: ComparisonOperator,
    left: &'a ValueExpr,
    right: &'a ValueExpr,
    env: &'a S,
) -> Option<Tri>
    ensures { IfSome result (λ t. meaning.truth (S.environment env.now)
        (b.Compare (op_of op) (tree_of left.now) (tree_of right.now)) ≡ Is (truth_of t)) }
{
    shorts_compared(op, short_value(left, env)?, short_value(right, env)?)
}

/// The value of an expression that can be calculated in 64 bits: it is made of null and of numbers, of no quotient, and all
/// that is met on the way fits.
fn short_value<'a, S: Environment>(expr: &'a ValueExpr, env: &'a S) -> Option<Short>
    ensures { IfSome result (λ s. meaning.value (S.environment env.now) (tree_of expr.now) ≡ Is (short_of s)) }
{
    match expr {
        ValueExpr::Column { column, .. } => to_short(env.cell(*column)),
        ValueExpr::Number(literal) => short_number(literal.number()),
        ValueExpr::Signed { minus, operand } => under_sign(*minus, short_value(operand, env)?),
        ValueExpr::Chain { first, others } => {
            let mut left = short_value(first, env)?;
            for operand in others {
                left = apply_short(operand.operator, left, short_value(&operand.value, env)?)?;
            }
            Some(left)
        }
        _ => None,
    }
}

fn to_short(value: Value) -> Option<Short>
    ensures { IfSome result (λ s. short_of s ≡ value_of value.entry) }
{
    match value {
        Value::Num(number) => short_number(number),
        Value::Null => Some(Short::Null),
        Value::Text(_) => None,
    }
}

fn short_number(number: Num) -> Option<Short>
    ensures { IfSome result (λ s. short_of s ≡ number_of number) }
{
    match i64::try_from(number.units) {
        Ok(units) => Some(Short::Number {
            units,
            scale: number.scale,
        }),
        Err(_) => None,
    }
}

/// A value under a sign: minus, or else plus (ISO/IEC 9075:1992, 6.12).
fn under_sign(minus: bool, operand: Short) -> Option<Short>
    ensures { IfSome result (λ s. short_of s ≡ meaning.signed minus (short_of operand)) }
{
    match operand {
        Short::Number { units, scale } if minus => number(units.checked_neg(), scale),
        other => Some(other),
    }
}

/// The number of so many units.
fn number(units: Option<i64>, scale: u8) -> Option<Short>
    ensures exact { (whole : ℤ) → IsWhole whole units → IfSome result (λ s. short_of s ≡ Number whole scale) }
    ensures judged { (whole : ℤ) → IsWhole whole units → IfSome result (λ s. judged whole scale ≡ Is (short_of s)) }
{
    match units {
        Some(units) => Some(Short::Number { units, scale }),
        None => None,
    }
}

/// Two operands with an operator between them: null where one is null (ISO/IEC 9075:1992, 6.12).
fn apply_short(operator: Operator, left: Short, right: Short) -> Option<Short>
    ensures { IfSome result (λ s. meaning.operation (operator_of operator) (short_of left) (short_of right)
        ≡ Is (short_of s)) }
{
    match (left, right) {
        (Short::Number { units: a, scale: m }, Short::Number { units: b, scale: n }) =>
            match operator {
                Operator::Plus if m == n => number(a.checked_add(b), m),
                Operator::Minus if m == n => number(a.checked_sub(b), m),
                Operator::Times => number(a.checked_mul(b), m.checked_add(n)?),
                _ => None,
            },
        _ => Some(Short::Null),
    }
}

/// A comparison; none where it would take more than 64 bits.
fn shorts_compared(op: ComparisonOperator, left: Short, right: Short) -> Option<Tri>
    ensures { IfSome result (λ t. truth_of t ≡ truth.compared (op_of op) (short_of left) (short_of right)) }
{
    match (left, right) {
        (Short::Number { units: a, scale: m }, Short::Number { units: b, scale: n }) => {
            let (a, b) = (
                at_scale(a, n.saturating_sub(m))?,
                at_scale(b, m.saturating_sub(n))?,
            );
            Some(Tri::from(op.agrees(a.cmp(&b))))
        }
        _ => Some(Tri::Unknown),
    }
}

/// Units at a scale that is so many digits greater.
fn at_scale(units: i64, digits: u8) -> Option<i64>
    ensures { IfSome result (λ u. u ≡ units *ℤ pos (10 ^ digits)) }
{
    if digits == 0 {
        return Some(units);
    }
    units.checked_mul(10i64.checked_pow(u32::from(digits))?)
}
