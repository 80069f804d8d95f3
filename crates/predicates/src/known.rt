//! Values that are known before any row is read.

ghost use Rattle.std.specs.Prelude.{◌≡◌, IfSome, option_map};
ghost use Rattle.definitions.specs.Arithmetic.{Is};
ghost use Rattle.definitions.specs.Estimates.Sides.{side_of};
ghost use Rattle.definitions.specs.Queries.Evaluation as meaning;
ghost use Rattle.query_tree.specs.Bound.{value_of as tree_of};
ghost use Rattle.sqlvalue.specs.Meaning.{number_of, value_of};
ghost use Rattle.predicates.specs.Known.{number_in};

use query_tree::ValueExpr;
use sqlvalue::{Num, Value};

/// The value of a literal, whatever is evaluated: of a number with signs before it, or of a text; none of any other expression (ISO/IEC
/// 9075:1992, 5.3).
pub fn known_value(expr: &ValueExpr) -> Option<Value<'_>>
    ensures { IfSome result (λ v. (env : meaning.Environment) → meaning.value env (tree_of expr.now) ≡ Is (value_of v)) }
{
    match expr {
        ValueExpr::Text(text) => Some(Value::Text(text.as_str())),
        _ => Some(Value::Num(known_number(expr)?)),
    }
}

/// The number that a numeral is, with signs before it; none of any other expression (5.3).
pub fn known_number(expr: &ValueExpr) -> Option<Num>
    ensures number { option_map number_of result ≡ number_in (side_of (tree_of expr.now)) }
    ensures value { IfSome result (λ n. (env : meaning.Environment) →
        meaning.value env (tree_of expr.now) ≡ Is (number_of n)) }
{
    match expr {
        ValueExpr::Number(literal) => Some(literal.number()),
        ValueExpr::Signed { minus, operand } => {
            let number = known_number(operand)?;
            Some(if *minus { number.negate() } else { number })
        }
        _ => None,
    }
}
