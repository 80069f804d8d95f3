//! The value of a bound expression.

ghost use Rattle.std.specs.Prelude.{◌≡◌, Some};
ghost use Rattle.definitions.specs.ValueType.{ValueType};
ghost use Rattle.definitions.specs.Queries.BoundTypes.{value_type};
ghost use Rattle.definitions.specs.Queries.Evaluation as meaning;
ghost use Rattle.definitions.specs.Queries.Laws.{FitsTypes};
ghost use Rattle.definitions.specs.Queries.Telling.{MayAnswer};
ghost use Rattle.query_tree.specs.Bound.{value_of as tree_of};
ghost use Rattle.expr.specs.Answers.{answer_of};

use crate::environments::Environment;
use crate::operation::{apply_operator, apply_sign, only_value};
use query_tree::ValueExpr;
use sqlvalue::{Raise, Value};

/// The value of an expression, or what it raises first in text order (own; ISO/IEC 9075:1992, 6.11 and 6.12). Takes no memory.
/// A column, which most expressions are, is read where this is called.
pub fn value<'a, S: Environment>(expr: &'a ValueExpr, env: &'a S) -> Result<Value<'a>, Raise>
    requires fits { FitsTypes (S.environment env.now) (tree_of expr.now) }
    requires typed { (type : ValueType) × (value_type (tree_of expr.now) ≡ Some type) }
    ensures { MayAnswer (meaning.value (S.environment env.now) (tree_of expr.now)) (answer_of result) }
{
    match expr {
        ValueExpr::Column { column, .. } => Ok(env.cell(*column)),
        _ => evaluate(expr, env),
    }
}

/// The same, part by part.
fn evaluate<'a, S: Environment>(expr: &'a ValueExpr, env: &'a S) -> Result<Value<'a>, Raise>
    requires fits { FitsTypes (S.environment env.now) (tree_of expr.now) }
    requires typed { (type : ValueType) × (value_type (tree_of expr.now) ≡ Some type) }
    ensures { MayAnswer (meaning.value (S.environment env.now) (tree_of expr.now)) (answer_of result) }
{
    match expr {
        ValueExpr::Column { column, .. } => Ok(env.cell(*column)),
        ValueExpr::Parameter {
            between,
            column,
            ..
        } => Ok(env.parameter(*between, *column)),
        ValueExpr::Number(literal) => Ok(Value::Num(literal.number())),
        ValueExpr::Text(text) => Ok(Value::Text(text.as_str())),
        ValueExpr::Signed { minus, operand } => apply_sign(*minus, evaluate(operand, env)),
        ValueExpr::Chain { first, others } => {
            let mut left = evaluate(first, env);
            for operand in others {
                left = apply_operator(
                    operand.operator,
                    operand.start,
                    left,
                    evaluate(&operand.value, env),
                );
            }
            left
        }
        ValueExpr::AggregateValue { number, .. } => env.aggregate_value(*number),
        ValueExpr::Subquery { block, start, .. } => only_value(env.first_values(*block), *start),
    }
}
