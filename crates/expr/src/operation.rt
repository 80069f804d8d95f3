//! Operations on what operands give.

ghost use Rattle.std.specs.Prelude.{◌≡◌, List};
ghost use Rattle.definitions.specs.Arithmetic.{Meaning};
ghost use Rattle.definitions.specs.Table.{Row};
ghost use Rattle.definitions.specs.Value as spec;
ghost use Rattle.definitions.specs.Queries.Evaluation as meaning;
ghost use Rattle.definitions.specs.Queries.Telling.{MayAnswer};
ghost use Rattle.sqlvalue.specs.Meaning.{number_of, value_of};
ghost use Rattle.sqlvalue.specs.Raises.{meaning_of};
ghost use Rattle.sqlvalue.specs.declared.value.Value.TheVariants as v;
ghost use Rattle.query_tree.specs.Bound.{operator_of};
ghost use Rattle.expr.specs.Answers.{answer_of, values_answer_of, FitsOperator, FitsBoth};

use query_tree::Operator;
use sqlvalue::{Exception, Num, OwnedValue, Raise, Value, add, div, mul, sub};

/// A value under a sign: minus, or else plus (ISO/IEC 9075:1992, 6.12).
pub(crate) fn apply_sign<'a>(
    minus: bool,
    operand: Result<Value<'a>, Raise>,
) -> Result<Value<'a>, Raise>
    ensures { (m : Meaning spec.Value) → MayAnswer m (answer_of operand.entry) →
        MayAnswer (meaning.on_one (meaning.signed minus) m) (answer_of result) }
{
    match operand {
        Ok(Value::Num(number)) if minus => Ok(Value::Num(number.negate())),
        other => other,
    }
}

/// Two operands with an operator between them: null where one is null (ISO/IEC 9075:1992, 6.12). Of two that raise, the
/// left one is told; where the operation itself raises, the operator's place is.
pub(crate) fn apply_operator<'a>(
    operator: Operator,
    place: usize,
    left: Result<Value<'a>, Raise>,
    right: Result<Value<'a>, Raise>,
) -> Result<Value<'a>, Raise>
    requires { FitsBoth (operator_of operator) (answer_of left) (answer_of right) }
    ensures { (m n : Meaning spec.Value) → MayAnswer m (answer_of left.entry) → MayAnswer n (answer_of right.entry) →
        MayAnswer (meaning.and_then_two (meaning.operation (operator_of operator)) m n) (answer_of result) }
{
    match (left, right) {
        (Ok(Value::Num(a)), Ok(Value::Num(b))) => match calculate(operator, a, b) {
            Ok(number) => Ok(Value::Num(number)),
            Err(exception) => Err(Raise { exception, place }),
        },
        (Ok(_), Ok(_)) => Ok(Value::Null),
        (Err(raise), _) | (Ok(_), Err(raise)) => Err(raise),
    }
}

fn calculate(operator: Operator, a: Num, b: Num) -> Result<Num, Exception>
    requires { FitsOperator (operator_of operator) (value_of (v.Num a)) (value_of (v.Num b)) }
    ensures { meaning_of result ≡ meaning.operation (operator_of operator) (number_of a) (number_of b) }
{
    match operator {
        Operator::Plus => add(a, b),
        Operator::Minus => sub(a, b),
        Operator::Times => mul(a, b),
        Operator::Over => div(a, b),
    }
}

/// A subquery at a place as a value, by the first values of its rows: null of no row, an exception of more than one
/// (ISO/IEC 9075:1992, 7.11).
pub(crate) fn only_value<'a>(
    rows: Result<&'a [OwnedValue], Raise>,
    place: usize,
) -> Result<Value<'a>, Raise>
    ensures { (m : Meaning (List Row)) → MayAnswer (meaning.on_one meaning.column_values m)
        (values_answer_of rows.entry) → MayAnswer (meaning.and_then meaning.only_value m) (answer_of result) }
{
    match rows {
        Ok([]) => Ok(Value::Null),
        Ok([own]) => Ok(own.value()),
        Ok(_) => Err(Raise {
            exception: Exception::Cardinality,
            place,
        }),
        Err(raise) => Err(raise),
    }
}
