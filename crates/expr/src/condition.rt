//! The truth value of a bound condition.

ghost use Rattle.std.specs.Prelude.{[], ◌∷◌, map};
ghost use Rattle.std.specs.List.{AllByRecursion};
ghost use Rattle.definitions.specs.Arithmetic.{Meaning};
ghost use Rattle.definitions.specs.Statement.{Equals, GreaterOrEquals, LessOrEquals};
ghost use Rattle.definitions.specs.Truth as is;
ghost use Rattle.definitions.specs.Truth.{and};
ghost use Rattle.definitions.specs.Value as spec;
ghost use Rattle.definitions.specs.Queries.Conjuncts.{member_values, values_of};
ghost use Rattle.definitions.specs.Queries.Evaluation as meaning;
ghost use Rattle.definitions.specs.Queries.Laws.{FitsTypes};
ghost use Rattle.definitions.specs.Queries.Telling.{MayAnswer};
ghost use Rattle.sqlvalue.specs.Meaning.{op_of};
ghost use Rattle.parse_tree.specs.Trees.{quantifier_of};
ghost use Rattle.query_tree.specs.Bound.{condition_of, member_of};
ghost use Rattle.expr.specs.Answers.{answer_of, truth_answer_of, IsTyped};

use crate::environments::Environment;
use crate::evaluation::value;
use crate::predicate::{
    both, comparison, either, fits, has_row, is_null, opposite, quantified_comparison, unless,
};
use crate::short::compared_in_short;
use query_tree::{Condition, Quantifier, ValueExpr};
use sqlvalue::{ComparisonOperator, Raise, Tri, Value};

/// The truth value of a condition, or what it raises first in text order: all parts are evaluated (own; ISO/IEC 9075:1992,
/// 8.1 to 8.12). Takes no memory.
pub fn truth<'a, S: Environment>(condition: &'a Condition, env: &'a S) -> Result<Tri, Raise>
    requires fits { AllByRecursion (FitsTypes (S.environment env.now)) (values_of (condition_of condition.now)) }
    requires typed { AllByRecursion IsTyped (values_of (condition_of condition.now)) }
    ensures { MayAnswer (meaning.truth (S.environment env.now) (condition_of condition.now)) (truth_answer_of result) }
{
    match condition {
        Condition::Compare { op, left, right } => match compared_in_short(*op, left, right, env) {
            Some(truth) => Ok(truth),
            None => comparison(*op, value(left, env), value(right, env)),
        },
        Condition::Quantified {
            op,
            quantifier,
            value: operand,
            block,
        } => compared_with_rows(*op, *quantifier, value(operand, env), *block, env),
        Condition::IsNull {
            negated,
            value: operand,
        } => is_null(*negated, value(operand, env)),
        Condition::Between {
            negated,
            value: operand,
            low,
            high,
        } => unless(
            *negated,
            between(value(operand, env), value(low, env), value(high, env)),
        ),
        Condition::Like {
            negated,
            value: operand,
            pattern,
        } => unless(*negated, fits(value(operand, env), pattern.as_str())),
        Condition::InList {
            negated,
            value: operand,
            members,
        } => unless(*negated, is_member(value(operand, env), members, env)),
        Condition::InQuery {
            negated,
            value: operand,
            block,
        } => unless(
            *negated,
            compared_with_rows(
                ComparisonOperator::Equals,
                Quantifier::Any,
                value(operand, env),
                *block,
                env,
            ),
        ),
        Condition::Exists { block } => has_row(env.first_values(*block)),
        Condition::Not(operand) => opposite(truth(operand, env)),
        Condition::And(parts) => {
            let mut all = Ok(Tri::True);
            for part in parts {
                all = both(all, truth(part, env));
            }
            all
        }
        Condition::Or(parts) => {
            let mut any = Ok(Tri::False);
            for part in parts {
                any = either(any, truth(part, env));
            }
            any
        }
    }
}

/// Whether a value lies from one to another, both included (ISO/IEC 9075:1992, 8.3).
fn between(
    operand: Result<Value, Raise>,
    low: Result<Value, Raise>,
    high: Result<Value, Raise>,
) -> Result<Tri, Raise>
    ensures { (m l h : Meaning spec.Value) → MayAnswer m (answer_of operand.entry) →
        MayAnswer l (answer_of low.entry) → MayAnswer h (answer_of high.entry) →
        MayAnswer (meaning.on_two and (meaning.on_two (is.compared GreaterOrEquals) m l)
        (meaning.on_two (is.compared LessOrEquals) m h)) (truth_answer_of result) }
{
    both(
        comparison(ComparisonOperator::GreaterOrEquals, operand, low),
        comparison(ComparisonOperator::LessOrEquals, operand, high),
    )
}

/// Whether a value is equal to a member of a list (ISO/IEC 9075:1992, 8.4).
fn is_member<'a, S: Environment>(
    operand: Result<Value<'a>, Raise>,
    members: &'a [Option<ValueExpr>],
    env: &'a S,
) -> Result<Tri, Raise>
    requires fits { AllByRecursion (FitsTypes (S.environment env.now)) (member_values (map member_of members.now)) }
    requires typed { AllByRecursion IsTyped (member_values (map member_of members.now)) }
    ensures { (m : Meaning spec.Value) → MayAnswer m (answer_of operand.entry) →
        MayAnswer (meaning.on_two (is.compared_with_any Equals) m
        (meaning.in_order (map (meaning.member (S.environment env.now)) (map member_of members.now))))
        (truth_answer_of result) }
{
    let mut any = nowhere(operand);
    for member in members {
        any = either(
            any,
            comparison(
                ComparisonOperator::Equals,
                operand,
                member_value(member, env),
            ),
        );
    }
    any
}

/// A value compared with all or any of the rows of an inner block, by their first values (ISO/IEC 9075:1992, 8.7). IN is = ANY (8.4).
fn compared_with_rows<S: Environment>(
    op: ComparisonOperator,
    quantifier: Quantifier,
    operand: Result<Value, Raise>,
    block: usize,
    env: &S,
) -> Result<Tri, Raise>
    ensures { (m : Meaning spec.Value) → MayAnswer m (answer_of operand.entry) →
        MayAnswer (meaning.on_two (meaning.quantified (quantifier_of quantifier) (op_of op)) m
        (meaning.on_one meaning.column_values ((S.environment env.now).inner block))) (truth_answer_of result) }
{
    if let Ok(value) = operand {
        if let Some(truth) = env.quantified_comparison(op, quantifier, &value, block) {
            return Ok(truth);
        }
    }
    quantified_comparison(op, quantifier, operand, env.first_values(block))
}

/// That a value is equal to no member yet.
fn nowhere(operand: Result<Value, Raise>) -> Result<Tri, Raise>
    ensures { (m : Meaning spec.Value) → MayAnswer m (answer_of operand.entry) →
        MayAnswer (meaning.on_one (λ v. is.False) m) (truth_answer_of result) }
{
    match operand {
        Ok(_) => Ok(Tri::False),
        Err(raise) => Err(raise),
    }
}

/// The value of a member of a list, which may be NULL (own).
fn member_value<'a, S: Environment>(
    member: &'a Option<ValueExpr>,
    env: &'a S,
) -> Result<Value<'a>, Raise>
    requires fits { AllByRecursion (FitsTypes (S.environment env.now)) (member_values (member_of member.now ∷ [])) }
    requires typed { AllByRecursion IsTyped (member_values (member_of member.now ∷ [])) }
    ensures { MayAnswer (meaning.member (S.environment env.now) (member_of member.now)) (answer_of result) }
{
    match member {
        Some(expr) => value(expr, env),
        None => Ok(Value::Null),
    }
}
