//! Predicates on what operands give (ISO/IEC 9075:1992, 8.2 to 8.12). Of several operands that raise, the first one is told.

ghost use Rattle.std.specs.Prelude.{◌≡◌, List, [], map};
ghost use Rattle.definitions.specs.Arithmetic.{Meaning};
ghost use Rattle.definitions.specs.Pattern as patterns;
ghost use Rattle.definitions.specs.Table.{Row};
ghost use Rattle.definitions.specs.Truth as truth;
ghost use Rattle.definitions.specs.Value as spec;
ghost use Rattle.definitions.specs.Queries.Evaluation as meaning;
ghost use Rattle.definitions.specs.Queries.Telling.{MayAnswer};
ghost use Rattle.sqlvalue.specs.Meaning.{op_of, value_of};
ghost use Rattle.sqlvalue.specs.Owned.{owned_value};
ghost use Rattle.sqlvalue.specs.Truths.{truth_of};
ghost use Rattle.parse_tree.specs.Trees.{quantifier_of};
ghost use Rattle.expr.specs.Answers.{answer_of, truth_answer_of, values_answer_of};

use query_tree::Quantifier;
use sqlvalue::{ComparisonOperator, OwnedValue, Raise, Tri, Value, like};

/// A comparison (ISO/IEC 9075:1992, 8.2).
pub(crate) fn comparison(
    op: ComparisonOperator,
    left: Result<Value, Raise>,
    right: Result<Value, Raise>,
) -> Result<Tri, Raise>
    ensures { (m n : Meaning spec.Value) → MayAnswer m (answer_of left.entry) → MayAnswer n (answer_of right.entry) →
        MayAnswer (meaning.on_two (truth.compared (op_of op)) m n) (truth_answer_of result) }
{
    match (left, right) {
        (Ok(a), Ok(b)) => Ok(op.compare(&a, &b)),
        (Err(raise), _) | (Ok(_), Err(raise)) => Err(raise),
    }
}

/// IS NULL (ISO/IEC 9075:1992, 8.6).
pub(crate) fn is_null(negated: bool, operand: Result<Value, Raise>) -> Result<Tri, Raise>
    ensures { (m : Meaning spec.Value) → MayAnswer m (answer_of operand.entry) →
        MayAnswer (meaning.on_one (λ v. truth.unless negated (truth.known (spec.is_null v))) m)
        (truth_answer_of result) }
{
    match operand {
        Ok(Value::Null) => Ok(Tri::from(!negated)),
        Ok(_) => Ok(Tri::from(negated)),
        Err(raise) => Err(raise),
    }
}

/// LIKE (ISO/IEC 9075:1992, 8.5).
pub(crate) fn fits(operand: Result<Value, Raise>, pattern: &str) -> Result<Tri, Raise>
    ensures { (m : Meaning spec.Value) → MayAnswer m (answer_of operand.entry) →
        MayAnswer (meaning.on_one (patterns.like pattern.now) m) (truth_answer_of result) }
{
    match operand {
        Ok(Value::Text(text)) => Ok(Tri::from(like(text, pattern))),
        Ok(_) => Ok(Tri::Unknown),
        Err(raise) => Err(raise),
    }
}

/// A truth value behind NOT, where it is negated.
pub(crate) fn unless(negated: bool, operand: Result<Tri, Raise>) -> Result<Tri, Raise>
    ensures { (m : Meaning truth.Truth) → MayAnswer m (truth_answer_of operand) →
        MayAnswer (meaning.on_one (truth.unless negated) m) (truth_answer_of result) }
{
    match operand {
        Ok(truth) if negated => Ok(truth.not()),
        other => other,
    }
}

pub(crate) fn opposite(operand: Result<Tri, Raise>) -> Result<Tri, Raise>
    ensures { (m : Meaning truth.Truth) → MayAnswer m (truth_answer_of operand) →
        MayAnswer (meaning.on_one truth.opposite m) (truth_answer_of result) }
{
    match operand {
        Ok(truth) => Ok(truth.not()),
        Err(raise) => Err(raise),
    }
}

/// AND of two (ISO/IEC 9075:1992, 8.12).
pub(crate) fn both(left: Result<Tri, Raise>, right: Result<Tri, Raise>) -> Result<Tri, Raise>
    ensures { (m n : Meaning truth.Truth) → MayAnswer m (truth_answer_of left) → MayAnswer n (truth_answer_of right) →
        MayAnswer (meaning.on_two truth.and m n) (truth_answer_of result) }
{
    match (left, right) {
        (Ok(a), Ok(b)) => Ok(a.and(b)),
        (Err(raise), _) | (Ok(_), Err(raise)) => Err(raise),
    }
}

/// OR of two (ISO/IEC 9075:1992, 8.12).
pub(crate) fn either(left: Result<Tri, Raise>, right: Result<Tri, Raise>) -> Result<Tri, Raise>
    ensures { (m n : Meaning truth.Truth) → MayAnswer m (truth_answer_of left) → MayAnswer n (truth_answer_of right) →
        MayAnswer (meaning.on_two truth.or m n) (truth_answer_of result) }
{
    match (left, right) {
        (Ok(a), Ok(b)) => Ok(a.or(b)),
        (Err(raise), _) | (Ok(_), Err(raise)) => Err(raise),
    }
}

/// EXISTS (ISO/IEC 9075:1992, 8.8).
pub(crate) fn has_row(rows: Result<&[OwnedValue], Raise>) -> Result<Tri, Raise>
    ensures { (m : Meaning (List Row)) → MayAnswer (meaning.on_one meaning.column_values m)
        (values_answer_of rows.entry) → MayAnswer (meaning.on_one truth.has_row m) (truth_answer_of result) }
{
    match rows {
        Ok([]) => Ok(Tri::False),
        Ok(_) => Ok(Tri::True),
        Err(raise) => Err(raise),
    }
}

/// A value compared with all or any of the rows of a subquery, by their first values (ISO/IEC 9075:1992, 8.7).
pub(crate) fn quantified_comparison(
    op: ComparisonOperator,
    quantifier: Quantifier,
    operand: Result<Value, Raise>,
    rows: Result<&[OwnedValue], Raise>,
) -> Result<Tri, Raise>
    ensures { (m : Meaning spec.Value) (n : Meaning (List spec.Value)) → MayAnswer m (answer_of operand.entry) →
        MayAnswer n (values_answer_of rows.entry) → MayAnswer
        (meaning.on_two (meaning.quantified (quantifier_of quantifier) (op_of op)) m n) (truth_answer_of result) }
{
    match (operand, rows) {
        (Ok(value), Ok(values)) => Ok(match quantifier {
            Quantifier::All => with_all(op, value, values),
            Quantifier::Any => with_any(op, value, values),
        }),
        (Err(raise), _) | (Ok(_), Err(raise)) => Err(raise),
    }
}

fn with_all(op: ComparisonOperator, value: Value, values: &[OwnedValue]) -> Tri
    ensures { truth_of result ≡ truth.compared_with_all (op_of op) (value_of value.entry) (map owned_value values.now) }
{
    let mut all = Tri::True;
    for other in values {
        all = all.and(op.compare(&value, &other.value()));
    }
    all
}

fn with_any(op: ComparisonOperator, value: Value, values: &[OwnedValue]) -> Tri
    ensures { truth_of result ≡ truth.compared_with_any (op_of op) (value_of value.entry) (map owned_value values.now) }
{
    let mut any = Tri::False;
    for other in values {
        any = any.or(op.compare(&value, &other.value()));
    }
    any
}
