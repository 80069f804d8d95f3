//! Conditions on many rows at a time: those rows on which a condition is true, or on which NOT makes it true. A word tells of them, whose bit i
//! is that of the row `first + i`.

ghost use Rattle.std.specs.Prelude.{◌≡◌, ◌≤◌, ◌+◌, ◌^◌, IfSome, map};
ghost use Rattle.std.specs.List.{range_with_len};
ghost use Rattle.definitions.specs.Arithmetic.{Is};
ghost use Rattle.definitions.specs.Scanning.{word_of};
ghost use Rattle.definitions.specs.Truth.{Truth, compared, is_true, unless};
ghost use Rattle.definitions.specs.Value as spec;
ghost use Rattle.definitions.specs.Queries.BoundBlock as tree;
ghost use Rattle.definitions.specs.Queries.Combinations.{is_surely_true};
ghost use Rattle.definitions.specs.Queries.Evaluation as meaning;
ghost use Rattle.sqlvalue.specs.Meaning.{op_of, value_of};
ghost use Rattle.query_tree.specs.Bound.{condition_of, member_of, value_of as tree_of};
ghost use Rattle.expr.specs.RowTruths.{common_or_either, of_parts, truth_by, AreTrueRows};

use crate::many_rows::ManyRows;
use crate::vectors::{between_rows, compared_rows};
use query_tree::{Condition, ValueExpr};
use sqlvalue::{ComparisonOperator, LikePattern, Value};

/// How many levels of NOT, AND and OR a condition may have that is told on many rows: each takes some of the stack (own).
const MOST_LEVELS: u8 = 8;

/// A test of one value: IS NULL, or LIKE with a pattern (ISO/IEC 9075:1992, 8.5 and 8.6).
#[derive(Clone, Copy)]
pub(crate) enum ValueTest<'p> {
    IsNull,
    Like(LikePattern<'p>),
}

/// Of so many rows from `first` on, those on which a condition is true, where that is found for all of them together: it is made by NOT, AND
/// and OR of IS NULL and LIKE of columns and parameters, and of what compares these, texts and numbers in comparisons, BETWEEN and lists, numbers
/// also by signs, sums, differences and products, where all that is met fits 64 bits (ISO/IEC 9075:1992, 8.2 to 8.6, 8.12 and 6.12). Bit i of
/// the word is that of the row `first + i`. None says nothing.
pub fn true_rows<S: ManyRows>(
    condition: &Condition,
    rows: &S,
    first: usize,
    count: usize,
) -> Option<u64>
    requires few { count ≤ 64 }
    requires small { first + count ≤ 2 ^ 32 }
    ensures { IfSome result (λ word. word ≡ word_of (map (λ row. is_surely_true
        (meaning.truth (S.environment rows.now row) (condition_of condition.now))) (range_with_len first count))) }
{
    told_rows(condition, false, rows, first, count, MOST_LEVELS)
}

/// Those on which a condition is true, behind NOT where it is negated (ISO/IEC 9075:1992, 8.12).
#[cycle(row_truths)]
fn told_rows<S: ManyRows>(
    condition: &Condition,
    negated: bool,
    rows: &S,
    first: usize,
    count: usize,
    levels: u8,
) -> Option<u64>
    requires few { count ≤ 64 }
    requires small { first + count ≤ 2 ^ 32 }
    ensures { IfSome result (AreTrueRows (λ row. meaning.on_one (unless negated)
        (meaning.truth (S.environment rows.now row) (condition_of condition.now))) first count) }
{
    let below = levels.checked_sub(1)?;
    match condition {
        Condition::Not(operand) => {
            let both = both_nots(negated, true);
            told_rows(operand, both, rows, first, count, below)
        }
        Condition::And(parts) => {
            joined_rows(!negated, parts, negated, rows, first, count, below)
        }
        Condition::Or(parts) => joined_rows(negated, parts, negated, rows, first, count, below),
        predicate => predicate_rows(predicate, negated, rows, first, count),
    }
}

/// Those on which all of some conditions are true, or else any, each behind NOT where they are negated (ISO/IEC 9075:1992, 8.12).
#[cycle(row_truths)]
fn joined_rows<S: ManyRows>(
    all: bool,
    parts: &[Condition],
    negated: bool,
    rows: &S,
    first: usize,
    count: usize,
    levels: u8,
) -> Option<u64>
    requires few { count ≤ 64 }
    requires small { first + count ≤ 2 ^ 32 }
    ensures { IfSome result (AreTrueRows (λ row. meaning.on_one (of_parts all) (meaning.in_order
        (map (λ part. meaning.on_one (unless negated) (meaning.truth (S.environment rows.now row) (condition_of part)))
        parts.now))) first count) }
{
    let (part, others) = parts.split_first()?;
    let mut word = told_rows(part, negated, rows, first, count, levels)?;
    for part in others {
        let met = told_rows(part, negated, rows, first, count, levels)?;
        word = joined_words(all, word, met);
    }
    Some(word)
}

/// Those on which a predicate is true, behind NOT where it is negated.
fn predicate_rows<S: ManyRows>(
    predicate: &Condition,
    negated: bool,
    rows: &S,
    first: usize,
    count: usize,
) -> Option<u64>
    requires few { count ≤ 64 }
    requires small { first + count ≤ 2 ^ 32 }
    ensures { IfSome result (AreTrueRows (λ row. meaning.on_one (unless negated)
        (meaning.truth (S.environment rows.now row) (condition_of predicate.now))) first count) }
{
    match predicate {
        Condition::Compare { op, left, right } => {
            let op = operator_behind(negated, *op);
            comparison_rows(op, left, right, rows, first, count)
        }
        Condition::Between {
            negated: not,
            value,
            low,
            high,
        } => {
            let both = both_nots(negated, *not);
            between_rows(both, value, low, high, rows, first, count)
        }
        Condition::IsNull {
            negated: not,
            value,
        } => {
            let both = both_nots(negated, *not);
            tested_rows(ValueTest::IsNull, both, value, rows, first, count)
        }
        Condition::Like {
            negated: not,
            value,
            pattern,
        } => {
            let both = both_nots(negated, *not);
            let test = ValueTest::Like(LikePattern::new(pattern.as_str()));
            tested_rows(test, both, value, rows, first, count)
        }
        Condition::InList {
            negated: not,
            value,
            members,
        } => {
            let both = both_nots(negated, *not);
            member_rows(both, value, members, rows, first, count)
        }
        _ => None,
    }
}

/// Those on which a comparison is true (ISO/IEC 9075:1992, 8.2): of numbers by what is calculated of them, and else of values as they stand.
fn comparison_rows<S: ManyRows>(
    op: ComparisonOperator,
    left: &ValueExpr,
    right: &ValueExpr,
    rows: &S,
    first: usize,
    count: usize,
) -> Option<u64>
    requires few { count ≤ 64 }
    requires small { first + count ≤ 2 ^ 32 }
    ensures { IfSome result (AreTrueRows (λ row. meaning.truth (S.environment rows.now row)
        (tree.Compare (op_of op) (tree_of left.now) (tree_of right.now))) first count) }
{
    match compared_rows(op, left, right, rows, first, count) {
        Some(word) => Some(word),
        None => compared_cell_rows(op, left, right, rows, first, count),
    }
}

/// The same of columns, parameters and texts.
fn compared_cell_rows<S: ManyRows>(
    op: ComparisonOperator,
    left: &ValueExpr,
    right: &ValueExpr,
    rows: &S,
    first: usize,
    count: usize,
) -> Option<u64>
    requires few { count ≤ 64 }
    requires small { first + count ≤ 2 ^ 32 }
    ensures { IfSome result (AreTrueRows (λ row. meaning.truth (S.environment rows.now row)
        (tree.Compare (op_of op) (tree_of left.now) (tree_of right.now))) first count) }
{
    let mut word = 0;
    let mut place = count;
    while 0 < place {
        place -= 1;
        let a = cell_on(left, rows, first + place)?;
        let b = cell_on(right, rows, first + place)?;
        let is_met = op.compare(&a, &b).is_true();
        word = 2 * word + u64::from(is_met);
    }
    Some(word)
}

/// Those on which a value is equal to a member of a list, or else differs from all (ISO/IEC 9075:1992, 8.4).
fn member_rows<S: ManyRows>(
    negated: bool,
    value: &ValueExpr,
    members: &[Option<ValueExpr>],
    rows: &S,
    first: usize,
    count: usize,
) -> Option<u64>
    requires few { count ≤ 64 }
    requires small { first + count ≤ 2 ^ 32 }
    ensures { IfSome result (AreTrueRows (λ row. meaning.truth (S.environment rows.now row)
        (tree.InList negated (tree_of value.now) (map member_of members.now))) first count) }
{
    let op = operator_behind(negated, ComparisonOperator::Equals);
    let (member, others) = members.split_first()?;
    let mut word = compared_member_rows(op, value, member, rows, first, count)?;
    for member in others {
        let met = compared_member_rows(op, value, member, rows, first, count)?;
        word = joined_words(negated, word, met);
    }
    Some(word)
}

/// Those on which a comparison with a member of a list is true. Of NULL it says nothing.
fn compared_member_rows<S: ManyRows>(
    op: ComparisonOperator,
    value: &ValueExpr,
    member: &Option<ValueExpr>,
    rows: &S,
    first: usize,
    count: usize,
) -> Option<u64>
    requires few { count ≤ 64 }
    requires small { first + count ≤ 2 ^ 32 }
    ensures { IfSome result (AreTrueRows (λ row. meaning.on_two (compared (op_of op))
        (meaning.value (S.environment rows.now row) (tree_of value.now))
        (meaning.member (S.environment rows.now row) (member_of member.now))) first count) }
{
    match member {
        Some(member) => comparison_rows(op, value, member, rows, first, count),
        None => None,
    }
}

/// The rows that two words have in common, or else those of either.
fn joined_words(all: bool, left: u64, right: u64) -> u64
    ensures { result ≡ common_or_either all left right }
{
    if all { left & right } else { left | right }
}

/// The operator of a comparison that stands behind NOT where it is negated (ISO/IEC 9075:1992, 8.2 and 8.12).
fn operator_behind(negated: bool, op: ComparisonOperator) -> ComparisonOperator
    ensures { (a b : spec.Value) → compared (op_of result) a b ≡ unless negated (compared (op_of op) a b) }
{
    if negated { op.negated() } else { op }
}

/// Whether one NOT is left of two that may be there (ISO/IEC 9075:1992, 8.12).
fn both_nots(outer: bool, inner: bool) -> bool
    ensures { (truth : Truth) → unless result truth ≡ unless outer (unless inner truth) }
{
    if outer { !inner } else { inner }
}

/// Those on which a test of a column or a parameter is true, behind NOT where it is negated.
fn tested_rows<S: ManyRows>(
    test: ValueTest<'_>,
    negated: bool,
    value: &ValueExpr,
    rows: &S,
    first: usize,
    count: usize,
) -> Option<u64>
    requires few { count ≤ 64 }
    requires small { first + count ≤ 2 ^ 32 }
    ensures { IfSome result (AreTrueRows (λ row. meaning.on_one (λ cell. unless negated (truth_by test.entry cell))
        (meaning.value (S.environment rows.now row) (tree_of value.now))) first count) }
{
    let mut word = 0;
    let mut place = count;
    while 0 < place {
        place -= 1;
        let cell = cell_on(value, rows, first + place)?;
        let is_met = is_met_by(test, negated, cell);
        word = 2 * word + u64::from(is_met);
    }
    Some(word)
}

/// The value of a column or a parameter on a row, or a text.
fn cell_on<'r, S: ManyRows>(value: &'r ValueExpr, rows: &'r S, row: usize) -> Option<Value<'r>>
    ensures { IfSome result (λ cell. meaning.value (S.environment rows.now row) (tree_of value.now)
        ≡ Is (value_of cell)) }
{
    match value {
        ValueExpr::Column { column, .. } => Some(rows.cell(row, *column)),
        ValueExpr::Parameter {
            between,
            column,
            ..
        } => Some(rows.parameter(*between, *column)),
        ValueExpr::Text(text) => Some(Value::Text(text.as_str())),
        _ => None,
    }
}

/// Whether a test of a value is true, behind NOT where it is negated.
fn is_met_by(test: ValueTest<'_>, negated: bool, value: Value<'_>) -> bool
    ensures { result ≡ is_true (unless negated (truth_by test.entry (value_of value.entry))) }
{
    match (test, value) {
        (ValueTest::IsNull, Value::Null) => !negated,
        (ValueTest::IsNull, _) => negated,
        (ValueTest::Like(pattern), Value::Text(text)) => pattern.fits(text) != negated,
        (ValueTest::Like(_), _) => false,
    }
}
