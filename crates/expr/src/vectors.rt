//! Comparisons of arithmetic on many rows at a time: of each part of an expression the values on all rows, before the next part. They are
//! numbers of one scale or null, kept as the units of each, or none, in an array that the caller lends.

ghost use Rattle.std.specs.Prelude.{◌≡◌, ◌≤◌, ◌<◌, ◌+◌, ◌^◌, ◌-◌, ◌*ℤ◌, ℕ, pos, true, map, IfSome};
ghost use Rattle.std.specs.List.{range_with_len};
ghost use Rattle.definitions.specs.Arithmetic.{Is};
ghost use Rattle.definitions.specs.Scanning.{word_of};
ghost use Rattle.definitions.specs.Truth.{compared, is_true};
ghost use Rattle.definitions.specs.Queries.BoundBlock as spec;
ghost use Rattle.definitions.specs.Queries.Evaluation as meaning;
ghost use Rattle.sqlvalue.specs.Meaning.{op_of, value_of};
ghost use Rattle.columns.specs.Starts.{value_in};
ghost use Rattle.query_tree.specs.Bound.{column_of, operator_of, value_of as tree_of};
ghost use Rattle.expr.specs.RowTruths.{AreTrueRows};
ghost use Rattle.expr.specs.Vectors.{of_units, value_at, AreValues, IsScaling};

use crate::many_rows::ManyRows;
use columns::NumberColumn;
use query_tree::{BlockColumn, Operator, ValueExpr};
use sqlvalue::{ComparisonOperator, SqlType, Value};

/// How many levels an expression may have that is calculated on many rows: each takes a thousand bytes of the stack and more (own).
const MOST_LEVELS: u8 = 8;

/// By what the units of two operands are multiplied for an operator, and the scale of what comes of it.
#[derive(Clone, Copy)]
pub(crate) struct Scaling {
    times_left: i64,
    times_right: i64,
    scale: u8,
}

/// Those on which a comparison is true (ISO/IEC 9075:1992, 8.2).
pub(crate) fn compared_rows<S: ManyRows>(
    op: ComparisonOperator,
    left: &ValueExpr,
    right: &ValueExpr,
    rows: &S,
    first: usize,
    count: usize,
) -> Option<u64>
    requires few { count ≤ 64 }
    requires small { first + count ≤ 2 ^ 32 }
    ensures { IfSome result (AreTrueRows (λ row. meaning.truth (S.environment rows.now row)
        (spec.Compare (op_of op) (tree_of left.now) (tree_of right.now))) first count) }
{
    let _scales = (scale_of(left, MOST_LEVELS)?, scale_of(right, MOST_LEVELS)?);
    let mut a = [None; 64];
    let m = write_values(left, rows, first, count, &mut a)?;
    let mut b = [None; 64];
    let n = write_values(right, rows, first, count, &mut b)?;
    met_rows(op, m, &a, n, &b, count)
}

/// Those on which a value lies from one to another, both included, or else doesn't (ISO/IEC 9075:1992, 8.3).
pub(crate) fn between_rows<S: ManyRows>(
    negated: bool,
    value: &ValueExpr,
    low: &ValueExpr,
    high: &ValueExpr,
    rows: &S,
    first: usize,
    count: usize,
) -> Option<u64>
    requires few { count ≤ 64 }
    requires small { first + count ≤ 2 ^ 32 }
    ensures { IfSome result (AreTrueRows (λ row. meaning.truth (S.environment rows.now row)
        (spec.Between negated (tree_of value.now) (tree_of low.now) (tree_of high.now))) first count) }
{
    let _scales = (
        scale_of(value, MOST_LEVELS)?,
        scale_of(low, MOST_LEVELS)?,
        scale_of(high, MOST_LEVELS)?,
    );
    let mut a = [None; 64];
    let k = write_values(value, rows, first, count, &mut a)?;
    let mut b = [None; 64];
    let m = write_values(low, rows, first, count, &mut b)?;
    let mut c = [None; 64];
    let n = write_values(high, rows, first, count, &mut c)?;
    if negated {
        let below = met_rows(ComparisonOperator::LessThan, k, &a, m, &b, count)?;
        let above = met_rows(ComparisonOperator::GreaterThan, k, &a, n, &c, count)?;
        return Some(below | above);
    }
    let from = met_rows(ComparisonOperator::GreaterOrEquals, k, &a, m, &b, count)?;
    let to = met_rows(ComparisonOperator::LessOrEquals, k, &a, n, &c, count)?;
    Some(from & to)
}

/// The scale of an expression's values, if it may be one that is calculated on many rows and has no more than so many levels (own).
fn scale_of(expr: &ValueExpr, levels: u8) -> Option<u8> {
    let below = levels.checked_sub(1)?;
    match expr {
        ValueExpr::Column { sql_type, .. } | ValueExpr::Parameter { sql_type, .. } => {
            column_scale(*sql_type)
        }
        ValueExpr::Number(literal) => Some(literal.scale),
        ValueExpr::Signed { operand, .. } => scale_of(operand, below),
        ValueExpr::Chain { first, others } => {
            let mut scale = scale_of(first, below)?;
            for operand in others {
                let right = scale_of(&operand.value, below)?;
                scale = scaling_of(operand.operator, scale, right)?.scale;
            }
            Some(scale)
        }
        _ => None,
    }
}

fn column_scale(sql_type: SqlType) -> Option<u8> {
    match sql_type {
        SqlType::Smallint | SqlType::Integer => Some(0),
        SqlType::Numeric { scale, .. } => Some(scale),
        SqlType::Char { .. } => None,
    }
}

/// Writes the values of an expression on so many rows from `first` on, and gives their scale. None says nothing.
fn write_values<S: ManyRows>(
    expr: &ValueExpr,
    rows: &S,
    first: usize,
    count: usize,
    units: &mut [Option<i64>; 64],
) -> Option<u8>
    requires few { count ≤ 64 }
    requires small { first + count ≤ 2 ^ 32 }
    ensures { IfSome result (AreValues (S.environment rows.now) (tree_of expr.now) first count units.new) }
{
    match expr {
        ValueExpr::Column { column, sql_type } => {
            write_column(*column, *sql_type, rows, first, count, units)
        }
        ValueExpr::Parameter {
            between,
            column,
            sql_type,
        } => {
            let scale = column_scale(*sql_type)?;
            write_same(rows.parameter(*between, *column), scale, units)
        }
        ValueExpr::Number(literal) => {
            write_same(Value::Num(literal.number()), literal.scale, units)
        }
        ValueExpr::Signed { minus, operand } => {
            let scale = write_values(operand, rows, first, count, units)?;
            put_under_sign(*minus, scale, count, units)
        }
        ValueExpr::Chain {
            first: operand,
            others,
        } => {
            let mut scale = write_values(operand, rows, first, count, units)?;
            for operand in others {
                let mut right = [None; 64];
                let n = write_values(&operand.value, rows, first, count, &mut right)?;
                scale = apply(operand.operator, scale, units, n, &right, count)?;
            }
            Some(scale)
        }
        _ => None,
    }
}

/// Writes the values in a column, if they are numbers of its type's scale or null.
fn write_column<S: ManyRows>(
    column: BlockColumn,
    sql_type: SqlType,
    rows: &S,
    first: usize,
    count: usize,
    units: &mut [Option<i64>; 64],
) -> Option<u8>
    requires few { count ≤ 64 }
    requires small { first + count ≤ 2 ^ 32 }
    ensures { IfSome result (λ scale. (place : ℕ) → place < count → value_at scale units.new place
        ≡ meaning.cell (S.environment rows.now (first + place)).combination (column_of column)) }
{
    match rows.numbers(column) {
        Some(numbers) => Some(write_numbers(numbers, first, count, units)),
        None => write_cells(column, sql_type, rows, first, count, units),
    }
}

/// Writes the numbers of a column that stand from one place on.
fn write_numbers(
    numbers: &NumberColumn,
    first: usize,
    count: usize,
    units: &mut [Option<i64>; 64],
) -> u8
    requires few { count ≤ 64 }
    requires small { first + count ≤ 2 ^ 32 }
    ensures { (place : ℕ) → place < count → value_at result units.new place ≡ value_in numbers.now (first + place) }
{
    for place in 0..count {
        units[place] = numbers.units_in(first + place);
    }
    numbers.scale()
}

/// Writes the values in a column, one after another.
fn write_cells<S: ManyRows>(
    column: BlockColumn,
    sql_type: SqlType,
    rows: &S,
    first: usize,
    count: usize,
    units: &mut [Option<i64>; 64],
) -> Option<u8>
    requires few { count ≤ 64 }
    requires small { first + count ≤ 2 ^ 32 }
    ensures { IfSome result (λ scale. (place : ℕ) → place < count → value_at scale units.new place
        ≡ meaning.cell (S.environment rows.now (first + place)).combination (column_of column)) }
{
    let scale = column_scale(sql_type)?;
    for place in 0..count {
        units[place] = units_of(rows.cell(first + place, column), scale)?;
    }
    Some(scale)
}

/// The units of a value that is null or a number of a scale.
fn units_of(value: Value, scale: u8) -> Option<Option<i64>>
    ensures { IfSome result (λ units. of_units scale units ≡ value_of value.entry) }
{
    match value {
        Value::Null => Some(None),
        Value::Num(number) if number.scale == scale => match i64::try_from(number.units) {
            Ok(units) => Some(Some(units)),
            Err(_) => None,
        },
        _ => None,
    }
}

/// Writes a value that is the same on all rows, if it is null or a number of a scale.
fn write_same(value: Value, scale: u8, units: &mut [Option<i64>; 64]) -> Option<u8>
    ensures { IfSome result (λ own. (place : ℕ) → place < 64 → value_at own units.new place ≡ value_of value.entry) }
{
    let same = units_of(value, scale)?;
    *units = [same; 64];
    Some(scale)
}

/// Puts values under a sign: minus, or else plus (ISO/IEC 9075:1992, 6.12).
fn put_under_sign(minus: bool, scale: u8, count: usize, units: &mut [Option<i64>; 64]) -> Option<u8>
    requires { count ≤ 64 }
    ensures { IfSome result (λ own. (place : ℕ) → place < count →
        value_at own units.new place ≡ meaning.signed minus (value_at scale units.old place)) }
{
    if !minus {
        return Some(scale);
    }
    for place in 0..count {
        units[place] = negative(units[place])?;
    }
    Some(scale)
}

fn negative(units: Option<i64>) -> Option<Option<i64>>
    ensures { (scale : ℕ) → IfSome result (λ u. of_units scale u ≡ meaning.signed true (of_units scale units)) }
{
    match units {
        Some(units) => Some(Some(units.checked_neg()?)),
        None => Some(None),
    }
}

/// Puts an operator and its right operands behind values, and gives the scale of what comes of it: null where one is null (ISO/IEC
/// 9075:1992, 6.12).
fn apply(
    operator: Operator,
    m: u8,
    left: &mut [Option<i64>; 64],
    n: u8,
    right: &[Option<i64>; 64],
    count: usize,
) -> Option<u8>
    requires { count ≤ 64 }
    ensures { IfSome result (λ scale. (place : ℕ) → place < count → meaning.operation (operator_of operator)
        (value_at m left.old place) (value_at n right.now place) ≡ Is (value_at scale left.new place)) }
{
    let scaling = scaling_of(operator, m, n)?;
    for place in 0..count {
        left[place] = applied_units(operator, scaling, left[place], right[place])?;
    }
    Some(scaling.scale)
}

/// To what operands' units are brought for an operator, and the scale of what it makes of them: that of a sum is the greater one, to which
/// both come, that of a product the sum of the scales (ISO/IEC 9075:1992, 6.12).
fn scaling_of(operator: Operator, left: u8, right: u8) -> Option<Scaling>
    ensures { IfSome result (IsScaling operator left right) }
{
    match operator {
        Operator::Plus | Operator::Minus => Some(Scaling {
            times_left: power(right.saturating_sub(left))?,
            times_right: power(left.saturating_sub(right))?,
            scale: left.max(right),
        }),
        Operator::Times => Some(Scaling {
            times_left: 1,
            times_right: 1,
            scale: left.checked_add(right)?,
        }),
        Operator::Over => None,
    }
}

fn applied_units(
    operator: Operator,
    scaling: Scaling,
    left: Option<i64>,
    right: Option<i64>,
) -> Option<Option<i64>>
    ensures { (m n : ℕ) → IsScaling operator m n scaling → IfSome result (λ units.
        meaning.operation (operator_of operator) (of_units m left) (of_units n right) ≡ Is (of_units scaling.scale units)) }
{
    let (Some(a), Some(b)) = (left, right) else {
        return Some(None);
    };
    let x = multiplied(a, scaling.times_left)?;
    let y = multiplied(b, scaling.times_right)?;
    match operator {
        Operator::Plus => Some(Some(x.checked_add(y)?)),
        Operator::Minus => Some(Some(x.checked_sub(y)?)),
        Operator::Times => Some(Some(x.checked_mul(y)?)),
        Operator::Over => None,
    }
}

/// The rows on which a comparison of two values is true, brought to one scale: bit i is that of the row i (ISO/IEC 9075:1992, 8.2).
fn met_rows(
    op: ComparisonOperator,
    m: u8,
    left: &[Option<i64>; 64],
    n: u8,
    right: &[Option<i64>; 64],
    count: usize,
) -> Option<u64>
    requires { count ≤ 64 }
    ensures { IfSome result (λ word. word ≡ word_of (map (λ place. is_true (compared (op_of op)
        (value_at m left.now place) (value_at n right.now place))) (range_with_len 0 count))) }
{
    let times_left = power(n.saturating_sub(m))?;
    let times_right = power(m.saturating_sub(n))?;
    let mut word = 0;
    let mut place = count;
    while 0 < place {
        place -= 1;
        let is_met = is_met(op, left[place], times_left, right[place], times_right)?;
        word = 2 * word + u64::from(is_met);
    }
    Some(word)
}

/// Whether a comparison of the units of two values is true, each taken times what brings it to the scale of both.
fn is_met(
    op: ComparisonOperator,
    left: Option<i64>,
    times_left: i64,
    right: Option<i64>,
    times_right: i64,
) -> Option<bool>
    ensures { (m n : ℕ) → times_left ≡ pos (10 ^ (n - m)) → times_right ≡ pos (10 ^ (m - n)) →
        IfSome result (λ met. met ≡ is_true (compared (op_of op) (of_units m left) (of_units n right))) }
{
    let (Some(a), Some(b)) = (left, right) else {
        return Some(false);
    };
    let a = multiplied(a, times_left)?;
    let b = multiplied(b, times_right)?;
    Some(op.agrees(a.cmp(&b)))
}

/// Units times what brings them to a scale, which is 1 for most.
fn multiplied(units: i64, power: i64) -> Option<i64>
    ensures { IfSome result (λ product. product ≡ units *ℤ power) }
{
    if power == 1 {
        return Some(units);
    }
    units.checked_mul(power)
}

fn power(digits: u8) -> Option<i64>
    ensures { IfSome result (λ power. power ≡ pos (10 ^ digits)) }
{
    10i64.checked_pow(u32::from(digits))
}
