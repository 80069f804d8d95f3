//! The shares of rows that comparisons, ranges, lists and nulls are taken to leave (Selinger et al. 1979, table 1; some numbers are own).

ghost use Rattle.std.specs.Prelude.{◌≡◌, ◌<◌, ◌≤◌, IfSome, Some, option_map};
ghost use Rattle.definitions.specs.Table.{Database};
ghost use Rattle.definitions.specs.Statement as comparison;
ghost use Rattle.definitions.specs.Queries.BoundBlock.{Block, Compare, ValueExpr};
ghost use Rattle.definitions.specs.Estimates.Fractions.{million};
ghost use Rattle.definitions.specs.Estimates.Selectivity as spec;
ghost use Rattle.definitions.specs.Estimates.KeyRanges.{drawn, part_above, part_below, part_between};
ghost use Rattle.definitions.specs.Estimates.Fractions as fractions;
ghost use Rattle.definitions.specs.Estimates.Paths.{ByBounds, ByComparison};
ghost use Rattle.definitions.specs.Estimates.Sides.{column_of as side_column, side_of};
ghost use Rattle.query_tree.specs.Bound.{column_of};
ghost use Rattle.sqlvalue.specs.Meaning.{op_of};
ghost use Rattle.predicates.specs.Terms.{side_term, terms_of};
ghost use Rattle.predicates.specs.Views.{sided_term_of, terms_in};
ghost use Rattle.estimate.specs.Inequalities.{IsInequality};
ghost use Rattle.estimate.specs.Tables.{tables_of, AreTablesOf};

use crate::column_keys::{keys_of, range_over};
use crate::fractions::{ONE_HALF, ONE_QUARTER, ONE_TENTH, ONE_THIRD, fraction, rest_of};
use catalog::Table;
use predicates::{ColumnTerm, ColumnTerms, SidedTerm, known_number};
use query_tree::BlockColumn;
use sqlvalue::{ComparisonOperator, Num};

/// The share of the rows that have one key, in millionths: one of as many as an index has, or a tenth where there is no index
/// (Selinger et al. 1979, table 1).
pub fn one_key(keys: Option<u64>) -> u32
    requires { IfSome keys (λ n. 0 < n) }
    ensures exact { result ≡ spec.one_key keys }
    ensures below { result ≤ million }
{
    match keys {
        Some(keys) => fraction(1, keys),
        None => ONE_TENTH,
    }
}

/// A comparison, by what it says of columns: `a >= b` is as `a > b`, `a < b` as `b > a`, and `a <> b` as NOT `a = b`.
pub(crate) fn comparison_share(
    tables: &[&Table],
    op: ComparisonOperator,
    terms: ColumnTerms<'_>,
) -> u32
    ensures exact { (db : Database) (block : Block) → AreTablesOf db block (tables_of tables.now) →
        (a b : ValueExpr) → terms_in terms.entry ≡ terms_of (Compare (op_of op) a b) →
        result ≡ spec.comparison_share db block (op_of op) (side_of a) (side_of b) }
    ensures below { result ≤ million }
{
    match op {
        ComparisonOperator::Equals => equal_share(tables, terms),
        ComparisonOperator::NotEquals => rest_of(equal_share(tables, terms)),
        ComparisonOperator::GreaterThan
        | ComparisonOperator::GreaterOrEquals
        | ComparisonOperator::LessThan
        | ComparisonOperator::LessOrEquals => inequality_share(tables, terms),
    }
}

/// `=`: one of the keys of the column, or of that of two columns that has more of them.
fn equal_share(tables: &[&Table], terms: ColumnTerms<'_>) -> u32
    ensures exact { (db : Database) (block : Block) → AreTablesOf db block (tables_of tables.now) →
        (op : comparison.ComparisonOperator) (a b : ValueExpr) → terms_in terms.entry ≡ terms_of (Compare op a b) →
        result ≡ spec.equal_share db block (side_of a) (side_of b) }
    ensures below { result ≤ million }
{
    match (terms.left, terms.right) {
        (Some(x), Some(y)) => {
            one_key(greater_of(keys_of(tables, x.column), keys_of(tables, y.column)))
        }
        (Some(x), None) => one_key(keys_of(tables, x.column)),
        (None, Some(y)) => one_key(keys_of(tables, y.column)),
        (None, None) => ONE_THIRD,
    }
}

/// The greater of two numbers of keys, where they are known.
fn greater_of(a: Option<u64>, b: Option<u64>) -> Option<u64>
    requires a { IfSome a (λ n. 0 < n) }
    requires b { IfSome b (λ n. 0 < n) }
    ensures exact { result ≡ spec.greater_of a b }
    ensures some { IfSome result (λ n. 0 < n) }
{
    match (a, b) {
        (Some(a), Some(b)) => Some(a.max(b)),
        (Some(a), None) => Some(a),
        (None, b) => b,
    }
}

/// `<`, `<=`, `>` and `>=`: what the first column that it speaks of keeps.
fn inequality_share(tables: &[&Table], terms: ColumnTerms<'_>) -> u32
    ensures exact { (db : Database) (block : Block) → AreTablesOf db block (tables_of tables.now) →
        (op : comparison.ComparisonOperator) (a b : ValueExpr) → IsInequality op →
        terms_in terms.entry ≡ terms_of (Compare op a b) →
        result ≡ spec.comparison_share db block op (side_of a) (side_of b) }
    ensures below { result ≤ million }
{
    match terms.first() {
        Some(sided) => bounded_share(tables, sided),
        None => ONE_THIRD,
    }
}

/// The part of a column's range on its side of a number that it is compared with.
fn bounded_share(tables: &[&Table], sided: SidedTerm<'_>) -> u32
    ensures exact { (db : Database) (block : Block) → AreTablesOf db block (tables_of tables.now) →
        (op : comparison.ComparisonOperator) (own other : ValueExpr) → IsInequality op →
        Some (sided_term_of sided.entry) ≡ side_term own (ByComparison op other) →
        result ≡ spec.comparison_share db block op (side_of own) (side_of other) }
    ensures below { result ≤ million }
{
    let ColumnTerm::Comparison { op, value } = sided.term else {
        return ONE_THIRD;
    };
    let Some(number) = known_number(value) else {
        return ONE_THIRD;
    };
    match op {
        ComparisonOperator::GreaterThan | ComparisonOperator::GreaterOrEquals => {
            share_above(tables, sided.column, sided.scale, number)
        }
        _ => share_below(tables, sided.column, sided.scale, number),
    }
}

/// The part of a column's range above a number; a third where it is not known.
fn share_above(tables: &[&Table], column: BlockColumn, scale: u8, number: Num) -> u32
    ensures exact { (db : Database) (block : Block) → AreTablesOf db block (tables_of tables.now) →
        result ≡ spec.part_or db block (column_of column) (λ range.
        part_above range (drawn range scale number.units number.scale)) fractions.one_third }
    ensures below { result ≤ million }
{
    match range_over(tables, column) {
        Some(range) => range.part_above(scale, number),
        None => ONE_THIRD,
    }
}

/// The part of a column's range below a number; a third where it is not known.
fn share_below(tables: &[&Table], column: BlockColumn, scale: u8, number: Num) -> u32
    ensures exact { (db : Database) (block : Block) → AreTablesOf db block (tables_of tables.now) →
        result ≡ spec.part_or db block (column_of column) (λ range.
        part_below range (drawn range scale number.units number.scale)) fractions.one_third }
    ensures below { result ≤ million }
{
    match range_over(tables, column) {
        Some(range) => range.part_below(scale, number),
        None => ONE_THIRD,
    }
}

/// BETWEEN, by what it says of a column: the part of its range between two numbers.
pub(crate) fn between_share(tables: &[&Table], term: Option<SidedTerm<'_>>) -> u32
    ensures exact { (db : Database) (block : Block) → AreTablesOf db block (tables_of tables.now) →
        (value low high : ValueExpr) → option_map sided_term_of term.entry ≡ side_term value (ByBounds low high) →
        result ≡ spec.between_share db block (side_of value) (side_of low) (side_of high) }
    ensures below { result ≤ million }
{
    match term {
        Some(sided) => ranged_share(tables, sided),
        None => ONE_THIRD,
    }
}

/// The part of a column's range between two values, a quarter where they aren't known numbers.
fn ranged_share(tables: &[&Table], sided: SidedTerm<'_>) -> u32
    ensures exact { (db : Database) (block : Block) → AreTablesOf db block (tables_of tables.now) →
        (value low high : ValueExpr) → Some (sided_term_of sided.entry) ≡ side_term value (ByBounds low high) →
        result ≡ spec.between_share db block (side_of value) (side_of low) (side_of high) }
    ensures below { result ≤ million }
{
    let ColumnTerm::Range { low, high } = sided.term else {
        return ONE_QUARTER;
    };
    match (known_number(low), known_number(high)) {
        (Some(low), Some(high)) => share_between(tables, sided.column, sided.scale, low, high),
        _ => ONE_QUARTER,
    }
}

/// The part of a column's range between two numbers; a quarter where it is not known.
fn share_between(tables: &[&Table], column: BlockColumn, scale: u8, low: Num, high: Num) -> u32
    ensures exact { (db : Database) (block : Block) → AreTablesOf db block (tables_of tables.now) →
        result ≡ spec.part_or db block (column_of column) (λ range.
        part_between range (drawn range scale low.units low.scale) (drawn range scale high.units high.scale))
        fractions.one_quarter }
    ensures below { result ≤ million }
{
    match range_over(tables, column) {
        Some(range) => range.part_between(scale, low, high),
        None => ONE_QUARTER,
    }
}

/// IN with a list: as many times one key as there are members, NULL too, but at most a half; a third where the value is no column.
pub(crate) fn list_share(tables: &[&Table], column: Option<BlockColumn>, members: usize) -> u32
    ensures exact { (db : Database) (block : Block) → AreTablesOf db block (tables_of tables.now) →
        (value : ValueExpr) → option_map column_of column ≡ side_column value →
        result ≡ spec.list_share db block (side_of value) members }
    ensures below { result ≤ million }
{
    match column {
        Some(column) => {
            let share = members.saturating_mul(one_key(keys_of(tables, column)) as usize);
            share.min(ONE_HALF as usize) as u32
        }
        None => ONE_THIRD,
    }
}

/// IS NULL: a tenth of a column's rows; a third where the value is no column.
pub(crate) fn null_share(column: Option<BlockColumn>) -> u32
    ensures exact { (db : Database) (block : Block) (value : ValueExpr) → option_map column_of column ≡ side_column value →
        result ≡ spec.null_share db block (side_of value) }
    ensures below { result ≤ million }
{
    match column {
        Some(_) => ONE_TENTH,
        None => ONE_THIRD,
    }
}
