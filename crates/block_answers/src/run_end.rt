//! Where the rows of a group end in a batch.

ghost use Rattle.std.specs.Prelude.{ℕ, ◌≡◌, ◌≤◌, ◌<◌, [], List, get_or, length, map, true};
ghost use Rattle.std.specs.Ordering.{is_eq};
ghost use Rattle.definitions.specs.Value.{rank, scale_of, Null, Number};
ghost use Rattle.definitions.specs.Queries.Evaluation.{Combination};
ghost use Rattle.definitions_execution.specs.OfBlock.{rows_in};
ghost use Rattle.definitions_answers.specs.Groups.{in_one_group};
ghost use Rattle.query_tree.specs.Bound.{column_of};
ghost use Rattle.sqlvalue.specs.Meaning.{value_of};
ghost use Rattle.columns.specs.Starts.{value_in};
ghost use Rattle.filters.specs.Sources.{block_in};
ghost use Rattle.block_answers.specs.Groups.{seen};
ghost use Rattle.block_answers.specs.Runs.{combination_at};

use crate::block_row::row_at;
use columns::NumberColumn;
use expr::Environment;
use filters::{BlockSource, Composite, OuterRows};
use query_tree::BlockColumn;
use scans::Batch;
use sqlvalue::{Value, rank};
use std::cmp::Ordering;

/// A place up to which the rows of a batch, from one place on, are in one group with a row.
pub(crate) fn run_end<A: OuterRows>(
    source: &BlockSource<'_>,
    columns: &[BlockColumn],
    row: &Composite,
    batch: &Batch,
    place: usize,
    around: &A,
) -> usize
    requires within { place ≤ length batch.now.items }
    ensures forward { place ≤ result }
    ensures within { result ≤ length batch.now.items }
    ensures run { (at : ℕ) → place ≤ at → at < result → in_one_group (map column_of columns.now)
        (seen source.now (A.combinations around.now) row.now)
        (combination_at source.now (A.combinations around.now) (get_or batch.now.items at [])) ≡ true }
{
    let mut end = batch.len();
    let first = row_at(source, row, around);
    'columns: for column in columns {
        if column.table >= batch.width() {
            return place;
        }
        let rows = batch.column(column.table);
        end = value_end(source, *column, &first.cell(*column), rows, place, end);
    }
    end
}

/// The place up to which rows, from one place on, have a value in a column.
fn value_end(
    source: &BlockSource<'_>,
    column: BlockColumn,
    value: &Value,
    rows: &[u32],
    place: usize,
    end: usize,
) -> usize
    requires forward { place ≤ end }
    requires within { end ≤ length rows.now }
    ensures forward { place ≤ result }
    ensures within { result ≤ end }
    ensures same { (at : ℕ) → place ≤ at → at < result → is_eq (rank (value_of value.now)
        (get_or (get_or (rows_in source.now.database (block_in source.now) column.table) (get_or rows.now at 0) [])
        column.number Null)) ≡ true }
{
    match (source.numbers(column), value) {
        (Some(numbers), Value::Num(number)) if numbers.scale() == number.scale => {
            number_end(numbers, number.units, rows, place, end)
        }
        _ => cell_end(source, column, value, rows, place, end),
    }
}

/// The place up to which rows, from one place on, have a number of so many units in a column.
fn number_end(numbers: &NumberColumn, units: i128, rows: &[u32], place: usize, end: usize) -> usize
    requires forward { place ≤ end }
    requires within { end ≤ length rows.now }
    ensures forward { place ≤ result }
    ensures within { result ≤ end }
    ensures same { (at : ℕ) → place ≤ at → at < result →
        value_in numbers.now (get_or rows.now at 0) ≡ Number units (scale_of numbers.now.type) }
{
    'places: for at in place..end {
        match numbers.units_in(rows[at] as usize) {
            Some(own) if i128::from(own) == units => {}
            _ => return at,
        }
    }
    end
}

/// The same in any column, one value after another.
fn cell_end(
    source: &BlockSource<'_>,
    column: BlockColumn,
    value: &Value,
    rows: &[u32],
    place: usize,
    end: usize,
) -> usize
    requires forward { place ≤ end }
    requires within { end ≤ length rows.now }
    ensures forward { place ≤ result }
    ensures within { result ≤ end }
    ensures same { (at : ℕ) → place ≤ at → at < result → is_eq (rank (value_of value.now)
        (get_or (get_or (rows_in source.now.database (block_in source.now) column.table) (get_or rows.now at 0) [])
        column.number Null)) ≡ true }
{
    'places: for at in place..end {
        if order_of(value, &source.cell(column, rows[at] as usize)) != Ordering::Equal {
            return at;
        }
    }
    end
}

/// How two values rank; numbers of one scale, as those of a column are, by their units.
fn order_of(a: &Value, b: &Value) -> Ordering
    ensures { result ≡ rank (value_of a.now) (value_of b.now) }
{
    match (a, b) {
        (Value::Num(x), Value::Num(y)) if x.scale == y.scale => x.units.cmp(&y.units),
        _ => rank(a, b),
    }
}
