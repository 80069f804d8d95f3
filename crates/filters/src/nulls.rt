//! Rows in which a column is null.

ghost use Rattle.std.specs.Prelude.{◌≡◌, ◌≤◌, ◌<◌, ◌+◌, length};
ghost use Rattle.definitions_execution.specs.OfBlock.{rows_in};
ghost use Rattle.sqlvalue.specs.Meaning.{value_of};
ghost use Rattle.filters.specs.SearchArguments.{is_null_in, is_unknown_in, IsColumnOf};
ghost use Rattle.filters.specs.Sources.{block_in};
ghost use Rattle.filters.specs.Words.{word_by};

use crate::block_source::BlockSource;
use sqlvalue::{ComparisonOperator, Num, Value};

/// Of so many rows of a table from `first` on, those in which a column is null: bit i of the word is that of the row `first + i`. A value that
/// is there compares with one of its own kind, and null with none (ISO/IEC 9075:1992, 8.2).
pub(crate) fn null_rows(
    source: &BlockSource<'_>,
    table: usize,
    column: usize,
    first: usize,
    count: usize,
) -> u64
    requires table { table < length (block_in source.now).tables }
    requires column { IsColumnOf source.now table column }
    requires few { count ≤ 64 }
    requires in_rows { first + count ≤ length (rows_in source.now.database (block_in source.now) table) }
    ensures { result ≡ word_by (is_null_in source.now table column) first count }
{
    let zero = Num { units: 0, scale: 0 };
    unknown_rows(source, table, column, &Value::Num(zero), first, count)
        & unknown_rows(source, table, column, &Value::Text(""), first, count)
}

/// Those in which it is unknown whether the column is equal to a value.
fn unknown_rows(
    source: &BlockSource<'_>,
    table: usize,
    column: usize,
    value: &Value<'_>,
    first: usize,
    count: usize,
) -> u64
    requires table { table < length (block_in source.now).tables }
    requires column { IsColumnOf source.now table column }
    requires few { count ≤ 64 }
    requires in_rows { first + count ≤ length (rows_in source.now.database (block_in source.now) table) }
    ensures { result ≡ word_by (is_unknown_in source.now table column (value_of value.now)) first count }
{
    let (_, unknown) = source
        .table(table)
        .scan(column, ComparisonOperator::Equals, value, first, count);
    unknown
}
