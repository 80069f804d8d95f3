//! The statistics of an index, counted (own, after Selinger et al. 1979, section 4).

ghost use Rattle.std.specs.Prelude.{◌≡◌, ◌≤◌, ◌<◌, length, map, filter_map, option_map, bytes_eq, take};
ghost use Rattle.std.specs.List.{AllByRecursion, range_with_len};
ghost use Rattle.definitions.specs.Limits.{most_index_columns, most_rows};
ghost use Rattle.definitions.specs.Key.{key_of};
ghost use Rattle.definitions.specs.IndexRun.{IsRun};
ghost use Rattle.definitions.specs.Statistics.{first_numbers, index_statistics, range_of, units_of};
ghost use Rattle.loading.specs.Stored.{AreFilled, headers, rows_of};
ghost use Rattle.indexes.specs.Meaning.{index_statistics_of, key_range_of};
ghost use Rattle.indexes.specs.Orders.{run_of};
ghost use Rattle.indexes.specs.Ranges.{widened_by};

use crate::index_kind::IndexKind;
use crate::pages::entry_pages;
use crate::statistics::{IndexStatistics, KeyRange};
use loading::TableColumn;
use sqlvalue::Value;

/// The statistics of an index on the columns of these numbers, whose rows stand in an order. The first `old` rows have
/// that range.
pub(crate) fn index_statistics(
    columns: &[TableColumn],
    rows: usize,
    numbers: &[usize],
    order: &IndexKind,
    old: usize,
    range: Option<KeyRange>,
) -> IndexStatistics
    requires some { 0 < length numbers.now }
    requires short { length numbers.now ≤ most_index_columns }
    requires there { AllByRecursion (λ n. n < length columns.now) numbers.now }
    requires filled { AreFilled rows columns.now }
    requires few { rows ≤ most_rows }
    requires run { IsRun (map (key_of numbers.now) (rows_of rows columns.now)) (run_of order.now).entries }
    requires within { old ≤ rows }
    requires range { option_map key_range_of range
        ≡ range_of (first_numbers numbers.now (take old (rows_of rows columns.now))) }
    ensures { index_statistics_of result ≡ index_statistics (headers columns.now) (rows_of rows columns.now)
        numbers.now }
{
    IndexStatistics {
        keys: order.key_count() as u64,
        pages: entry_pages(columns, numbers, rows),
        clustered: are_in_place(order.all()),
        range: key_range(&columns[numbers[0]], rows, old, range),
    }
}

/// Whether rows stand in an index as they stand in their table: then, and only then, no key falls from one row of the
/// table to the next.
fn are_in_place(rows: &[u32]) -> bool
    ensures { result ≡ bytes_eq rows.now (range_with_len 0 (length rows.now)) }
{
    for (place, row) in rows.iter().enumerate() {
        if *row as usize != place {
            return false;
        }
    }
    true
}

/// The least and the greatest of a column's numbers, if there is one. Those of the first `old` rows are given.
fn key_range(
    column: &TableColumn,
    rows: usize,
    old: usize,
    range: Option<KeyRange>,
) -> Option<KeyRange>
    requires all { rows ≡ length column.now.values }
    requires within { old ≤ rows }
    requires range { option_map key_range_of range ≡ range_of (filter_map units_of (take old column.now.values)) }
    ensures { option_map key_range_of result ≡ range_of (filter_map units_of column.now.values) }
{
    let mut range = range;
    for row in old..rows {
        if let Value::Num(number) = column.cell(row) {
            range = Some(widen_range(range, number.units));
        }
    }
    range
}

/// The range with one number more.
fn widen_range(range: Option<KeyRange>, units: i128) -> KeyRange
    ensures { key_range_of result ≡ widened_by (option_map key_range_of range) units }
{
    match range {
        Some(KeyRange { low, high }) => KeyRange {
            low: low.min(units),
            high: high.max(units),
        },
        None => KeyRange {
            low: units,
            high: units,
        },
    }
}
