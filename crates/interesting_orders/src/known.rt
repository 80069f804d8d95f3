//! The indexes that a version of the plan space knows.

ghost use Rattle.std.specs.Prelude.{◌≡◌, ◌<◌, IfOk, IfSome, length, filter_map};
ghost use Rattle.std.specs.List.{AllByRecursion, range_with_len};
ghost use Rattle.definitions.specs.Estimates.Orders as spec;
ghost use Rattle.definitions.specs.Table.{is_on};
ghost use Rattle.plan_tree.specs.Versions.{version_of};
ghost use Rattle.interesting_orders.specs.Keys.{index_on_column};

use catalog::Table;
use plan_tree::Version;
use std::alloc::{AllocError, Global};

/// The numbers of the indexes of a table that a version knows: the first those on one column, in the order of the columns, the
/// others all (own).
pub fn known_indexes(
    alloc: Global,
    version: Version,
    table: &Table,
) -> Result<Vec<usize>, AllocError>
    ensures exact { IfOk result (λ numbers. numbers.items ≡ spec.known_indexes (version_of version) table.now) }
    ensures there { IfOk result (λ numbers. AllByRecursion (λ number. number
        < length table.now.indexes) numbers.items) }
{
    match version {
        Version::One => column_indexes(alloc, table),
        Version::Two | Version::Three => all_indexes(alloc, table),
    }
}

/// The numbers of all indexes.
fn all_indexes(alloc: Global, table: &Table) -> Result<Vec<usize>, AllocError>
    ensures exact { IfOk result (λ numbers. numbers.items ≡ range_with_len 0 (length table.now.indexes)) }
    ensures there { IfOk result (λ numbers. AllByRecursion (λ number. number
        < length table.now.indexes) numbers.items) }
{
    let mut numbers = Vec::new(alloc);
    'indexes: for number in 0..table.index_count() {
        numbers.push(number)?;
    }
    Ok(numbers)
}

/// The numbers of the indexes on one column, in the order of the columns.
fn column_indexes(alloc: Global, table: &Table) -> Result<Vec<usize>, AllocError>
    ensures exact { IfOk result (λ numbers. numbers.items
        ≡ filter_map (index_on_column table.now) (range_with_len 0 (length table.now.columns))) }
    ensures there { IfOk result (λ numbers. AllByRecursion (λ number. number
        < length table.now.indexes) numbers.items) }
{
    let mut numbers = Vec::new(alloc);
    'columns: for column in 0..table.width() {
        if let Some(number) = column_index(table, column) {
            numbers.push(number)?;
        }
    }
    Ok(numbers)
}

/// The number of the index on one column.
fn column_index(table: &Table, column: usize) -> Option<usize>
    ensures exact { result ≡ index_on_column table.now column }
    ensures there { IfSome result (λ number. number < length table.now.indexes) }
{
    'indexes: for number in 0..table.index_count() {
        if table.index(number).is_on(&[column]) {
            return Some(number);
        }
    }
    None
}
