//! The rows of a table in the order of their keys.

ghost use Rattle.std.specs.Prelude.{◌≡◌, ◌≤◌, ◌<◌, ◌^◌, ◌-◌, IfOk, IsPermutation, map, length};
ghost use Rattle.std.specs.List.{range_with_len};
ghost use Rattle.definitions.specs.IndexRun.{AreRising};
ghost use Rattle.indexes.specs.Keys.{columns_of, count_keys, entry_in, height};
ghost use Rattle.indexes.specs.Merging.{AreWoven};

use crate::keys::order_of_rows;
use crate::merging::{KeyedRows, merged_rows};
use columns::Column;
use std::alloc::{AllocError, Global};

/// All rows of a table in the order of their keys. The old ones are in it already, and have `key_count` keys: the others
/// are sorted, and the two are merged.
pub(crate) fn run_rows(
    alloc: Global,
    keys: &[&Column],
    old: &[u32],
    key_count: usize,
) -> Result<KeyedRows, AllocError>
    requires few { height (columns_of keys.now) < 2 ^ 32 }
    requires same { IsPermutation (range_with_len 0 (length old.now)) old.now }
    requires within { length old.now ≤ height (columns_of keys.now) }
    requires rising { AreRising (map (entry_in (columns_of keys.now)) old.now) }
    requires counted { key_count ≡ count_keys (columns_of keys.now) old.now }
    ensures woven { IfOk result (AreWoven old.now) }
    ensures same { IfOk result (λ run. IsPermutation (range_with_len 0 (height (columns_of keys.now))) run.rows.items) }
    ensures rising { IfOk result (λ run. AreRising (map (entry_in (columns_of keys.now)) run.rows.items)) }
    ensures counted { IfOk result (λ run. run.key_count ≡ count_keys (columns_of keys.now) run.rows.items) }
{
    let further = sorted_rows(alloc, keys, old.len(), row_count(keys))?;
    merged_rows(alloc, keys, old, key_count, further.as_slice())
}

/// How many rows columns of a table have.
fn row_count(keys: &[&Column]) -> usize
    ensures { result ≡ height (columns_of keys.now) }
{
    match keys.first() {
        Some(column) => column.len(),
        None => 0,
    }
}

/// The rows of a table from one on up to another, in the order of their keys.
fn sorted_rows(
    alloc: Global,
    keys: &[&Column],
    first: usize,
    end: usize,
) -> Result<Vec<u32>, AllocError>
    requires few { end < 2 ^ 32 }
    requires forward { first ≤ end }
    ensures same { IfOk result (λ rows. IsPermutation (range_with_len first (end - first)) rows.items) }
    ensures rising { IfOk result (λ rows. AreRising (map (entry_in (columns_of keys.now)) rows.items)) }
{
    let mut rows = row_numbers(alloc, first, end)?;
    rows.sort_by(|a, b| order_of_rows(keys, *a, *b))?;
    Ok(rows)
}

/// The numbers of rows, from one on up to another.
fn row_numbers(alloc: Global, first: usize, end: usize) -> Result<Vec<u32>, AllocError>
    requires few { end < 2 ^ 32 }
    requires forward { first ≤ end }
    ensures { IfOk result (λ rows. rows.items ≡ range_with_len first (end - first)) }
{
    let mut rows = Vec::with_capacity(alloc, end - first)?;
    for row in first..end {
        rows.push(row as u32)?;
    }
    Ok(rows)
}
