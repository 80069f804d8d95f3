//! Two lists of rows in the order of their keys, merged into one.

ghost use Rattle.std.specs.Prelude.{◌≡◌, ◌≤◌, ◌<◌, ◌++◌, IfOk, IsPermutation, map, length};
ghost use Rattle.definitions.specs.IndexRun.{AreRising};
ghost use Rattle.columns.specs.Starts.{AreOrdered, Splits};
ghost use Rattle.indexes.specs.Keys.{columns_of, count_keys, entry_in};
ghost use Rattle.indexes.specs.Merging.{AreEarlier, AreWoven, begins_anew, is_behind};

use crate::keys::{is_full, order_of_rows, rank_of_keys};
use columns::Column;
use std::alloc::{AllocError, Global};
use std::cmp::Ordering;

/// Rows in the order of their keys, and how many keys without a null they have, equal ones counted once. The further
/// ones stand alone too, and for each of these how many old ones come before it.
#[derive(Drop)]
pub(crate) struct KeyedRows {
    pub rows: Vec<u32>,
    pub further: Vec<u32>,
    pub places: Vec<usize>,
    pub key_count: usize,
}

/// The old rows of a table, which have `key_count` keys, and its further rows, both in the order of their keys, as one
/// list. Each further row costs a search among the old ones; what lies between two of them is copied as it is.
pub(crate) fn merged_rows(
    alloc: Global,
    keys: &[&Column],
    old: &[u32],
    key_count: usize,
    further: &[u32],
) -> Result<KeyedRows, AllocError>
    requires earlier { AreEarlier old.now further.now }
    requires old { AreRising (map (entry_in (columns_of keys.now)) old.now) }
    requires further { AreRising (map (entry_in (columns_of keys.now)) further.now) }
    requires counted { key_count ≡ count_keys (columns_of keys.now) old.now }
    ensures woven { IfOk result (AreWoven old.now) }
    ensures same { IfOk result (λ merged. IsPermutation (old.now ++ further.now) merged.rows.items) }
    ensures rising { IfOk result (λ merged. AreRising (map (entry_in (columns_of keys.now)) merged.rows.items)) }
    ensures counted { IfOk result (λ merged. merged.key_count ≡ count_keys (columns_of keys.now) merged.rows.items) }
{
    let mut rows = Vec::with_capacity(alloc, old.len() + further.len())?;
    let mut places = Vec::with_capacity(alloc, further.len())?;
    let mut key_count = key_count;
    let mut from = 0;
    for row in further {
        let to = place_from(keys, old, *row, from);
        rows.extend_from_slice(&old[from..to])?;
        key_count += usize::from(begins_anew(keys, rows.as_slice(), *row));
        rows.push(*row)?;
        places.push(to)?;
        from = to;
    }
    rows.extend_from_slice(&old[from..])?;
    Ok(KeyedRows {
        rows,
        further: Vec::from_slice(alloc, further)?,
        places,
        key_count,
    })
}

/// Whether the key of a row has no null and differs from that of the last row before it.
fn begins_anew(keys: &[&Column], rows: &[u32], row: u32) -> bool
    ensures { result ≡ begins_anew (columns_of keys.now) rows.now row }
{
    is_full(keys, row)
        && (rows.len() == 0 || rank_of_keys(keys, rows[rows.len() - 1], row) != Ordering::Equal)
}

/// Of rows in the order of their keys, the place of the first one from a place on that does not come before another row,
/// found by steps that double.
fn place_from(keys: &[&Column], rows: &[u32], row: u32, first: usize) -> usize
    requires within { first ≤ length rows.now }
    requires ordered { AreOrdered (is_behind (columns_of keys.now) rows.now row) first (length rows.now) }
    ensures { Splits (is_behind (columns_of keys.now) rows.now row) first (length rows.now) result }
{
    let mut from = first;
    let mut step = 1;
    while step < rows.len() - from {
        if is_behind(keys, rows, row, from + step - 1) {
            return place_between(keys, rows, row, from, from + step - 1);
        }
        from += step;
        step = step.saturating_mul(2);
    }
    place_between(keys, rows, row, from, rows.len())
}

/// The same among the rows up to a place, found by halves.
fn place_between(keys: &[&Column], rows: &[u32], row: u32, first: usize, end: usize) -> usize
    requires forward { first ≤ end }
    requires within { end ≤ length rows.now }
    requires ordered { AreOrdered (is_behind (columns_of keys.now) rows.now row) first end }
    ensures { Splits (is_behind (columns_of keys.now) rows.now row) first end result }
{
    let mut low = first;
    let mut high = end;
    while low < high {
        let middle = low + (high - low) / 2;
        if is_behind(keys, rows, row, middle) {
            high = middle;
        } else {
            low = middle + 1;
        }
    }
    low
}

/// Whether the row at a place does not come before another row.
fn is_behind(keys: &[&Column], rows: &[u32], row: u32, place: usize) -> bool
    requires { place < length rows.now }
    ensures { result ≡ is_behind (columns_of keys.now) rows.now row place }
{
    !order_of_rows(keys, rows[place], row).is_lt()
}
