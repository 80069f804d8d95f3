//! The first row that repeats the key of an earlier one.

ghost use Rattle.std.specs.Prelude.{◌≡◌, ◌<◌, ◌+◌, IsPermutation, IfSome, IsNone, length, map, take};
ghost use Rattle.std.specs.List.{range_with_len};
ghost use Rattle.definitions.specs.Key.{AreUnique};
ghost use Rattle.definitions.specs.IndexRun.{AreRising};
ghost use Rattle.indexes.specs.Keys.{columns_of, entry_in, height, keys_in};
ghost use Rattle.indexes.specs.Repeats.{IsFirstRepeated, lower_of, repeat_at};

use crate::keys::{is_full, rank_of_keys};
use columns::Column;
use std::cmp::Ordering;

/// A row whose key repeats that of an earlier one (ISO/IEC 9075:1992, 8.9). Rows count from 0.
#[derive(Clone, Copy, Debug, PartialEq, Eq)]
pub struct RepeatedKey {
    pub row: u32,
    pub earlier: u32,
}

/// Of rows in the order of their keys, the first of the table whose key repeats that of an earlier one. None of the first
/// `old` rows does.
pub(crate) fn first_repeated(keys: &[&Column], rows: &[u32], old: usize) -> Option<RepeatedKey>
    requires same { IsPermutation (range_with_len 0 (height (columns_of keys.now))) rows.now }
    requires rising { AreRising (map (entry_in (columns_of keys.now)) rows.now) }
    requires once { AreUnique (take old (keys_in (columns_of keys.now))) }
    ensures first { IfSome result (IsFirstRepeated (keys_in (columns_of keys.now))) }
    ensures unique { IsNone result → AreUnique (keys_in (columns_of keys.now)) }
{
    let mut found = None;
    for place in 0..rows.len().saturating_sub(1) {
        found = lower(found, repeated_at(keys, rows, place, old));
    }
    found
}

/// The row behind a place, where its key repeats that of the row at the place. An old row's key is not looked at.
fn repeated_at(keys: &[&Column], rows: &[u32], place: usize, old: usize) -> Option<RepeatedKey>
    requires within { place + 1 < length rows.now }
    requires same { IsPermutation (range_with_len 0 (height (columns_of keys.now))) rows.now }
    requires rising { AreRising (map (entry_in (columns_of keys.now)) rows.now) }
    requires once { AreUnique (take old (keys_in (columns_of keys.now))) }
    ensures { result ≡ repeat_at (columns_of keys.now) rows.now place }
{
    let (earlier, row) = (rows[place], rows[place + 1]);
    if (row as usize) < old {
        return None;
    }
    if is_full(keys, row) && rank_of_keys(keys, earlier, row) == Ordering::Equal {
        Some(RepeatedKey { row, earlier })
    } else {
        None
    }
}

/// Of two rows that repeat a key, the lower one.
fn lower(a: Option<RepeatedKey>, b: Option<RepeatedKey>) -> Option<RepeatedKey>
    ensures { result ≡ lower_of a b }
{
    match (a, b) {
        (Some(x), Some(y)) => Some(if y.row < x.row { y } else { x }),
        (Some(x), None) => Some(x),
        (None, other) => other,
    }
}
