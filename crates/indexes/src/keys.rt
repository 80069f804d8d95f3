//! Keys of rows, compared in their columns.

ghost use Rattle.std.specs.Prelude.{◌≡◌, false, not};
ghost use Rattle.std.specs.Ordering.{nat_cmp, ordering_then};
ghost use Rattle.definitions.specs.Key.{has_null, key_rank};
ghost use Rattle.indexes.specs.Keys.{columns_of, key_in};

use columns::Column;
use std::cmp::Ordering;

/// How two rows of a table stand in an index of some of its columns: as their keys rank, and else by their numbers
/// (own).
pub(crate) fn order_of_rows(keys: &[&Column], a: u32, b: u32) -> Ordering
    ensures { result ≡ ordering_then (key_rank (key_in (columns_of keys.now) a) (key_in (columns_of keys.now) b))
        (nat_cmp a b) }
{
    rank_of_keys(keys, a, b).then(a.cmp(&b))
}

/// How the keys of two rows rank (ISO/IEC 9075:1992, 13.1, general rule 2).
pub(crate) fn rank_of_keys(keys: &[&Column], a: u32, b: u32) -> Ordering
    ensures { result ≡ key_rank (key_in (columns_of keys.now) a) (key_in (columns_of keys.now) b) }
{
    for column in keys {
        let order = column.rank(a as usize, b as usize);
        if order != Ordering::Equal {
            return order;
        }
    }
    Ordering::Equal
}

/// Whether no value of a row's key is null (own).
pub(crate) fn is_full(keys: &[&Column], row: u32) -> bool
    ensures { result ≡ not (has_null (key_in (columns_of keys.now) row)) }
{
    for column in keys {
        if column.is_null(row as usize) {
            return false;
        }
    }
    true
}
