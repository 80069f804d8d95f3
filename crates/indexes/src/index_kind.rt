//! The order of an index's rows.

ghost use Rattle.std.specs.Prelude.{◌≡◌, ◌≤◌, ◌<◌, ◌^◌, IfOk, IfErr, length, map, take};
ghost use Rattle.definitions.specs.Key.{distinct_keys, full_keys};
ghost use Rattle.definitions.specs.IndexRun.{IsRun, equal_part, keys_of, range_part, entry_rows};
ghost use Rattle.sqlvalue.specs.Meaning.{value_of};
ghost use Rattle.columns.specs.Starts.{limit_of};
ghost use Rattle.indexes.specs.Keys.{AreOfHeight, columns_of, height, keys_in};
ghost use Rattle.indexes.specs.Orders.{IsOrderOf, RefusesOrder, is_unique, run_of};

use crate::ordered::OrderedIndex;
use crate::sorted::SortedIndex;
use crate::unique::{UniqueFault, UniqueIndex};
use columns::Column;
use sqlvalue::Value;
use std::alloc::Global;
use std::ops::Bound;

/// The rows of a table in the order of their keys, which may come again or not.
#[derive(Drop)]
pub(crate) enum IndexKind {
    Sorted(SortedIndex),
    Unique(UniqueIndex),
}

impl IndexKind {
    /// The order of the rows of columns.
    pub(crate) fn build(
        alloc: Global,
        keys: &[&Column],
        unique: bool,
    ) -> Result<IndexKind, UniqueFault>
        requires table { AreOfHeight (height (columns_of keys.now)) (columns_of keys.now) }
        requires few { height (columns_of keys.now) < 2 ^ 32 }
        ensures ok { IfOk result (IsOrderOf (columns_of keys.now) unique) }
        ensures refused { IfErr result (RefusesOrder (columns_of keys.now) unique) }
    {
        if unique {
            IndexKind::Unique(UniqueIndex::new(alloc)).with_further_rows(alloc, keys)
        } else {
            IndexKind::Sorted(SortedIndex::new(alloc)).with_further_rows(alloc, keys)
        }
    }

    /// The order of the rows of the same columns with more rows behind those that this one has.
    pub(crate) fn with_further_rows(
        &self,
        alloc: Global,
        keys: &[&Column],
    ) -> Result<IndexKind, UniqueFault>
        requires table { AreOfHeight (height (columns_of keys.now)) (columns_of keys.now) }
        requires few { height (columns_of keys.now) < 2 ^ 32 }
        requires beginning { IsRun (take (length (run_of self.now).entries) (keys_in (columns_of keys.now)))
            (run_of self.now).entries }
        ensures ok { IfOk result (IsOrderOf (columns_of keys.now) (is_unique self.now)) }
        ensures refused { IfErr result (RefusesOrder (columns_of keys.now) (is_unique self.now)) }
    {
        match self {
            IndexKind::Sorted(index) => match index.with_further_rows(alloc, keys) {
                Ok(index) => Ok(IndexKind::Sorted(index)),
                Err(_) => Err(UniqueFault::Memory),
            },
            IndexKind::Unique(index) => {
                Ok(IndexKind::Unique(index.with_further_rows(alloc, keys)?))
            }
        }
    }

    pub(crate) fn is_unique(&self) -> bool
        ensures { result ≡ is_unique self.now }
    {
        match self {
            IndexKind::Sorted(_) => false,
            IndexKind::Unique(_) => true,
        }
    }

    /// How many rows there are.
    pub(crate) fn len(&self) -> usize
        ensures { result ≡ length (run_of self.now).entries }
    {
        match self {
            IndexKind::Sorted(index) => index.len(),
            IndexKind::Unique(index) => index.len(),
        }
    }

    pub(crate) fn key_count(&self) -> usize
        ensures { result ≡ length (distinct_keys (full_keys (keys_of (run_of self.now).entries))) }
    {
        match self {
            IndexKind::Sorted(index) => index.key_count(),
            IndexKind::Unique(index) => index.key_count(),
        }
    }

    pub(crate) fn all(&self) -> &[u32]
        ensures { result.now ≡ entry_rows (run_of self.now).entries }
    {
        match self {
            IndexKind::Sorted(index) => index.all(),
            IndexKind::Unique(index) => index.all(),
        }
    }

    pub(crate) fn equal(&self, values: &[Value]) -> &[u32]
        requires { length values.now ≤ length (run_of self.now).types }
        ensures { result.now ≡ entry_rows (equal_part (map value_of values.now) (run_of self.now).entries) }
    {
        match self {
            IndexKind::Sorted(index) => index.equal(values),
            IndexKind::Unique(index) => index.equal(values),
        }
    }

    pub(crate) fn range(&self, values: &[Value], low: Bound<Value>, high: Bound<Value>) -> &[u32]
        requires { length values.now < length (run_of self.now).types }
        ensures { result.now ≡ entry_rows (range_part (map value_of values.now) (limit_of low.entry)
            (limit_of high.entry) (run_of self.now).entries) }
    {
        match self {
            IndexKind::Sorted(index) => index.range(values, low, high),
            IndexKind::Unique(index) => index.range(values, low, high),
        }
    }
}
