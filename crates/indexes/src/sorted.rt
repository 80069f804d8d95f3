//! An index in which keys may come again.

ghost use Rattle.std.specs.Prelude.{◌≡◌, ◌<◌, ◌^◌, [], IfOk, take, length};
ghost use Rattle.definitions.specs.Key.{distinct_keys, full_keys};
ghost use Rattle.definitions.specs.IndexRun.{AreRising, IsRun, keys_of};
ghost use Rattle.indexes.specs.Keys.{AreOfHeight, columns_of, height, keys_in, types_of};

use crate::ordered::OrderedIndex;
use crate::run::KeyRun;
use crate::sorting::run_rows;
use columns::Column;
use sqlvalue::Value;
use std::alloc::{AllocError, Global};
use std::marker::Model;
use std::ops::Bound;

/// The rows of a table in the order of their keys.
#[derive(Drop)]
pub struct SortedIndex {
    run: KeyRun,
}

impl Model for SortedIndex {
    ghost use Rattle.indexes.specs.Runs.{Index};

    ghost Value = { Index };

    ghost view = { λ s. s.run };
}

impl SortedIndex {
    /// The index of no rows.
    pub fn new(alloc: Global) -> SortedIndex
        ensures { result ≡ record { types = []; entries = [] } }
    {
        SortedIndex {
            run: KeyRun::new(alloc),
        }
    }

    /// The index of the same columns with more rows behind those that this one has. An `Err` comes of memory alone.
    pub fn with_further_rows(
        &self,
        alloc: Global,
        keys: &[&Column],
    ) -> Result<SortedIndex, AllocError>
        requires table { AreOfHeight (height (columns_of keys.now)) (columns_of keys.now) }
        requires few { height (columns_of keys.now) < 2 ^ 32 }
        requires beginning { IsRun (take (length self.now.entries) (keys_in (columns_of keys.now))) self.now.entries }
        ensures types { IfOk result (λ index. index.types ≡ types_of (columns_of keys.now)) }
        ensures run { IfOk result (λ index. IsRun (keys_in (columns_of keys.now)) index.entries) }
    {
        let rows = run_rows(alloc, keys, self.run.rows(), self.run.key_count())?;
        Ok(SortedIndex {
            run: self.run.with_rows(alloc, keys, rows)?,
        })
    }

    /// How many rows there are, which are in the order of their keys.
    pub fn len(&self) -> usize
        ensures exact { result ≡ length self.now.entries }
        ensures rising { AreRising self.now.entries }
    {
        self.run.len()
    }

    /// How many keys without a null there are, equal ones counted once (KEYS, the statistic of an index; Selinger et al.
    /// 1979, section 4).
    pub fn key_count(&self) -> usize
        ensures { result ≡ length (distinct_keys (full_keys (keys_of self.now.entries))) }
    {
        self.run.key_count()
    }
}

impl OrderedIndex for SortedIndex {
    ghost entries = { λ s. s.entries };

    ghost width = { λ s. length s.types };

    fn all(&self) -> &[u32] {
        self.run.rows()
    }

    fn equal(&self, values: &[Value]) -> &[u32] {
        self.run.equal(values)
    }

    fn range(&self, values: &[Value], low: Bound<Value>, high: Bound<Value>) -> &[u32] {
        self.run.range(values, low, high)
    }
}
