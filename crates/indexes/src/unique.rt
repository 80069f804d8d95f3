//! An index in which no key comes again.

ghost use Rattle.std.specs.Prelude.{◌≡◌, ◌<◌, ◌^◌, [], IfOk, IfErr, OnOk, take, length};
ghost use Rattle.definitions.specs.Key.{AreUnique, distinct_keys, full_keys};
ghost use Rattle.definitions.specs.IndexRun.{AreRising, IsRun, keys_of};
ghost use Rattle.indexes.specs.Repeats.{IfRepeated, IsFirstRepeated, IsMemory};
ghost use Rattle.indexes.specs.Keys.{AreOfHeight, columns_of, height, keys_in, types_of};

use crate::ordered::OrderedIndex;
use crate::repeated::{RepeatedKey, first_repeated};
use crate::run::KeyRun;
use crate::sorting::run_rows;
use columns::Column;
use sqlvalue::Value;
use std::alloc::{AllocError, Global};
use std::marker::Model;
use std::ops::Bound;

/// The rows of a table in the order of their keys, of which none comes again.
#[derive(Drop)]
pub struct UniqueIndex {
    run: KeyRun,
}

/// Why there is no unique index of a table.
#[derive(Clone, Copy, PartialEq, Eq)]
pub enum UniqueFault {
    /// A key comes again (ISO/IEC 9075:1992, 8.9).
    Repeated(RepeatedKey),
    Memory,
}

impl From<AllocError> for UniqueFault {
    ghost from_gives = { λ _ fault. IsMemory fault };

    fn from(_error: AllocError) -> UniqueFault {
        UniqueFault::Memory
    }
}

impl Model for UniqueIndex {
    ghost use Rattle.indexes.specs.Runs.{Index};

    ghost Value = { Index };

    ghost use Rattle.indexes.specs.Once.{IsUniqueIndex};

    ghost view = { λ s. s.run };

    ghost invariant = { IsUniqueIndex };
}

impl UniqueIndex {
    /// The index of no rows.
    pub fn new(alloc: Global) -> UniqueIndex
        ensures { result ≡ record { types = []; entries = [] } }
    {
        UniqueIndex {
            run: KeyRun::new(alloc),
        }
    }

    /// The index of the same columns with more rows behind those that this one has, if no key comes again
    /// (ISO/IEC 9075:1992, 8.9).
    pub fn with_further_rows(
        &self,
        alloc: Global,
        keys: &[&Column],
    ) -> Result<UniqueIndex, UniqueFault>
        requires table { AreOfHeight (height (columns_of keys.now)) (columns_of keys.now) }
        requires few { height (columns_of keys.now) < 2 ^ 32 }
        requires beginning { IsRun (take (length self.now.entries) (keys_in (columns_of keys.now))) self.now.entries }
        ensures types { IfOk result (λ index. index.types ≡ types_of (columns_of keys.now)) }
        ensures run { IfOk result (λ index. IsRun (keys_in (columns_of keys.now)) index.entries) }
        ensures unique { OnOk result (AreUnique (keys_in (columns_of keys.now))) }
        ensures repeated { IfErr result (IfRepeated (IsFirstRepeated (keys_in (columns_of keys.now)))) }
    {
        let keyed = run_rows(alloc, keys, self.run.rows(), self.run.key_count())?;
        if let Some(repeated) = first_repeated(keys, keyed.rows.as_slice(), self.run.len()) {
            return Err(UniqueFault::Repeated(repeated));
        }
        Ok(UniqueIndex {
            run: self.run.with_rows(alloc, keys, keyed)?,
        })
    }

    /// How many rows there are, which are in the order of their keys.
    pub fn len(&self) -> usize
        ensures exact { result ≡ length self.now.entries }
        ensures rising { AreRising self.now.entries }
    {
        self.run.len()
    }

    /// How many keys without a null there are, equal ones counted once (KEYS, the statistic of an index; Selinger et al.
    /// 1979, section 4).
    pub fn key_count(&self) -> usize
        ensures { result ≡ length (distinct_keys (full_keys (keys_of self.now.entries))) }
    {
        self.run.key_count()
    }
}

impl OrderedIndex for UniqueIndex {
    ghost entries = { λ s. s.entries };

    ghost width = { λ s. length s.types };

    fn all(&self) -> &[u32] {
        self.run.rows()
    }

    fn equal(&self, values: &[Value]) -> &[u32] {
        self.run.equal(values)
    }

    fn range(&self, values: &[Value], low: Bound<Value>, high: Bound<Value>) -> &[u32] {
        self.run.range(values, low, high)
    }
}
