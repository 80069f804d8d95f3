//! The rows of a table in the order of their keys, with these.

ghost use Rattle.std.specs.Prelude.{◌≡◌, ◌≤◌, ◌<◌, ◌-◌, [], IfOk, drop, map, length, take};
ghost use Rattle.definitions.specs.Key.{distinct_keys, full_keys};
ghost use Rattle.definitions.specs.IndexRun.{AreRising, equal_part, keys_of, range_part, entry_rows};
ghost use Rattle.sqlvalue.specs.Meaning.{value_of};
ghost use Rattle.columns.specs.Starts.{limit_of};
ghost use Rattle.indexes.specs.Stretches.{IsStretchOf};
ghost use Rattle.indexes.specs.Keys.{columns_of, count_keys, entry_in, types_of};
ghost use Rattle.indexes.specs.Merging.{AreWoven};

use crate::key_column::{KeyColumn, Stretch};
use crate::merging::KeyedRows;
use columns::Column;
use sqlvalue::Value;
use std::alloc::{AllocError, Global};
use std::marker::Model;
use std::ops::Bound;

/// The numbers of the rows, and the columns of their keys.
#[derive(Drop)]
pub(crate) struct KeyRun {
    rows: Vec<u32>,
    columns: Vec<KeyColumn>,
    /// How many keys without a null there are, equal ones counted once.
    key_count: usize,
}

impl Model for KeyRun {
    ghost use Rattle.indexes.specs.Runs.{Index};

    ghost Value = { Index };

    ghost use Rattle.indexes.specs.Runs.{index_of, IsKeyRun};

    ghost view = { index_of };

    ghost invariant = { IsKeyRun };
}

impl KeyRun {
    /// The run of no rows.
    pub(crate) fn new(alloc: Global) -> KeyRun
        ensures { result ≡ record { types = []; entries = [] } }
    {
        KeyRun {
            rows: Vec::new(alloc),
            columns: Vec::new(alloc),
            key_count: 0,
        }
    }

    /// The run of rows that are in the order of their keys, and of which this one has the old ones.
    pub(crate) fn with_rows(
        &self,
        alloc: Global,
        keys: &[&Column],
        keyed: KeyedRows,
    ) -> Result<KeyRun, AllocError>
        requires old { map (entry_in (columns_of keys.now)) (entry_rows self.now.entries) ≡ self.now.entries }
        requires woven { AreWoven (entry_rows self.now.entries) keyed }
        requires rising { AreRising (map (entry_in (columns_of keys.now)) keyed.rows.items) }
        requires counted { keyed.key_count ≡ count_keys (columns_of keys.now) keyed.rows.items }
        ensures types { IfOk result (λ run. run.types ≡ types_of (columns_of keys.now)) }
        ensures entries { IfOk result (λ run. run.entries ≡ map (entry_in (columns_of keys.now)) keyed.rows.items) }
    {
        let mut columns = Vec::new(alloc);
        for (place, key) in keys.iter().enumerate() {
            let old = self.columns.get(place);
            columns.push(KeyColumn::of_rows(alloc, key, &keyed, old)?)?;
        }
        Ok(KeyRun {
            rows: keyed.rows,
            columns,
            key_count: keyed.key_count,
        })
    }

    pub(crate) fn len(&self) -> usize
        ensures exact { result ≡ length self.now.entries }
        ensures rising { AreRising self.now.entries }
    {
        self.rows.len()
    }

    /// The numbers of all rows, in the order of their keys.
    pub(crate) fn rows(&self) -> &[u32]
        ensures { result.now ≡ entry_rows self.now.entries }
    {
        self.rows.as_slice()
    }

    /// The rows whose keys begin with these values (ISO/IEC 9075:1992, 8.2).
    pub(crate) fn equal(&self, values: &[Value]) -> &[u32]
        requires { length values.now ≤ length self.now.types }
        ensures { result.now ≡ entry_rows (equal_part (map value_of values.now) self.now.entries) }
    {
        self.part(self.stretch(values))
    }

    /// The rows whose keys begin with these values, and whose next value is not null and lies from one bound to another
    /// (ISO/IEC 9075:1992, 8.2).
    pub(crate) fn range(&self, values: &[Value], low: Bound<Value>, high: Bound<Value>) -> &[u32]
        requires { length values.now < length self.now.types }
        ensures { result.now ≡ entry_rows (range_part (map value_of values.now) (limit_of low.entry)
            (limit_of high.entry) self.now.entries) }
    {
        let beginning = self.stretch(values);
        self.part(self.columns[values.len()].range(low, high, beginning))
    }

    /// The rows of a stretch.
    fn part(&self, stretch: Stretch) -> &[u32]
        requires forward { stretch.from ≤ stretch.to }
        requires inside { stretch.to ≤ length self.now.entries }
        ensures { result.now ≡ take (stretch.to - stretch.from) (drop stretch.from (entry_rows self.now.entries)) }
    {
        &self.rows()[stretch.from..stretch.to]
    }

    /// The places of the keys that begin with these values.
    fn stretch(&self, values: &[Value]) -> Stretch
        requires { length values.now ≤ length self.now.types }
        ensures { IsStretchOf (map value_of values.now) self.now.entries result }
    {
        let mut stretch = Stretch {
            from: 0,
            to: self.rows.len(),
        };
        for place in 0..values.len() {
            let value = values[place];
            stretch = self.columns[place].range(
                Bound::Included(value),
                Bound::Included(value),
                stretch,
            );
        }
        stretch
    }

    /// How many keys without a null there are, equal ones counted once.
    pub(crate) fn key_count(&self) -> usize
        ensures { result ≡ length (distinct_keys (full_keys (keys_of self.now.entries))) }
    {
        self.key_count
    }
}
