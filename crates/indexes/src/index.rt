//! An index of a table: its columns, whether keys are unique, its statistics, and its order of rows.

ghost use Rattle.std.specs.Prelude.{◌≡◌, ◌≤◌, ◌<◌, IfOk, IfErr, length};
ghost use Rattle.definitions.specs.Limits.{most_rows};
ghost use Rattle.definitions.specs.Table as spec;
ghost use Rattle.loading.specs.Stored.{AreFilled, headers, rows_of};
ghost use Rattle.indexes.specs.Meaning.{index_statistics_of};
ghost use Rattle.indexes.specs.Indexes.{AreIndexColumns, IsIndexOn, RefusesIndexOn, IsBeginning};

use crate::counting::index_statistics;
use crate::index_kind::IndexKind;
use crate::key_columns::key_columns;
use crate::ordered::OrderedIndex;
use crate::statistics::{IndexStatistics, KeyRange};
use crate::unique::UniqueFault;
use loading::TableColumn;
use sqlvalue::Value;
use std::alloc::Global;
use std::marker::Model;
use std::ops::Bound;

/// An index of a table: the numbers of its columns, from 0, the order of its rows, and its statistics.
#[derive(Drop)]
pub struct Index {
    columns: Vec<usize>,
    order: IndexKind,
    statistics: IndexStatistics,
    /// The range that was counted, whatever statistics were given since.
    range: Option<KeyRange>,
}

impl Model for Index {
    ghost use Rattle.indexes.specs.Indexes.{StoredIndex};

    ghost Value = { StoredIndex };

    ghost use Rattle.indexes.specs.Inside.{stored_index, IsStoredIndex};

    ghost view = { stored_index };

    ghost invariant = { IsStoredIndex };
}

impl Index {
    /// The index on one to four columns of a table of so many rows, with its statistics counted over them. Where it is
    /// unique and a key comes again, tells of the first row that repeats one (ISO/IEC 9075:1992, 8.9).
    pub fn new(
        alloc: Global,
        columns: &[TableColumn],
        rows: usize,
        numbers: Vec<usize>,
        unique: bool,
    ) -> Result<Index, UniqueFault>
        requires on { AreIndexColumns (length columns.now) numbers.items }
        requires filled { AreFilled rows columns.now }
        requires few { rows ≤ most_rows }
        ensures ok { IfOk result (IsIndexOn (headers columns.now) (rows_of rows columns.now) numbers.items unique) }
        ensures refused { IfErr result (RefusesIndexOn (rows_of rows columns.now) numbers.items unique) }
    {
        let keys = match key_columns(alloc, columns, numbers.as_slice()) {
            Ok(keys) => keys,
            Err(_) => return Err(UniqueFault::Memory),
        };
        let order = match IndexKind::build(alloc, keys.as_slice(), unique) {
            Ok(order) => order,
            Err(fault) => return Err(fault),
        };
        let statistics = index_statistics(columns, rows, numbers.as_slice(), &order, 0, None);
        Ok(Index {
            columns: numbers,
            order,
            statistics,
            range: statistics.range,
        })
    }

    /// The index on the same columns with more rows behind those that this one has, with its statistics counted over all.
    pub fn with_further_rows(
        &self,
        alloc: Global,
        columns: &[TableColumn],
        rows: usize,
    ) -> Result<Index, UniqueFault>
        requires on { AreIndexColumns (length columns.now) self.now.index.columns }
        requires filled { AreFilled rows columns.now }
        requires few { rows ≤ most_rows }
        requires beginning { IsBeginning (rows_of rows columns.now) self.now }
        ensures ok { IfOk result (IsIndexOn (headers columns.now) (rows_of rows columns.now) self.now.index.columns
            self.now.index.unique) }
        ensures refused { IfErr result (RefusesIndexOn (rows_of rows columns.now) self.now.index.columns
            self.now.index.unique) }
    {
        let keys = match key_columns(alloc, columns, self.columns.as_slice()) {
            Ok(keys) => keys,
            Err(_) => return Err(UniqueFault::Memory),
        };
        let numbers = match Vec::from_slice(alloc, self.columns.as_slice()) {
            Ok(numbers) => numbers,
            Err(_) => return Err(UniqueFault::Memory),
        };
        let order = match self.order.with_further_rows(alloc, keys.as_slice()) {
            Ok(order) => order,
            Err(fault) => return Err(fault),
        };
        let statistics = index_statistics(
            columns,
            rows,
            numbers.as_slice(),
            &order,
            self.order.len(),
            self.range,
        );
        Ok(Index {
            columns: numbers,
            order,
            statistics,
            range: statistics.range,
        })
    }

    /// The numbers of the columns, from 0, the one that counts most first.
    pub fn columns(&self) -> &[usize]
        ensures { result.now ≡ self.now.index.columns }
    {
        self.columns.as_slice()
    }

    /// Whether no key comes twice.
    pub fn is_unique(&self) -> bool
        ensures { result ≡ self.now.index.unique }
    {
        self.order.is_unique()
    }

    /// Whether the index is on this list of columns.
    pub fn is_on(&self, columns: &[usize]) -> bool
        ensures { result ≡ spec.is_on columns.now self.now.index }
    {
        self.columns.as_slice() == columns
    }

    pub fn statistics(&self) -> IndexStatistics
        ensures { index_statistics_of result ≡ self.now.index.statistics }
    {
        self.statistics
    }

    /// Puts given statistics in place of those that stand.
    pub fn set_statistics(&mut self, statistics: IndexStatistics)
        ensures index { self.new.index ≡ record self.old.index { statistics = index_statistics_of statistics } }
        ensures entries { self.new.entries ≡ self.old.entries }
    {
        self.statistics = statistics;
    }
}

impl OrderedIndex for Index {
    ghost entries = { λ s. s.entries };

    ghost width = { λ s. length s.index.columns };

    fn all(&self) -> &[u32] {
        self.order.all()
    }

    fn equal(&self, values: &[Value]) -> &[u32] {
        self.order.equal(values)
    }

    fn range(&self, values: &[Value], low: Bound<Value>, high: Bound<Value>) -> &[u32] {
        self.order.range(values, low, high)
    }
}
