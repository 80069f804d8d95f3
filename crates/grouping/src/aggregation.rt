//! Set functions of the values of a group, each taken once under DISTINCT.

ghost use Rattle.std.specs.Prelude.{◌≡◌, ◌++◌, [], ◌∷◌, List, false, ◌<◌, is_some, length, map, IfOk, OnOk};
ghost use Rattle.std.specs.List.{AllByRecursion};
ghost use Rattle.definitions.specs.Statement.{Count};
ghost use Rattle.definitions.specs.Value as spec;
ghost use Rattle.definitions.specs.Queries.Grouping.{aggregate, taken};
ghost use Rattle.sqlvalue.specs.Meaning.{value_of};
ghost use Rattle.parse_tree.specs.Trees.{function_of};
ghost use Rattle.query_tree.specs.Bound.{column_of};
ghost use Rattle.result_lines.specs.Batches.{column_values};
ghost use Rattle.grouping.specs.Batches.{AreHeld};
ghost use Rattle.definitions_answers.specs.Lines.{IsInBounds};
ghost use Rattle.definitions_answers.specs.Shapes.{HasShape, IsThere, Shape, Sums};
ghost use Rattle.grouping.specs.Accumulating.{MayEnd};
ghost use Rattle.grouping.specs.Aggregating.{chosen, Aggregates, MayBeNoted};

use crate::accumulator::{Accumulator, is_null};
use crate::column_units::ColumnUnits;
use crate::distinct_values::DistinctValues;
use parse_tree::SetFunction;
use query_tree::BlockColumn;
use result_lines::RowBatch;
use sqlvalue::{Raise, Value};
use std::alloc::{AllocError, Global};

/// A set function of the values so far (ISO/IEC 9075:1992, 6.5). Under DISTINCT it has those that came before.
#[derive(Drop)]
pub struct Aggregation {
    running: Accumulator,
    seen: Option<DistinctValues>,
}

impl Aggregation {
    /// A set function that has taken no value yet.
    pub fn new(alloc: Global, function: SetFunction, distinct: bool) -> Aggregation
        ensures function { result.running.function ≡ function }
        ensures distinct { is_some result.seen ≡ distinct }
        ensures nothing { (shape : Shape) → Aggregates shape [] result }
    {
        Aggregation {
            running: Accumulator::new(function),
            seen: DistinctValues::if_distinct(alloc, distinct),
        }
    }

    /// Takes a value in, unless it is null.
    pub fn take(&mut self, alloc: Global, value: &Value) -> Result<(), AllocError>
        ensures function { self.new.running.function ≡ self.old.running.function }
        ensures distinct { is_some self.new.seen ≡ is_some self.old.seen }
        ensures taken { OnOk result ((shape : Shape) (vs : List spec.Value) →
            Sums (function_of self.old.running.function) shape → HasShape shape (value_of value.now) →
            AllByRecursion (IsThere shape) vs → Aggregates shape vs self.old →
            Aggregates shape (vs ++ taken false (value_of value.now ∷ [])) self.new) }
    {
        if is_null(value) {
            return Ok(());
        }
        if self.is_new(alloc, value)? {
            self.running.take(alloc, value)?;
        }
        Ok(())
    }

    /// Takes the values of a column in, nulls left out: by their units where they are numbers, and else one after another.
    pub fn take_column<B: RowBatch>(
        &mut self,
        alloc: Global,
        batch: &B,
        column: BlockColumn,
        scale: u8,
        units: &mut ColumnUnits,
    ) -> Result<(), AllocError>
        requires table { column.table < B.width batch.now }
        requires held { AreHeld (B.environments batch.now) units.old }
        ensures held { OnOk result (AreHeld (B.environments batch.now) units.new) }
        ensures function { self.new.running.function ≡ self.old.running.function }
        ensures distinct { is_some self.new.seen ≡ is_some self.old.seen }
        ensures taken { OnOk result ((shape : Shape) (vs : List spec.Value) →
            Sums (function_of self.old.running.function) shape →
            AllByRecursion (HasShape shape) (column_values (B.environments batch.now) (column_of column)) →
            AllByRecursion (IsThere shape) vs → Aggregates shape vs self.old → Aggregates shape
            (vs ++ taken false (column_values (B.environments batch.now) (column_of column))) self.new) }
    {
        if self.seen.is_some() {
            return self.take_cells(alloc, batch, column, batch.rows(column.table));
        }
        if !units.read(batch, column, scale)? {
            return self.take_cells(alloc, batch, column, batch.rows(column.table));
        }
        self.running.take_units(units.units(), scale)
    }

    /// Takes the values of a column in some rows in, one after another.
    fn take_cells<B: RowBatch>(
        &mut self,
        alloc: Global,
        batch: &B,
        column: BlockColumn,
        rows: &[u32],
    ) -> Result<(), AllocError>
        ensures function { self.new.running.function ≡ self.old.running.function }
        ensures distinct { is_some self.new.seen ≡ is_some self.old.seen }
        ensures taken { OnOk result ((shape : Shape) (vs : List spec.Value) →
            Sums (function_of self.old.running.function) shape →
            AllByRecursion (HasShape shape) (map (B.value_in batch.now (column_of column)) rows.now) →
            AllByRecursion (IsThere shape) vs → Aggregates shape vs self.old → Aggregates shape
            (vs ++ taken false (map (B.value_in batch.now (column_of column)) rows.now)) self.new) }
    {
        'rows: for row in rows {
            self.take(alloc, &batch.cell(column, *row as usize))?;
        }
        Ok(())
    }

    /// Takes in so many values that are not null, where they are counted, repeats too.
    pub fn count_more(&mut self, count: u64) -> Result<(), AllocError>
        ensures function { self.new.running.function ≡ self.old.running.function }
        ensures distinct { is_some self.new.seen ≡ is_some self.old.seen }
        ensures taken { OnOk result ((shape : Shape) (vs more : List spec.Value) →
            function_of self.old.running.function ≡ Count → is_some self.old.seen ≡ false → length more ≡ count →
            AllByRecursion IsInBounds more → Aggregates shape vs self.old → Aggregates shape (vs ++ more) self.new) }
    {
        self.running.count_more(count)
    }

    /// Notes a value that is not null, and tells whether it did not come before; without DISTINCT each counts as new.
    fn is_new(&mut self, alloc: Global, value: &Value) -> Result<bool, AllocError>
        ensures running { self.new.running ≡ self.old.running }
        ensures noted { IfOk result (λ new. MayBeNoted self.old.seen self.new.seen new (value_of value.now)) }
        ensures distinct { is_some self.new.seen ≡ is_some self.old.seen }
    {
        match &mut self.seen {
            None => Ok(true),
            Some(seen) => seen.add(alloc, value),
        }
    }

    /// The function's value, or what it raises at its place.
    pub fn end(&self, place: usize) -> Result<Value<'_>, Raise>
        ensures { (shape : Shape) (vs : List spec.Value) → Sums (function_of self.now.running.function) shape →
            AllByRecursion (IsThere shape) vs → Aggregates shape vs self.now →
            MayEnd (aggregate (function_of self.now.running.function) (chosen (is_some self.now.seen) vs)) result }
    {
        self.running.end(place)
    }
}
