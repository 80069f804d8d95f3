//! The units of a column's numbers in a batch of rows.

ghost use Rattle.std.specs.Prelude.{◌≡◌, ◌≤◌, ◌<◌, [], true, false, All, FitsSigned, IfOk, IfSome, OnOk, Some, None, length, map};
ghost use Rattle.std.specs.Int.{w64};
ghost use Rattle.definitions.specs.Limits.{greatest_scale};
ghost use Rattle.definitions.specs.Value.{scale_of};
ghost use Rattle.columns.specs.Starts.{value_in};
ghost use Rattle.definitions.specs.Queries.Grouping.{taken};
ghost use Rattle.query_tree.specs.Bound.{column_of};
ghost use Rattle.grouping.specs.Batches.{AreHeld, AreUnitsOf};
ghost use Rattle.grouping.specs.Units.{numbers_at};

use crate::accumulator::is_null;
use columns::NumberColumn;
use query_tree::BlockColumn;
use result_lines::{RowBatch, unit_of};
use std::alloc::{AllocError, Global};

/// The greatest scale of numbers (own).
const GREATEST_SCALE: u8 = 18;

/// The units of the numbers in a column, nulls left out, and the column that they are of: set functions of one column, as AVG and MAX,
/// have it read once.
#[derive(Drop)]
pub struct ColumnUnits {
    held: Option<BlockColumn>,
    scale: u8,
    units: Vec<i64>,
}

impl ColumnUnits {
    /// Units of no column.
    pub fn new(alloc: Global) -> ColumnUnits
        ensures { result.held ≡ None }
    {
        ColumnUnits {
            held: None,
            scale: 0,
            units: Vec::new(alloc),
        }
    }

    /// Makes them those of no column, before other rows come.
    pub(crate) fn clear(&mut self)
        ensures { self.new.held ≡ None }
    {
        self.held = None;
    }

    /// The units.
    pub(crate) fn units(&self) -> &[i64]
        ensures { result.now ≡ self.now.units.items }
    {
        self.units.as_slice()
    }

    /// Makes them those of a column, and tells whether its values are all null or numbers of a scale, of 64 bits.
    pub(crate) fn read<B: RowBatch>(
        &mut self,
        batch: &B,
        column: BlockColumn,
        scale: u8,
    ) -> Result<bool, AllocError>
        requires table { column.table < B.width batch.now }
        requires held { AreHeld (B.environments batch.now) self.old }
        ensures held { OnOk result (AreHeld (B.environments batch.now) self.new) }
        ensures units { IfOk result (λ all. all ≡ true →
            AreUnitsOf (B.environments batch.now) (column_of column) self.new) }
        ensures scale { IfOk result (λ all. all ≡ true → self.new.scale ≡ scale) }
        ensures small { IfOk result (λ all. all ≡ true → scale ≤ greatest_scale) }
    {
        if scale > GREATEST_SCALE {
            return Ok(false);
        }
        if self.are_of(column, scale) {
            return Ok(true);
        }
        self.held = None;
        if !read_units(
            batch,
            column,
            scale,
            batch.rows(column.table),
            &mut self.units,
        )? {
            return Ok(false);
        }
        self.held = Some(column);
        self.scale = scale;
        Ok(true)
    }

    /// Whether they are those of a column, at a scale.
    fn are_of(&self, column: BlockColumn, scale: u8) -> bool
        ensures held { result ≡ true → self.now.held ≡ Some column }
        ensures scale { result ≡ true → self.now.scale ≡ scale }
    {
        match self.held {
            None => false,
            Some(held) => {
                held.table == column.table && held.number == column.number && self.scale == scale
            }
        }
    }
}

/// The units of the numbers that some rows have in a column, nulls left out; and whether its values are all null or numbers of a
/// scale, of 64 bits.
fn read_units<B: RowBatch>(
    batch: &B,
    column: BlockColumn,
    scale: u8,
    rows: &[u32],
    units: &mut Vec<i64>,
) -> Result<bool, AllocError>
    ensures numbers { IfOk result (λ all. all ≡ true → numbers_at scale units.new.items
        ≡ taken false (map (B.value_in batch.now (column_of column)) rows.now)) }
    ensures few { OnOk result (length units.new.items ≤ length rows.now) }
    ensures ranged { OnOk result (All (FitsSigned w64) units.new.items) }
{
    units.clear();
    units.reserve(rows.len())?;
    match batch.numbers(column) {
        Some(numbers) => {
            add_numbers(numbers, rows, units)?;
            Ok(numbers.scale() == scale)
        }
        None => add_cells(batch, column, scale, rows, units),
    }
}

/// Adds the units of the numbers that some rows have in a column of numbers, nulls left out.
fn add_numbers(numbers: &NumberColumn, rows: &[u32], units: &mut Vec<i64>) -> Result<(), AllocError>
    requires empty { units.old.items ≡ [] }
    ensures numbers { OnOk result (numbers_at (scale_of numbers.now.type) units.new.items
        ≡ taken false (map (value_in numbers.now) rows.now)) }
    ensures few { OnOk result (length units.new.items ≤ length rows.now) }
    ensures ranged { OnOk result (All (FitsSigned w64) units.new.items) }
{
    'rows: for row in rows {
        if let Some(unit) = numbers.units_in(*row as usize) {
            units.push(unit)?;
        }
    }
    Ok(())
}

/// Adds the same of any column, one value after another.
fn add_cells<B: RowBatch>(
    batch: &B,
    column: BlockColumn,
    scale: u8,
    rows: &[u32],
    units: &mut Vec<i64>,
) -> Result<bool, AllocError>
    requires empty { units.old.items ≡ [] }
    ensures numbers { IfOk result (λ all. all ≡ true → numbers_at scale units.new.items
        ≡ taken false (map (B.value_in batch.now (column_of column)) rows.now)) }
    ensures few { OnOk result (length units.new.items ≤ length rows.now) }
    ensures ranged { OnOk result (All (FitsSigned w64) units.new.items) }
{
    'rows: for row in rows {
        let value = batch.cell(column, *row as usize);
        if !is_null(&value) {
            let Some(unit) = unit_of(&value, scale) else {
                return Ok(false);
            };
            units.push(unit)?;
        }
    }
    Ok(true)
}
