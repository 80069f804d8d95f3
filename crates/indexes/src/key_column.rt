//! A column of keys in their order, and look-ups in it.

ghost use Rattle.std.specs.Prelude.{ℕ, ◌≡◌, ◌<◌, ◌≤◌, ◌*◌, ◌&&◌, not, map, length, slice_index_or, IfOk, IfSome};
ghost use Rattle.std.specs.List.{AllByRecursion, range_with_len};
ghost use Rattle.std.specs.Int.{div_ceil};
ghost use Rattle.definitions.specs.Value.{is_null};
ghost use Rattle.definitions.specs.IndexRun.{is_from, is_up_to};
ghost use Rattle.columns.specs.Columns.{cells_of};
ghost use Rattle.columns.specs.Starts.{AreOrdered, IsHeld, Splits, limit_of, starts, value_in};
ghost use Rattle.indexes.specs.Keys.{gathered};
ghost use Rattle.indexes.specs.Merging.{IsCarried};
ghost use Rattle.indexes.specs.Stretches.{IsWithin, AreInOrder, is_within, turned_limit};

use crate::merging::KeyedRows;
use columns::{Column, LowerBound};
use sqlvalue::Value;
use std::alloc::{AllocError, Global};
use std::marker::Model;
use std::ops::Bound;

/// How many keys a page has (own).
const PAGE: usize = 256;

/// Places of keys that stand together: from one on, up to another.
#[derive(Clone, Copy)]
pub(crate) struct Stretch {
    pub from: usize,
    pub to: usize,
}

/// A column of the keys, and the values with which its pages begin.
#[derive(Drop)]
pub(crate) struct KeyColumn {
    values: Column,
    heads: Column,
}

impl Model for KeyColumn {
    ghost use Rattle.columns.specs.Cells.{CellList};

    ghost Value = { CellList };

    ghost use Rattle.indexes.specs.Pages.{paged_values, IsKeyColumn};

    ghost view = { paged_values };

    ghost invariant = { IsKeyColumn };
}

impl KeyColumn {
    /// The values that a column has in some rows, in their order. There may be a column that has those of the old rows:
    /// what stands together there is copied as it is.
    pub(crate) fn of_rows(
        alloc: Global,
        column: &Column,
        keyed: &KeyedRows,
        old: Option<&KeyColumn>,
    ) -> Result<KeyColumn, AllocError>
        requires { IfSome old (λ kept. IsCarried keyed.now (cells_of column.now) kept.now) }
        ensures { IfOk result (λ keys. keys ≡ gathered keyed.now.rows.items (cells_of column.now)) }
    {
        let values = match old {
            Some(old) if old.values.sql_type() == column.sql_type() => {
                woven(alloc, &old.values, column, keyed)?
            }
            _ => every(alloc, column, keyed.rows.as_slice(), 1)?,
        };
        let heads = every(alloc, column, keyed.rows.as_slice(), PAGE)?;
        Ok(KeyColumn { values, heads })
    }

    /// Of a stretch in which the values are in order, the places of those that are not null and lie from one bound to
    /// another (ISO/IEC 9075:1992, 8.2).
    pub(crate) fn range(&self, low: Bound<Value>, high: Bound<Value>, within: Stretch) -> Stretch
        requires forward { within.from ≤ within.to }
        requires inside { within.to ≤ length self.now.values }
        requires ordered { AreInOrder self.now within }
        ensures inside { IsWithin result within }
        ensures exact { (place : ℕ) → within.from ≤ place → place < within.to →
            is_within result place ≡ (not (is_null (value_in self.now place)) &&
            is_from (limit_of low.entry) (value_in self.now place) &&
            is_up_to (limit_of high.entry) (value_in self.now place)) }
    {
        let Some(start) = self.values.start(low) else {
            return Stretch {
                to: within.from,
                ..within
            };
        };
        let Some(end) = self.values.start(opposite_limit(high)) else {
            return Stretch {
                to: within.from,
                ..within
            };
        };
        let from = self.first_from(&start, within);
        let rest = Stretch { from, ..within };
        match high {
            Bound::Unbounded => rest,
            _ => Stretch {
                from,
                to: self.first_near(&end, rest),
            },
        }
    }

    /// Of a stretch in which the values from a limit on stand last, the first such place.
    fn first_from(&self, start: &LowerBound, within: Stretch) -> usize
        requires forward { within.from ≤ within.to }
        requires inside { within.to ≤ length self.now.values }
        requires ordered { AreOrdered (λ place. starts start.now (value_in self.now place)) within.from within.to }
        ensures { Splits (λ place. starts start.now (value_in self.now place)) within.from within.to result }
    {
        let first = within.from / PAGE + 1;
        let end = within.to.div_ceil(PAGE);
        if end <= first {
            return self.values.first_from(start, within.from, within.to);
        }
        let page = self.heads.first_from(start, first, end);
        let from = within.from.max((page - 1) * PAGE);
        let to = within.to.min(page.saturating_mul(PAGE));
        self.values.first_from(start, from, to)
    }

    /// The same, found from the stretch's beginning by steps that double.
    fn first_near(&self, start: &LowerBound, within: Stretch) -> usize
        requires forward { within.from ≤ within.to }
        requires inside { within.to ≤ length self.now.values }
        requires ordered { AreOrdered (λ place. starts start.now (value_in self.now place)) within.from within.to }
        ensures { Splits (λ place. starts start.now (value_in self.now place)) within.from within.to result }
    {
        let mut from = within.from;
        let mut step = 1;
        while step < within.to - from {
            if self.values.starts(start, from + step - 1) {
                return self.values.first_from(start, from, from + step - 1);
            }
            from += step;
            step = step.saturating_mul(2);
        }
        self.values.first_from(start, from, within.to)
    }
}

/// The limit from which on values aren't up to a bound any more.
fn opposite_limit<'a>(bound: Bound<Value<'a>>) -> Bound<Value<'a>>
    ensures { limit_of result ≡ turned_limit (limit_of bound.entry) }
{
    match bound {
        Bound::Unbounded => Bound::Unbounded,
        Bound::Included(value) => Bound::Excluded(value),
        Bound::Excluded(value) => Bound::Included(value),
    }
}

/// The values that a column has in some rows: those of another one, with those of the further rows at their places.
fn woven(
    alloc: Global,
    old: &Column,
    column: &Column,
    keyed: &KeyedRows,
) -> Result<Column, AllocError>
    requires alike { (cells_of old.now).type ≡ (cells_of column.now).type }
    requires held { AllByRecursion (IsHeld (cells_of old.now).type) (cells_of old.now).values }
    requires carried { IsCarried keyed.now (cells_of column.now) (cells_of old.now) }
    ensures held { IfOk result (λ taken. AllByRecursion (IsHeld (cells_of taken).type) (cells_of taken).values) }
    ensures values { IfOk result (λ taken. cells_of taken ≡ gathered keyed.now.rows.items (cells_of column.now)) }
{
    let mut taken = Column::like(alloc, column);
    let mut from = 0;
    for (place, row) in keyed.further.iter().enumerate() {
        let to = keyed.places[place];
        taken.extend_from(old, from, to)?;
        taken.push_from(column, *row as usize)?;
        from = to;
    }
    taken.extend_from(old, from, old.len())?;
    Ok(taken)
}

/// The values that a column has in every so-many-th of some rows.
fn every(alloc: Global, column: &Column, rows: &[u32], step: usize) -> Result<Column, AllocError>
    requires { 0 < step }
    ensures held { IfOk result (λ taken. AllByRecursion (IsHeld (cells_of taken).type) (cells_of taken).values) }
    ensures values { IfOk result (λ taken. cells_of taken ≡ record (cells_of column.now) {
      values = map (λ place. value_in (cells_of column.now) (slice_index_or rows.now (place * step) 0))
          (range_with_len 0 (div_ceil (length rows.now) step));
    }) }
{
    let mut taken = Column::like(alloc, column);
    for place in 0..rows.len().div_ceil(step) {
        taken.push_from(column, rows[place * step] as usize)?;
    }
    Ok(taken)
}
