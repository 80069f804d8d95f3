//! Rows of a batch whose result columns are columns of tables.

ghost use Rattle.std.specs.Prelude.{◌≡◌, ◌++◌, [], ◌∷◌, ◌<◌, Some, flat_map, length, slice_get, true, FitsSigned, IfSome, OnOk};
ghost use Rattle.std.specs.Int.{w64};
ghost use Rattle.std.specs.List.{AllByRecursion};
ghost use Rattle.definitions.specs.Printing.{row_line, value_text};
ghost use Rattle.definitions.specs.Value.{Number, Value as ValueOf};
ghost use Rattle.definitions.specs.Queries.Evaluation as meaning;
ghost use Rattle.definitions.specs.Arithmetic.{Is};
ghost use Rattle.query_tree.specs.Bound.{value_of};
ghost use Rattle.sqlvalue.specs.Meaning as sql;
ghost use Rattle.definitions_answers.specs.Lines.{IsInBounds};
ghost use Rattle.result_lines.specs.Batches.{rows_in, rows_of_column, GivesColumnOf, IsColumnOf};
ghost use Rattle.result_lines.specs.RowAt.{items_of, row_in};

use crate::printed_field::write_field;
use crate::row_batch::RowBatch;
use crate::seen_units::unit_of;
use crate::unit_lines;
use columns::NumberColumn;
use query_tree::{Item, ValueExpr};
use sqlvalue::Value;
use std::alloc::AllocError;

/// Whether each result column is a column of one of so many tables.
pub fn are_columns_of(items: &[Item], width: usize) -> bool
    ensures { result ≡ true → AllByRecursion (GivesColumnOf width) (items_of items.now) }
{
    'items: for item in items {
        if !is_of_column(&item.value, width) {
            return false;
        }
    }
    true
}

/// Whether a value is a column of one of so many tables.
fn is_of_column(value: &ValueExpr, width: usize) -> bool
    ensures { result ≡ true → IsColumnOf width (value_of value.now) }
{
    match value {
        ValueExpr::Column { column, .. } => column.table < width,
        _ => false,
    }
}

/// The rows of a batch, whose result columns are columns, as they are printed.
pub fn write_rows<B: RowBatch>(
    out: &mut Vec<u8>,
    items: &[Item],
    batch: &B,
) -> Result<(), AllocError>
    requires { AllByRecursion (GivesColumnOf (B.width batch.now)) (items_of items.now) }
    ensures { OnOk result (out.new.items
        ≡ out.old.items ++ flat_map row_line (rows_in (items_of items.now) (B.environments batch.now))) }
{
    if let Some((numbers, rows)) = only_numbers(items, batch) {
        return unit_lines::write_column(out, numbers, rows);
    }
    'places: for place in 0..batch.len() {
        write_columns(out, items, batch, place)?;
    }
    Ok(())
}

/// The column of numbers that alone is printed, where a batch lends it, and which of its rows are.
fn only_numbers<'a, B: RowBatch>(
    items: &[Item],
    batch: &'a B,
) -> Option<(&'a NumberColumn, &'a [u32])>
    requires { AllByRecursion (GivesColumnOf (B.width batch.now)) (items_of items.now) }
    ensures { IfSome result (λ lent. rows_of_column lent.0.now lent.1.now
        ≡ rows_in (items_of items.now) (B.environments batch.now)) }
{
    let [item] = items else {
        return None;
    };
    let ValueExpr::Column { column, .. } = &item.value else {
        return None;
    };
    let numbers = batch.numbers(*column)?;
    Some((numbers, batch.rows(column.table)))
}

/// The row at a place of a batch.
pub fn write_columns<B: RowBatch>(
    out: &mut Vec<u8>,
    items: &[Item],
    batch: &B,
    place: usize,
) -> Result<(), AllocError>
    requires columns { AllByRecursion (GivesColumnOf (B.width batch.now)) (items_of items.now) }
    requires within { place < length (B.environments batch.now) }
    ensures text { OnOk result ((env : meaning.Environment) → slice_get (B.environments batch.now) place ≡ Some env →
        out.new.items ≡ out.old.items ++ row_line (row_in env (items_of items.now))) }
    ensures bounded { OnOk result ((env : meaning.Environment) →
        slice_get (B.environments batch.now) place ≡ Some env →
        AllByRecursion IsInBounds (row_in env (items_of items.now))) }
{
    'items: for (i, item) in items.iter().enumerate() {
        if i > 0 {
            out.push(b'|')?;
        }
        write_column(out, &item.value, batch, place)?;
    }
    out.push(b'\n')?;
    Ok(())
}

/// The value of a column in the row at a place of a batch.
fn write_column<B: RowBatch>(
    out: &mut Vec<u8>,
    value: &ValueExpr,
    batch: &B,
    place: usize,
) -> Result<(), AllocError>
    requires column { IsColumnOf (B.width batch.now) (value_of value.now) }
    requires within { place < length (B.environments batch.now) }
    ensures { OnOk result ((env : meaning.Environment) → slice_get (B.environments batch.now) place ≡ Some env →
        (v : ValueOf) × (meaning.value env (value_of value.now) ≡ Is v) × IsInBounds v
        × (out.new.items ≡ out.old.items ++ value_text v)) }
{
    write_field(out, &value_at(value, batch, place))
}

/// The units of the number that is alone in the row at a place of a batch, where it has a scale, and they no more than 64 bits.
pub fn only_unit<B: RowBatch>(items: &[Item], batch: &B, place: usize, scale: u8) -> Option<i64>
    requires columns { AllByRecursion (GivesColumnOf (B.width batch.now)) (items_of items.now) }
    requires within { place < length (B.environments batch.now) }
    ensures row { IfSome result (λ unit. (env : meaning.Environment) →
        slice_get (B.environments batch.now) place ≡ Some env →
        row_in env (items_of items.now) ≡ Number unit scale ∷ []) }
    ensures ranged { IfSome result (FitsSigned w64) }
{
    match items {
        [item] => unit_of(&value_at(&item.value, batch, place), scale),
        _ => None,
    }
}

/// What a column has in the row at a place of a batch.
fn value_at<'a, B: RowBatch>(value: &ValueExpr, batch: &'a B, place: usize) -> Value<'a>
    requires column { IsColumnOf (B.width batch.now) (value_of value.now) }
    requires within { place < length (B.environments batch.now) }
    ensures { (env : meaning.Environment) → slice_get (B.environments batch.now) place ≡ Some env →
        meaning.value env (value_of value.now) ≡ Is (sql.value_of result) }
{
    match value {
        ValueExpr::Column { column, .. } => {
            let row = batch.rows(column.table)[place];
            batch.cell(*column, row as usize)
        }
        _ => unreachable!(),
    }
}
