//! From fields of a file to cells of a column.

ghost use Rattle.std.specs.Prelude.{◌≡◌, Ok, Err, OnOk, OnErr, IfErr, IfSome, IsNone};
ghost use Rattle.columns.specs.Columns.{cells_of};
ghost use Rattle.definitions.specs.Loading.{FieldLoads};
ghost use Rattle.definitions.specs.Value as spec;
ghost use Rattle.sqlvalue.specs.RefusalMeaning.{field_error_of};
ghost use Rattle.loading.specs.Cells.{PushesField, RefusesField};

use crate::fault::PushFault;
use crate::field::{number_cell, text_cell};
use columns::{Column, NumberColumn, TextColumn};
use sqlvalue::FieldFault;

/// Adds the value that a field is stored as. An `Err` leaves the column as it was.
pub(crate) fn push_field(column: &mut Column, field: &[u8]) -> Result<(), PushFault<FieldFault>>
    ensures ok { OnOk result (PushesField field.now (cells_of column.old) (cells_of column.new)) }
    ensures refused { IfErr result (RefusesField field.now (cells_of column.old)) }
    ensures err { OnErr result (cells_of column.new ≡ cells_of column.old) }
{
    match column {
        Column::Numbers(column) => push_number(column, field),
        Column::Texts(column) => push_text(column, field),
    }
}

fn push_number(column: &mut NumberColumn, field: &[u8]) -> Result<(), PushFault<FieldFault>>
    ensures ok { OnOk result (PushesField field.now column.old column.new) }
    ensures refused { IfErr result (RefusesField field.now column.old) }
    ensures err { OnErr result (column.new ≡ column.old) }
{
    match number_cell(field, column.sql_type()) {
        Ok(units) => column.push(units).map_err(|_| PushFault::Memory),
        Err(fault) => Err(PushFault::Refused(fault)),
    }
}

fn push_text(column: &mut TextColumn, field: &[u8]) -> Result<(), PushFault<FieldFault>>
    ensures ok { OnOk result (PushesField field.now column.old column.new) }
    ensures refused { IfErr result (RefusesField field.now column.old) }
    ensures err { OnErr result (column.new ≡ column.old) }
{
    match text_cell(field, usize::from(column.length())) {
        Ok(text) => column.push(text).map_err(|_| PushFault::Memory),
        Err(fault) => Err(PushFault::Refused(fault)),
    }
}

/// Why a field is stored as no value of a column, if it isn't.
pub(crate) fn field_fault(column: &Column, field: &[u8]) -> Option<FieldFault>
    ensures refused { IfSome result (λ f. FieldLoads (cells_of column.now).type field.now (Err (field_error_of f))) }
    ensures loads { IsNone result → (v : spec.Value) × FieldLoads (cells_of column.now).type field.now (Ok v) }
{
    match column {
        Column::Numbers(column) => number_fault(column, field),
        Column::Texts(column) => text_fault(column, field),
    }
}

fn number_fault(column: &NumberColumn, field: &[u8]) -> Option<FieldFault>
    ensures refused { IfSome result (λ f. FieldLoads column.now.type field.now (Err (field_error_of f))) }
    ensures loads { IsNone result → (v : spec.Value) × FieldLoads column.now.type field.now (Ok v) }
{
    match number_cell(field, column.sql_type()) {
        Ok(_) => None,
        Err(fault) => Some(fault),
    }
}

fn text_fault(column: &TextColumn, field: &[u8]) -> Option<FieldFault>
    ensures refused { IfSome result (λ f. FieldLoads column.now.type field.now (Err (field_error_of f))) }
    ensures loads { IsNone result → (v : spec.Value) × FieldLoads column.now.type field.now (Ok v) }
{
    match text_cell(field, usize::from(column.length())) {
        Ok(_) => None,
        Err(fault) => Some(fault),
    }
}
