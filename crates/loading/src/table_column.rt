//! A column of a table: its name, its type, its constraint and its values.

ghost use Rattle.std.specs.Prelude.{◌≡◌, ◌<◌, ◌≤◌, ◌+◌, ◌&&◌, [], Ok, Err, IfOk, IfErr, IfSome, IsNone, OnOk, OnErr, bytes_eq, length, not, slice_index_or};
ghost use Rattle.columns.specs.Columns.{cells_of};
ghost use Rattle.definitions.specs.Value as spec;
ghost use Rattle.definitions.specs.Loading.{ColumnLoads, FieldLoads, null_field};
ghost use Rattle.definitions.specs.Scanning.{part_of, true_word, unknown_word};
ghost use Rattle.definitions.specs.Table.{may_be_null};
ghost use Rattle.sqlvalue.specs.RefusalMeaning.{field_error_of};
ghost use Rattle.sqlvalue.specs.Meaning.{op_of, type_of, value_of};
ghost use Rattle.parse_tree.specs.Trees.{constraint_of};
ghost use Rattle.loading.specs.Meaning.{column_refusal};
ghost use Rattle.loading.specs.Stored.{named, with_value, cut_to};

use crate::cells;
use crate::fault::{ColumnFault, PushFault};
use crate::field::is_null;
use parse_tree::Constraint;
use sqlvalue::{ComparisonOperator, FieldFault, SqlType, Value};
use std::alloc::{AllocError, Global};
use std::marker::Model;

/// A column of a table: its name, its type, what is asked of its values, and these (ISO/IEC 9075:1992, 4.8).
#[derive(Drop)]
pub struct TableColumn {
    name: String,
    constraint: Constraint,
    cells: columns::Column,
}

impl Model for TableColumn {
    ghost use Rattle.parse_tree.specs.Trees.{constraint_of};
    ghost use Rattle.loading.specs.Stored.{StoredColumn};

    ghost Value = { StoredColumn };

    ghost use Rattle.loading.specs.Columns.{stored_column};

    ghost view = { stored_column };
}

impl TableColumn {
    ghost use Rattle.loading.specs.Cells.{IfRefused};

    /// A column without values. An `Err` is want of memory.
    pub fn new(
        alloc: Global,
        name: &str,
        sql_type: SqlType,
        constraint: Constraint,
    ) -> Result<TableColumn, AllocError>
        requires { spec.IsType (type_of sql_type) }
        ensures { IfOk result (λ c. c ≡ named name.now (constraint_of constraint)
            (record { type = type_of sql_type; values = [] })) }
    {
        Ok(TableColumn {
            name: String::from_str(alloc, name)?,
            constraint,
            cells: columns::Column::new(alloc, sql_type),
        })
    }

    /// The name that CREATE TABLE gave, in upper case.
    pub fn name(&self) -> &str
        ensures { result.now ≡ self.now.header.name }
    {
        self.name.as_str()
    }

    /// The type of the column's values.
    pub fn sql_type(&self) -> SqlType
        ensures { type_of result ≡ self.now.header.type }
    {
        self.cells.sql_type()
    }

    /// What is asked of the column's values (ISO/IEC 9075:1992, 4.10.2).
    pub fn constraint(&self) -> Constraint
        ensures { constraint_of result ≡ self.now.header.constraint }
    {
        self.constraint
    }

    /// Whether a value may be null (ISO/IEC 9075:1992, 11.7 and 11.8).
    fn may_be_null(&self) -> bool
        ensures { result ≡ may_be_null self.now.header.constraint }
    {
        matches!(self.constraint, Constraint::Nullable)
    }

    /// The column's cells, without its name.
    pub fn cells(&self) -> &columns::Column
        ensures { cells_of result.now ≡ record { type = self.now.header.type; values = self.now.values } }
    {
        &self.cells
    }

    /// The value in a row, from 0.
    pub fn cell(&self, row: usize) -> Value<'_>
        requires { row < length self.now.values }
        ensures { value_of result ≡ slice_index_or self.now.values row spec.Null }
    {
        self.cells.cell(row)
    }

    /// Of so many rows from `first` on, those in which a comparison of the column's value with another is true, and
    /// those in which it is unknown (ISO/IEC 9075:1992, 8.2): bit i of a word is set exactly where it is so in row
    /// `first + i`.
    pub fn scan(
        &self,
        op: ComparisonOperator,
        value: &Value,
        first: usize,
        rows: usize,
    ) -> (u64, u64)
        requires few { rows ≤ 64 }
        requires within { first + rows ≤ length self.now.values }
        ensures met { result.0 ≡ true_word (op_of op) (value_of value.now) (part_of first rows self.now.values) }
        ensures unknown { result.1 ≡ unknown_word (op_of op) (value_of value.now) (part_of first rows self.now.values) }
    {
        self.cells.scan(op, value, first, rows)
    }

    /// Adds the value that a field is stored as. An `Err` leaves the column as it was.
    pub(crate) fn push_field(&mut self, field: &[u8]) -> Result<(), PushFault<ColumnFault>>
        ensures ok { OnOk result ((v : spec.Value) × ColumnLoads self.old.header field.now (Ok v) ×
            (self.new ≡ with_value self.old v)) }
        ensures refused { IfErr result (IfRefused (λ f. ColumnLoads self.old.header field.now
            (Err (column_refusal f)))) }
        ensures err { OnErr result (self.new ≡ self.old) }
    {
        if self.refuses_null(field) {
            return Err(PushFault::Refused(ColumnFault::Null));
        }
        match self.push_value(field) {
            Ok(()) => Ok(()),
            Err(PushFault::Refused(fault)) => Err(PushFault::Refused(ColumnFault::Value(fault))),
            Err(PushFault::Memory) => Err(PushFault::Memory),
        }
    }

    /// Adds the value that a field is stored as, whether or not it may be null. An `Err` leaves the column as it was.
    fn push_value(&mut self, field: &[u8]) -> Result<(), PushFault<FieldFault>>
        ensures ok { OnOk result ((v : spec.Value) × FieldLoads self.old.header.type field.now (Ok v) ×
            (self.new ≡ with_value self.old v)) }
        ensures refused { IfErr result (IfRefused (λ f.
            FieldLoads self.old.header.type field.now (Err (field_error_of f)))) }
        ensures err { OnErr result (self.new ≡ self.old) }
    {
        cells::push_field(&mut self.cells, field)
    }

    /// Why a field does not load into the column, if it does not (own).
    pub fn judge(&self, field: &[u8]) -> Option<ColumnFault>
        ensures refused { IfSome result (λ f. ColumnLoads self.now.header field.now (Err (column_refusal f))) }
        ensures loads { IsNone result → (v : spec.Value) × ColumnLoads self.now.header field.now (Ok v) }
    {
        if self.refuses_null(field) {
            return Some(ColumnFault::Null);
        }
        match self.field_fault(field) {
            Some(fault) => Some(ColumnFault::Value(fault)),
            None => None,
        }
    }

    /// Whether a field is null and the column's values may not be.
    fn refuses_null(&self, field: &[u8]) -> bool
        ensures { result ≡ (not (may_be_null self.now.header.constraint) && bytes_eq field.now null_field) }
    {
        !self.may_be_null() && is_null(field)
    }

    /// Why a field is stored as no value of the column's type, if it isn't.
    fn field_fault(&self, field: &[u8]) -> Option<FieldFault>
        ensures refused { IfSome result (λ f. FieldLoads self.now.header.type field.now (Err (field_error_of f))) }
        ensures loads { IsNone result → (v : spec.Value) × FieldLoads self.now.header.type field.now (Ok v) }
    {
        cells::field_fault(&self.cells, field)
    }

    /// Keeps the first values alone, as many as `rows`.
    pub fn truncate(&mut self, rows: usize)
        requires { rows ≤ length self.old.values }
        ensures { self.new ≡ cut_to rows self.old }
    {
        self.cells.truncate(rows);
    }
}
