//! A column of numbers or of texts, behind one interface.

ghost use Rattle.std.specs.Prelude.{◌≡◌, ◌<◌, ◌≤◌, ◌+◌, ◌-◌, ◌∷◌, ◌++◌, ◌&&◌, not, [], take, length, slice_index_or, IfSome, IsNone, OnOk, OnErr};
ghost use Rattle.definitions.specs.Value as spec;
ghost use Rattle.definitions.specs.Value.{is_null as is_null_value};
ghost use Rattle.definitions.specs.IndexRun.{is_from};
ghost use Rattle.definitions.specs.Scanning.{part_of, true_word, unknown_word};
ghost use Rattle.sqlvalue.specs.Meaning.{op_of, type_of, value_of};
ghost use Rattle.columns.specs.Columns.{cells_of};
ghost use Rattle.columns.specs.Starts.{limit_of, starts, IsHeld, AreApart, AreMet, value_in, Splits, AreOrdered};

use crate::lower_bound::LowerBound;
use crate::number::NumberColumn;
use crate::text::TextColumn;
use sqlvalue::{ComparisonOperator, SqlType, Value};
use std::alloc::{AllocError, Global};
use std::cmp::Ordering;
use std::ops::Bound;

/// The cells of a column, by their kind.
#[derive(Drop)]
pub enum Column {
    Numbers(NumberColumn),
    Texts(TextColumn),
}

impl Column {
    /// A column of a type, without cells.
    pub fn new(alloc: Global, sql_type: SqlType) -> Column
        requires { spec.IsType (type_of sql_type) }
        ensures { cells_of result ≡ record { type = type_of sql_type; values = [] } }
    {
        match sql_type {
            SqlType::Char { length } => Column::Texts(TextColumn::new(alloc, length)),
            SqlType::Smallint | SqlType::Integer | SqlType::Numeric { .. } => {
                Column::Numbers(NumberColumn::new(alloc, sql_type))
            }
        }
    }

    /// A column of another's type, without cells.
    pub fn like(alloc: Global, other: &Column) -> Column
        ensures { cells_of result ≡ record { type = (cells_of other.now).type; values = [] } }
    {
        match other {
            Column::Numbers(column) => Column::Numbers(NumberColumn::new(alloc, column.sql_type())),
            Column::Texts(column) => Column::Texts(TextColumn::new(alloc, column.length())),
        }
    }

    /// The type of the column's values.
    pub fn sql_type(&self) -> SqlType
        ensures { type_of result ≡ (cells_of self.now).type }
    {
        match self {
            Column::Numbers(column) => column.sql_type(),
            Column::Texts(column) => SqlType::Char {
                length: column.length(),
            },
        }
    }

    /// The value in a row, from 0.
    pub fn cell(&self, row: usize) -> Value<'_>
        requires { row < length (cells_of self.now).values }
        ensures { value_of result ≡ slice_index_or (cells_of self.now).values row spec.Null }
    {
        match self {
            Column::Numbers(column) => column.cell(row),
            Column::Texts(column) => column.cell(row),
        }
    }

    /// Of so many rows from `first` on, those in which a comparison of the column's value with another is true, and
    /// those in which it is unknown (ISO/IEC 9075:1992, 8.2): bit i of a word is set exactly where it is so in row
    /// `first + i`.
    pub fn scan(
        &self,
        op: ComparisonOperator,
        value: &Value,
        first: usize,
        rows: usize,
    ) -> (u64, u64)
        requires few { rows ≤ 64 }
        requires within { first + rows ≤ length (cells_of self.now).values }
        ensures met { result.0 ≡ true_word (op_of op) (value_of value.now)
            (part_of first rows (cells_of self.now).values) }
        ensures unknown { result.1 ≡ unknown_word (op_of op) (value_of value.now)
            (part_of first rows (cells_of self.now).values) }
    {
        match self {
            Column::Numbers(column) => column.scan(op, value, first, rows),
            Column::Texts(column) => column.scan(op, value, first, rows),
        }
    }

    /// How many rows there are.
    pub fn len(&self) -> usize
        ensures { result ≡ length (cells_of self.now).values }
    {
        match self {
            Column::Numbers(column) => column.len(),
            Column::Texts(column) => column.len(),
        }
    }

    /// Whether the value in a row is null. A row past the end has null (own).
    pub fn is_null(&self, row: usize) -> bool
        ensures { result ≡ is_null_value (value_in (cells_of self.now) row) }
    {
        match self {
            Column::Numbers(column) => column.is_null(row),
            Column::Texts(column) => column.is_null(row),
        }
    }

    /// How the values in two rows rank: null before all others (ISO/IEC 9075:1992, 13.1, which leaves it open whether
    /// nulls sort first or last; that they are first is own). A row past the end has null (own).
    pub fn rank(&self, a: usize, b: usize) -> Ordering
        ensures { result ≡ spec.rank (value_in (cells_of self.now) a) (value_in (cells_of self.now) b) }
    {
        match self {
            Column::Numbers(column) => column.rank(a, b),
            Column::Texts(column) => column.rank(a, b),
        }
    }

    /// Adds the value that another column of the same type has in a row. An `Err` leaves the column as it was.
    pub fn push_from(&mut self, other: &Column, row: usize) -> Result<(), AllocError>
        requires alike { (cells_of self.old).type ≡ (cells_of other.now).type }
        ensures ok { OnOk result (cells_of self.new ≡ record
            (cells_of self.old) { values = (cells_of self.old).values ++ value_in (cells_of other.now) row ∷ [] }) }
        ensures err { OnErr result (cells_of self.new ≡ cells_of self.old) }
        ensures held { OnOk result (IsHeld (cells_of other.now).type (value_in (cells_of other.now) row)) }
    {
        match (self, other) {
            (Column::Numbers(column), Column::Numbers(other)) => column.push_from(other, row),
            (Column::Texts(column), Column::Texts(other)) => column.push_from(other, row),
            _ => Err(AllocError),
        }
    }

    /// Adds the values that another column of the same type has in the rows from one on up to another, copied as they
    /// stand there together. An `Err` leaves the column as it was.
    pub fn extend_from(&mut self, other: &Column, from: usize, to: usize) -> Result<(), AllocError>
        requires alike { (cells_of self.old).type ≡ (cells_of other.now).type }
        requires forward { from ≤ to }
        requires within { to ≤ length (cells_of other.now).values }
        ensures ok { OnOk result (cells_of self.new ≡ record (cells_of self.old) {
          values = (cells_of self.old).values ++
              part_of from (to - from) (cells_of other.now).values;
        }) }
        ensures err { OnErr result (cells_of self.new ≡ cells_of self.old) }
    {
        if from == to {
            return Ok(());
        }
        match (self, other) {
            (Column::Numbers(column), Column::Numbers(other)) => {
                column.extend_from(other, from, to)
            }
            (Column::Texts(column), Column::Texts(other)) => column.extend_from(other, from, to),
            _ => Err(AllocError),
        }
    }

    /// The values from a limit on, nulls being none of them, made ready for look-ups in columns of this type; `None`
    /// where no value of the column compares with the limit's, which is null or of the other kind
    /// (ISO/IEC 9075:1992, 8.2).
    pub fn start<'a>(&self, limit: Bound<Value<'a>>) -> Option<LowerBound<'a>>
        ensures some { IfSome result (λ start. (cell : spec.Value) → IsHeld (cells_of self.now).type cell →
            starts start cell ≡ (not (is_null_value cell) && is_from (limit_of limit.entry) cell)) }
        ensures meets { IfSome result (λ start. AreMet (cells_of self.now).type (limit_of limit.entry)) }
        ensures none { IsNone result → AreApart (cells_of self.now).type (limit_of limit.entry) }
    {
        match self {
            Column::Numbers(column) => column.start(limit),
            Column::Texts(column) => column.start(limit),
        }
    }

    /// Whether the value in a row is one of those from a limit on (own).
    pub fn starts(&self, start: &LowerBound, row: usize) -> bool
        ensures { result ≡ starts start.now (value_in (cells_of self.now) row) }
    {
        match self {
            Column::Numbers(column) => column.starts(start, row),
            Column::Texts(column) => column.starts(start, row),
        }
    }

    /// Of the rows from `first` up to `end`, of which those from a limit on stand last, the first such one; `end` where
    /// there is none (own).
    pub fn first_from(&self, start: &LowerBound, first: usize, end: usize) -> usize
        requires forward { first ≤ end }
        requires ordered { AreOrdered (λ row. starts start.now (value_in (cells_of self.now) row)) first end }
        ensures { Splits (λ row. starts start.now (value_in (cells_of self.now) row)) first end result }
    {
        let mut low = first;
        let mut high = end;
        while low < high {
            let middle = low + (high - low) / 2;
            if self.starts(start, middle) {
                high = middle;
            } else {
                low = middle + 1;
            }
        }
        low
    }

    /// Keeps the first rows alone, as many as `rows`.
    pub fn truncate(&mut self, rows: usize)
        requires { rows ≤ length (cells_of self.old).values }
        ensures { cells_of self.new ≡ record (cells_of self.old) { values = take rows (cells_of self.old).values } }
    {
        match self {
            Column::Numbers(column) => column.truncate(rows),
            Column::Texts(column) => column.truncate(rows),
        }
    }
}
