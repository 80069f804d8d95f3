//! A column of numbers: 64-bit units at the column's scale, and its null bits.

ghost use Rattle.std.specs.Prelude.{◌&&◌, not, IsNone, ◌≡◌, ◌<◌, ◌≤◌, ◌+◌, ◌-◌, ◌∷◌, [], ◌++◌, length, map, take, All, FitsSigned, IfSome, OnOk, OnErr, slice_index_or};
ghost use Rattle.std.specs.Int.{w64};
ghost use Rattle.definitions.specs.Value as spec;
ghost use Rattle.definitions.specs.Scanning.{part_of, true_word, unknown_word, word_of};
ghost use Rattle.sqlvalue.specs.Meaning.{op_of, type_of, value_of};
ghost use Rattle.columns.specs.Cells.{number_or_null};
ghost use Rattle.columns.specs.Ranges.{is_in};
ghost use Rattle.definitions.specs.Value.{is_null as is_null_value};
ghost use Rattle.definitions.specs.IndexRun.{is_from};
ghost use Rattle.columns.specs.Starts.{limit_of, starts, IsHeld, AreApart, AreMet, value_in};

use crate::lower_bound::LowerBound;
use crate::null_bits::NullBits;
use crate::range::{UnitRange, nearest, range_of};
use crate::units::units_within;
use crate::words::all_rows;
use sqlvalue::{ComparisonOperator, Num, SqlType, Value};
use std::alloc::{AllocError, Global};
use std::cmp::Ordering;
use std::marker::Model;
use std::ops::Bound;

/// A column of numbers: units at the column's scale, and which of them are null. A null's units are 0.
#[derive(Drop)]
pub struct NumberColumn {
    sql_type: SqlType,
    units: Vec<i64>,
    nulls: NullBits,
}

impl Model for NumberColumn {
    ghost use Rattle.columns.specs.Cells.{CellList};

    ghost Value = { CellList };

    ghost use Rattle.columns.specs.Numbers.{number_list, IsNumberColumn};

    ghost view = { number_list };

    ghost invariant = { IsNumberColumn };
}

impl NumberColumn {
    /// A column of a type of numbers, without rows.
    pub fn new(alloc: Global, sql_type: SqlType) -> NumberColumn
        requires numbers { spec.kind_of (type_of sql_type) ≡ spec.Numbers }
        requires valid { spec.IsType (type_of sql_type) }
        ensures { result ≡ record { type = type_of sql_type; values = [] } }
    {
        NumberColumn {
            sql_type,
            units: Vec::new(alloc),
            nulls: NullBits::new(alloc),
        }
    }

    /// The type of the column's numbers.
    pub fn sql_type(&self) -> SqlType
        ensures same { type_of result ≡ self.now.type }
        ensures numbers { spec.kind_of self.now.type ≡ spec.Numbers }
        ensures valid { spec.IsType self.now.type }
    {
        self.sql_type
    }

    /// The number in a row, from 0, or null.
    pub fn cell(&self, row: usize) -> Value<'_>
        requires { row < length self.now.values }
        ensures { value_of result ≡ slice_index_or self.now.values row spec.Null }
    {
        if self.nulls.is_null(row) {
            return Value::Null;
        }
        Value::Num(Num {
            units: i128::from(self.units[row]),
            scale: self.sql_type.scale(),
        })
    }

    /// Adds a row with a number of these units at the type's scale, or with a null. An `Err` leaves the column as it was.
    pub fn push(&mut self, units: Option<i64>) -> Result<(), AllocError>
        ensures ok { OnOk result (self.new ≡ record self.old {
          values = self.old.values ++ number_or_null
              self.old.type units ∷ [];
        }) }
        ensures err { OnErr result (self.new ≡ self.old) }
    {
        self.units.reserve(1)?;
        self.nulls.push(units.is_none())?;
        self.units.push(units.unwrap_or(0))?;
        Ok(())
    }

    /// Of so many rows from `first` on, those in which a comparison of the column's value with another is true, and
    /// those in which it is unknown (ISO/IEC 9075:1992, 8.2): bit i of a word is set exactly where it is so in row
    /// `first + i`.
    pub fn scan(
        &self,
        op: ComparisonOperator,
        value: &Value,
        first: usize,
        rows: usize,
    ) -> (u64, u64)
        requires few { rows ≤ 64 }
        requires within { first + rows ≤ length self.now.values }
        ensures met { result.0 ≡ true_word (op_of op) (value_of value.now) (part_of first rows self.now.values) }
        ensures unknown { result.1 ≡ unknown_word (op_of op) (value_of value.now) (part_of first rows self.now.values) }
    {
        let nulls = self.nulls.word(first, rows);
        let Value::Num(number) = value else {
            return (0, all_rows(rows));
        };
        let range = range_of(op, *number, self.sql_type.scale());
        let met = range_word(&self.units[first..first + rows], range);
        (met & (all_rows(rows) - nulls), nulls)
    }

    /// How many rows there are.
    pub fn len(&self) -> usize
        ensures { result ≡ length self.now.values }
    {
        self.units.len()
    }

    /// Whether the number in a row is null. A row past the end has null (own).
    pub fn is_null(&self, row: usize) -> bool
        ensures { result ≡ is_null_value (value_in self.now row) }
    {
        !self.nulls.is_filled(row)
    }

    /// How the numbers in two rows rank, a null before all others (own; ISO/IEC 9075:1992, 13.1 leaves it open). A row
    /// past the end has null (own).
    pub fn rank(&self, a: usize, b: usize) -> Ordering
        ensures { result ≡ spec.rank (value_in self.now a) (value_in self.now b) }
    {
        match (self.nulls.is_filled(a), self.nulls.is_filled(b)) {
            (true, true) => self.units[a].cmp(&self.units[b]),
            (a_filled, b_filled) => a_filled.cmp(&b_filled),
        }
    }

    /// Adds the number that another column of the same type has in a row. An `Err` leaves the column as it was.
    pub fn push_from(&mut self, other: &NumberColumn, row: usize) -> Result<(), AllocError>
        requires alike { self.old.type ≡ other.now.type }
        ensures ok { OnOk result (self.new ≡ record self.old {
          values = self.old.values ++ value_in other.now row ∷
              [];
        }) }
        ensures err { OnErr result (self.new ≡ self.old) }
        ensures held { IsHeld other.now.type (value_in other.now row) }
    {
        self.push(other.units_in(row))
    }

    /// Adds the numbers that another column of the same type has in the rows from one on up to another. An `Err` leaves
    /// the column as it was.
    pub fn extend_from(
        &mut self,
        other: &NumberColumn,
        from: usize,
        to: usize,
    ) -> Result<(), AllocError>
        requires alike { self.old.type ≡ other.now.type }
        requires forward { from ≤ to }
        requires within { to ≤ length other.now.values }
        ensures ok { OnOk result (self.new ≡ record self.old {
          values = self.old.values ++
              part_of from (to - from) other.now.values;
        }) }
        ensures err { OnErr result (self.new ≡ self.old) }
    {
        self.units.reserve(to - from)?;
        self.nulls.extend_from(&other.nulls, from, to)?;
        self.units.extend_from_slice(&other.units[from..to])?;
        Ok(())
    }

    /// The scale of the column's numbers.
    pub fn scale(&self) -> u8
        ensures { result ≡ spec.scale_of self.now.type }
    {
        self.sql_type.scale()
    }

    /// The units in a row, or none for null and past the end.
    pub fn units_in(&self, row: usize) -> Option<i64>
        ensures value { number_or_null self.now.type result ≡ value_in self.now row }
        ensures held { IsHeld self.now.type (value_in self.now row) }
    {
        if self.nulls.is_filled(row) {
            Some(self.units[row])
        } else {
            None
        }
    }

    /// The values from a limit on, nulls being none of them, made ready for look-ups in columns of this type; `None`
    /// where the limit's value is no number (ISO/IEC 9075:1992, 8.2).
    pub fn start<'a>(&self, limit: Bound<Value<'a>>) -> Option<LowerBound<'a>>
        ensures some { IfSome result (λ start. (cell : spec.Value) → IsHeld self.now.type cell →
            starts start cell ≡ (not (is_null_value cell) && is_from (limit_of limit.entry) cell)) }
        ensures meets { IfSome result (λ start. AreMet self.now.type (limit_of limit.entry)) }
        ensures none { IsNone result → AreApart self.now.type (limit_of limit.entry) }
    {
        match limit {
            Bound::Unbounded => Some(LowerBound::Filled),
            Bound::Included(Value::Num(number)) => {
                Some(LowerBound::Above(nearest(number, self.sql_type.scale()).below))
            }
            Bound::Excluded(Value::Num(number)) => {
                Some(LowerBound::Above(nearest(number, self.sql_type.scale()).at_most))
            }
            Bound::Included(Value::Null | Value::Text(_))
            | Bound::Excluded(Value::Null | Value::Text(_)) => None,
        }
    }

    /// Whether the number in a row is one of those from a limit on; a null is not (own).
    pub fn starts(&self, start: &LowerBound, row: usize) -> bool
        ensures { result ≡ starts start.now (value_in self.now row) }
    {
        if !self.nulls.is_filled(row) {
            return false;
        }
        match start {
            LowerBound::Filled => true,
            LowerBound::Above(units) => i128::from(self.units[row]) > *units,
            LowerBound::From(_) | LowerBound::Behind(_) => false,
        }
    }

    /// Keeps the first rows alone, as many as `rows`.
    pub fn truncate(&mut self, rows: usize)
        requires { rows ≤ length self.old.values }
        ensures { self.new ≡ record self.old { values = take rows self.old.values } }
    {
        self.units.truncate(rows);
        self.nulls.truncate(rows);
    }
}

/// The word of the units that lie in a range, of at most 64.
fn range_word(units: &[i64], range: UnitRange) -> u64
    requires few { length units.now ≤ 64 }
    requires ranged { All (FitsSigned w64) units.now }
    ensures { result ≡ word_of (map (is_in range) units.now) }
{
    let UnitRange { low, high, outside } = range;
    let within = units_within(units, low, high);
    if outside {
        all_rows(units.len()) - within
    } else {
        within
    }
}
