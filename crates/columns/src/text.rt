//! A column of texts: one buffer with as many bytes a row as the type has, and its null bits.

ghost use Rattle.std.specs.Option.{option_copied};
ghost use Rattle.std.specs.String.{string_bytes};
ghost use Rattle.std.specs.Prelude.{◌&&◌, not, IsNone, IfSome, ◌≡◌, ◌<◌, ◌≤◌, ◌+◌, ◌∷◌, [], ◌++◌, ◌-◌, length, length as list_length, take, OnOk, OnErr, slice_index_or};
ghost use Rattle.definitions.specs.Value as spec;
ghost use Rattle.definitions.specs.Scanning.{part_of, true_word, unknown_word};
ghost use Rattle.sqlvalue.specs.Meaning.{op_of, value_of};
ghost use Rattle.columns.specs.Cells.{FitsIn, length_of, padded, text_or_null};
ghost use Rattle.std.specs.Str.{IsAscii};
ghost use Rattle.definitions.specs.Value.{is_null as is_null_value};
ghost use Rattle.definitions.specs.IndexRun.{is_from as is_from_limit};
ghost use Rattle.columns.specs.Starts.{limit_of, option_text, starts, IsHeld, AreApart, AreMet, value_in};

use crate::lower_bound::LowerBound;
use crate::null_bits::NullBits;
use crate::text_word::{order_of_texts, texts_word};
use crate::words::all_rows;
use sqlvalue::{ComparisonOperator, Value};
use std::alloc::{AllocError, Global};
use std::cmp::Ordering;
use std::marker::Model;
use std::ops::Bound;

/// A column of texts: their characters in a row, each text as long as the column, and which of them are null.
/// A null's characters are spaces.
#[derive(Drop)]
pub struct TextColumn {
    length: u8,
    characters: String,
    nulls: NullBits,
}

impl Model for TextColumn {
    ghost use Rattle.columns.specs.Cells.{CellList};

    ghost Value = { CellList };

    ghost use Rattle.columns.specs.Texts.{text_list, IsTextColumn};

    ghost view = { text_list };

    ghost invariant = { IsTextColumn };
}

impl TextColumn {
    /// A column CHAR(length), without rows.
    pub fn new(alloc: Global, length: u8) -> TextColumn
        ensures { result ≡ record { type = spec.Char length; values = [] } }
    {
        TextColumn {
            length,
            characters: String::new(alloc),
            nulls: NullBits::new(alloc),
        }
    }

    /// How many characters each text has.
    pub fn length(&self) -> u8
        ensures { self.now.type ≡ spec.Char result }
    {
        self.length
    }

    /// The text in a row, from 0, or null.
    pub fn cell(&self, row: usize) -> Value<'_>
        requires { row < length self.now.values }
        ensures { value_of result ≡ slice_index_or self.now.values row spec.Null }
    {
        if self.nulls.is_null(row) {
            return Value::Null;
        }
        let length = usize::from(self.length);
        let characters = self.characters.as_str();
        Value::Text(&characters[row * length..row * length + length])
    }

    /// Adds a text, with spaces behind it as far as the column is long, or a null. An `Err` leaves
    /// the cells as they were.
    pub fn push(&mut self, text: Option<&str>) -> Result<(), AllocError>
        requires { IfSome text (λ t. FitsIn self.old.type t.now) }
        ensures ok { OnOk result (self.new ≡ record self.old {
          values = self.old.values ++ text_or_null self.old.type
              (option_copied text.entry) ∷ [];
        }) }
        ensures err { OnErr result (self.new ≡ self.old) }
    {
        let length = self.characters.len();
        push_padded(
            &mut self.characters,
            text.unwrap_or(""),
            usize::from(self.length),
        )?;
        match self.nulls.push(text.is_none()) {
            Ok(()) => Ok(()),
            Err(error) => {
                self.characters.truncate(length);
                Err(error)
            }
        }
    }

    /// Of so many rows from `first` on, those in which a comparison of the column's value with another is true, and
    /// those in which it is unknown (ISO/IEC 9075:1992, 8.2): bit i of a word is set exactly where it is so in row
    /// `first + i`.
    pub fn scan(
        &self,
        op: ComparisonOperator,
        value: &Value,
        first: usize,
        rows: usize,
    ) -> (u64, u64)
        requires few { rows ≤ 64 }
        requires within { first + rows ≤ list_length self.now.values }
        ensures met { result.0 ≡ true_word (op_of op) (value_of value.now) (part_of first rows self.now.values) }
        ensures unknown { result.1 ≡ unknown_word (op_of op) (value_of value.now) (part_of first rows self.now.values) }
    {
        let nulls = self.nulls.word(first, rows);
        let Value::Text(text) = value else {
            return (0, all_rows(rows));
        };
        let length = usize::from(self.length);
        let characters = &self.characters.as_bytes()[first * length..];
        let met = texts_word(characters, length, rows, op, text.as_bytes());
        (met & (all_rows(rows) - nulls), nulls)
    }

    /// How many rows there are.
    pub fn len(&self) -> usize
        ensures { result ≡ list_length self.now.values }
    {
        self.nulls.len()
    }

    /// Whether the text in a row is null. A row past the end has null (own).
    pub fn is_null(&self, row: usize) -> bool
        ensures { result ≡ is_null_value (value_in self.now row) }
    {
        !self.nulls.is_filled(row)
    }

    /// The text in a row, or none for null and past the end.
    fn text_in(&self, row: usize) -> Option<&str>
        ensures text { option_text (option_copied result) ≡ value_in self.now row }
        ensures long { IfSome result (λ t. list_length t.now ≡ length_of self.now.type) }
        ensures ascii { IfSome result (λ t. IsAscii t.now) }
        ensures held { IsHeld self.now.type (value_in self.now row) }
    {
        if self.nulls.is_filled(row) {
            let length = usize::from(self.length);
            let characters = self.characters.as_str();
            Some(&characters[row * length..row * length + length])
        } else {
            None
        }
    }

    /// How the texts in two rows rank, a null before all others (own; ISO/IEC 9075:1992, 13.1 leaves it open). A row
    /// past the end has null (own).
    pub fn rank(&self, a: usize, b: usize) -> Ordering
        ensures { result ≡ spec.rank (value_in self.now a) (value_in self.now b) }
    {
        match (self.text_in(a), self.text_in(b)) {
            (Some(x), Some(y)) => x.as_bytes().cmp(y.as_bytes()),
            (x, y) => x.is_some().cmp(&y.is_some()),
        }
    }

    /// Adds the text that another column of the same type has in a row. An `Err` leaves the column as it was.
    pub fn push_from(&mut self, other: &TextColumn, row: usize) -> Result<(), AllocError>
        requires alike { self.old.type ≡ other.now.type }
        ensures ok { OnOk result (self.new ≡ record self.old {
          values = self.old.values ++ value_in other.now row ∷
              [];
        }) }
        ensures err { OnErr result (self.new ≡ self.old) }
        ensures held { IsHeld other.now.type (value_in other.now row) }
    {
        self.push(other.text_in(row))
    }

    /// Adds the texts that another column of the same type has in the rows from one on up to another. An `Err` leaves
    /// the column as it was.
    pub fn extend_from(
        &mut self,
        other: &TextColumn,
        from: usize,
        to: usize,
    ) -> Result<(), AllocError>
        requires alike { self.old.type ≡ other.now.type }
        requires forward { from ≤ to }
        requires within { to ≤ list_length other.now.values }
        ensures ok { OnOk result (self.new ≡ record self.old {
          values = self.old.values ++
              part_of from (to - from) other.now.values;
        }) }
        ensures err { OnErr result (self.new ≡ self.old) }
    {
        let length = self.characters.len();
        let width = usize::from(self.length);
        let characters = other.characters.as_str();
        self.characters
            .push_str(&characters[from * width..to * width])?;
        match self.nulls.extend_from(&other.nulls, from, to) {
            Ok(()) => Ok(()),
            Err(error) => {
                self.characters.truncate(length);
                Err(error)
            }
        }
    }

    /// The values from a limit on, nulls being none of them, made ready for look-ups in columns of this type; `None`
    /// where the limit's value is no text (ISO/IEC 9075:1992, 8.2).
    pub fn start<'a>(&self, limit: Bound<Value<'a>>) -> Option<LowerBound<'a>>
        ensures some { IfSome result (λ start. (cell : spec.Value) → IsHeld self.now.type cell →
            starts start cell ≡ (not (is_null_value cell) && is_from_limit (limit_of limit.entry) cell)) }
        ensures meets { IfSome result (λ start. AreMet self.now.type (limit_of limit.entry)) }
        ensures none { IsNone result → AreApart self.now.type (limit_of limit.entry) }
    {
        // The proof knows of a column what its code reads: here, that it holds texts.
        let _length = self.length;
        match limit {
            Bound::Unbounded => Some(LowerBound::Filled),
            Bound::Included(Value::Text(text)) => Some(LowerBound::From(text)),
            Bound::Excluded(Value::Text(text)) => Some(LowerBound::Behind(text)),
            Bound::Included(Value::Null | Value::Num(_))
            | Bound::Excluded(Value::Null | Value::Num(_)) => None,
        }
    }

    /// Whether the text in a row is one of those from a limit on; a null is not (own).
    pub fn starts(&self, start: &LowerBound, row: usize) -> bool
        ensures { result ≡ starts start.now (value_in self.now row) }
    {
        let Some(own) = self.text_in(row) else {
            return false;
        };
        match start {
            LowerBound::Filled => true,
            LowerBound::Above(_) => false,
            LowerBound::From(text) => order_of_texts(own.as_bytes(), text.as_bytes()).is_ge(),
            LowerBound::Behind(text) => order_of_texts(own.as_bytes(), text.as_bytes()).is_gt(),
        }
    }

    /// Keeps the first rows alone, as many as `rows`.
    pub fn truncate(&mut self, rows: usize)
        requires { rows ≤ length self.old.values }
        ensures { self.new ≡ record self.old { values = take rows self.old.values } }
    {
        self.characters.truncate(rows * usize::from(self.length));
        self.nulls.truncate(rows);
    }
}

/// Adds a text and then spaces, `length` characters in all. An `Err` leaves the characters as they
/// were.
fn push_padded(characters: &mut String, text: &str, length: usize) -> Result<(), AllocError>
    requires { list_length text.now ≤ length }
    ensures ok { OnOk result (string_bytes characters.new ≡ string_bytes characters.old ++ padded length text.now) }
    ensures err { OnErr result (string_bytes characters.new ≡ string_bytes characters.old) }
{
    characters.reserve(length)?;
    characters.push_str(text)?;
    for _place in text.len()..length {
        characters.push(' ')?;
    }
    Ok(())
}
