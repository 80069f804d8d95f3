//! Columns, literals and what is known of a value's type.

ghost use Rattle.std.specs.Prelude.{◌≡◌, ◌<◌, ◌≤◌, ◌^◌, pos};
ghost use Rattle.definitions.specs.Limits.{most_digits, greatest_scale};

use sqlvalue::{Num, SqlType};

/// A column of a block: the table of its FROM and the column in it, both from 0.
#[derive(Clone, Copy, Debug, PartialEq, Eq)]
pub struct BlockColumn {
    pub table: usize,
    pub number: usize,
}

/// What stands between the operands of arithmetic (ISO/IEC 9075:1992, 6.12).
#[derive(Clone, Copy, Debug, PartialEq, Eq)]
pub enum Operator {
    Plus,
    Minus,
    Times,
    Over,
}

/// What is known of a value before any row is read: a number's scale, or that it is a text.
#[derive(Clone, Copy, Debug, PartialEq, Eq)]
pub enum ValueType {
    Number { scale: u8 },
    Text,
}

/// A number as it is written: its units, how many digits it is written with, and its scale (ISO/IEC 9075:1992, 5.3).
#[derive(Clone, Copy, Debug, PartialEq, Eq)]
pub struct NumberLiteral {
    pub units: u128,
    pub digits: u8,
    pub scale: u8,
    pub ghost bounded: { units < 10 ^ most_digits },
    pub ghost scaled: { scale ≤ greatest_scale },
}

impl NumberLiteral {
    pub fn number(self) -> Num
        ensures units { result.units ≡ pos self.units }
        ensures scale { result.scale ≡ self.scale }
    {
        Num {
            units: self.units as i128,
            scale: self.scale,
        }
    }
}

impl From<SqlType> for ValueType {
    ghost use Rattle.definitions.specs.ValueType as spec;
    ghost use Rattle.sqlvalue.specs.Meaning.{type_of};
    ghost use Rattle.query_tree.specs.Bound.{value_type_of};

    ghost from_gives = { λ sql_type known. value_type_of known ≡ spec.type_of (type_of sql_type) };

    fn from(sql_type: SqlType) -> ValueType {
        match sql_type {
            SqlType::Smallint | SqlType::Integer => ValueType::Number { scale: 0 },
            SqlType::Numeric { scale, .. } => ValueType::Number { scale },
            SqlType::Char { .. } => ValueType::Text,
        }
    }
}
