//! The types of columns, and which parameters they may have.

ghost use Rattle.std.specs.Prelude.{◌≡◌, ◌≤◌, ◌↔◌, IsOk, IfOk, IfErr};
ghost use Rattle.definitions.specs.Limits.{greatest_precision};
ghost use Rattle.definitions.specs.Value as spec;
ghost use Rattle.definitions.specs.Value.{IsType};
ghost use Rattle.sqlvalue.specs.Meaning.{IsOutside, declared_of, is_text_type, type_of};

use std::fmt::{self, Display, Formatter};

/// The greatest precision of a NUMERIC (own).
pub const MAX_PRECISION: u8 = 18;

/// The greatest length of a CHAR, in characters (own).
pub const MAX_LENGTH: u8 = 254;

/// A type as a statement writes it, its parameters not judged yet.
#[derive(Clone, Copy, PartialEq, Eq)]
pub enum DeclaredType {
    Smallint,
    Integer,
    Numeric { precision: u128, scale: u128 },
    Char { length: u128 },
}

/// A type of columns (ISO/IEC 9075:1992, 6.1; the ranges are own).
#[derive(Clone, Copy, Debug, PartialEq, Eq)]
pub enum SqlType {
    /// 16 bits, signed.
    Smallint,
    /// 32 bits, signed.
    Integer,
    /// Units below 10^precision in size, at a scale.
    Numeric { precision: u8, scale: u8 },
    /// Exactly this many characters.
    Char { length: u8 },
}

/// Which parameter of a type is out of range.
#[derive(Clone, Copy, Debug, PartialEq, Eq)]
pub enum TypeFault {
    /// The precision is 1 to `MAX_PRECISION`.
    Precision,
    /// The scale is at most the precision.
    Scale,
    /// The length is 1 to `MAX_LENGTH`.
    Length,
}

impl DeclaredType {
    /// The type, where its parameters are in range: a precision of 1 to 18, a scale of at most
    /// the precision, a length of 1 to 254; or else the first one that is not.
    pub fn sql_type(self) -> Result<SqlType, TypeFault>
        ensures in_range { IsOk result ↔ IsType (declared_of self) }
        ensures same { IfOk result (λ t. type_of t ≡ declared_of self) }
        ensures fault { IfErr result (IsOutside (declared_of self)) }
    {
        match self {
            DeclaredType::Smallint => Ok(SqlType::Smallint),
            DeclaredType::Integer => Ok(SqlType::Integer),
            DeclaredType::Numeric { precision, scale } => numeric(precision, scale),
            DeclaredType::Char { length } => char_of(length),
        }
    }
}

fn numeric(precision: u128, scale: u128) -> Result<SqlType, TypeFault>
    ensures in_range { IsOk result ↔ IsType (spec.Numeric precision scale) }
    ensures same { IfOk result (λ t. type_of t ≡ spec.Numeric precision scale) }
    ensures fault { IfErr result (IsOutside (spec.Numeric precision scale)) }
{
    if precision < 1 || precision > u128::from(MAX_PRECISION) {
        return Err(TypeFault::Precision);
    }
    if scale > precision {
        return Err(TypeFault::Scale);
    }
    Ok(SqlType::Numeric {
        precision: precision as u8,
        scale: scale as u8,
    })
}

fn char_of(length: u128) -> Result<SqlType, TypeFault>
    ensures in_range { IsOk result ↔ IsType (spec.Char length) }
    ensures same { IfOk result (λ t. type_of t ≡ spec.Char length) }
    ensures fault { IfErr result (IsOutside (spec.Char length)) }
{
    if length < 1 || length > u128::from(MAX_LENGTH) {
        return Err(TypeFault::Length);
    }
    Ok(SqlType::Char {
        length: length as u8,
    })
}

impl SqlType {
    /// Whether its values are texts, and not numbers.
    pub fn is_text(self) -> bool
        ensures { result ≡ is_text_type (type_of self) }
    {
        match self {
            SqlType::Char { .. } => true,
            SqlType::Smallint | SqlType::Integer | SqlType::Numeric { .. } => false,
        }
    }

    /// How many digits of its numbers stand behind the point; 0 for texts.
    pub fn scale(self) -> u8
        ensures value { result ≡ spec.scale_of (type_of self) }
        ensures bound { IsType (type_of self) → result ≤ greatest_precision }
    {
        match self {
            SqlType::Numeric { scale, .. } => scale,
            SqlType::Smallint | SqlType::Integer | SqlType::Char { .. } => 0,
        }
    }
}

impl Display for SqlType {
    fn fmt<W: fmt::Write>(&self, f: &mut Formatter<W>) -> fmt::Result {
        match self {
            SqlType::Smallint => f.write_str("SMALLINT"),
            SqlType::Integer => f.write_str("INTEGER"),
            SqlType::Numeric { precision, scale } => write!(f, "NUMERIC({precision},{scale})"),
            SqlType::Char { length } => write!(f, "CHAR({length})"),
        }
    }
}

impl Display for DeclaredType {
    fn fmt<W: fmt::Write>(&self, f: &mut Formatter<W>) -> fmt::Result {
        match self {
            DeclaredType::Smallint => f.write_str("SMALLINT"),
            DeclaredType::Integer => f.write_str("INTEGER"),
            DeclaredType::Numeric { precision, scale } => {
                write!(f, "NUMERIC({precision},{scale})")
            }
            DeclaredType::Char { length } => write!(f, "CHAR({length})"),
        }
    }
}
