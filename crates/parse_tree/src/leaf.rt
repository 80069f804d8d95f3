//! Leaves of trees: names, literals and operators.

ghost use Rattle.std.specs.Prelude.{◌^◌, ◌<◌, string_bytes};
ghost use Rattle.std.proofs.Props.{props};
ghost use Rattle.definitions.specs.Binding.Formed.{IsWrittenNumeral, IsWrittenString};
ghost use Rattle.definitions.specs.Limits.{most_digits};

/// A name in upper case.
#[derive(Drop)]
pub struct Name {
    pub text: String,
    pub start: usize,
}

/// A column, with the name of its table if it is written (ISO/IEC 9075:1992, 6.4).
#[derive(Drop)]
pub struct ColumnReference {
    pub qualifier: Option<Name>,
    pub name: Name,
}

/// An unsigned number: its units, how many digits it is written with, and its scale
/// (ISO/IEC 9075:1992, 5.3).
#[derive(Clone, Copy)]
pub struct Numeral {
    pub units: u128,
    pub digits: u8,
    pub scale: u8,
    pub start: usize,
    pub ghost bounded: { units < 10 ^ most_digits },
    pub ghost written: { IsWrittenNumeral units digits },
}

/// A character string literal without its quotes.
#[derive(Drop)]
pub struct StringLiteral {
    pub text: String,
    pub start: usize,
    pub ghost written: { IsWrittenString (string_bytes text) } by { Prim.hlevel props },
}

/// A whole number as it is written.
#[derive(Clone, Copy)]
pub struct Count {
    pub units: u128,
    pub start: usize,
}

/// What joins the operands of a line (ISO/IEC 9075:1992, 8.12 and 6.12).
#[derive(Clone, Copy, Debug, PartialEq, Eq)]
pub enum LineOperator {
    Or,
    And,
    Plus,
    Minus,
    Times,
    Divided,
}

/// A quantifier; SOME is ANY (ISO/IEC 9075:1992, 8.7).
#[derive(Clone, Copy, Debug, PartialEq, Eq)]
pub enum Quantifier {
    All,
    Any,
}

/// A set function (ISO/IEC 9075:1992, 6.5).
#[derive(Clone, Copy, Debug, PartialEq, Eq)]
pub enum SetFunction {
    Count,
    Sum,
    Avg,
    Min,
    Max,
}
