//! Values: null, an exact number, or a text.

use crate::number::Num;

/// A value, lent by the table or literal that holds it (ISO/IEC 9075:1992, 4.2 and 4.4; one null
/// for all types).
#[derive(Clone, Copy, Debug, PartialEq, Eq)]
pub enum Value<'a> {
    Null,
    Num(Num),
    Text(&'a str),
}
