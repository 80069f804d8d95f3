//! Faults of the fields of files.

/// Why a field of a file does not load into its column.
#[derive(Clone, Copy, Debug, PartialEq, Eq)]
pub enum FieldFault {
    /// It is no number.
    NoNumber,
    /// It has a character that texts don't have.
    Unprintable,
    /// Its number is written with too many digits.
    ManyDigits,
    /// Its number has digits behind the point that the column has no room for.
    TooFine,
    /// Its number is beyond the column's range.
    TooGreat,
    /// Its text is longer than the column.
    TooLong,
}
