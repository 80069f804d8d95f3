//! Numbers as fields write them.

ghost use Rattle.std.specs.Prelude.{◌≡◌, ◌<◌, ◌≤◌, ◌*◌, ◌^◌, ◌++◌, ◌||◌, ◌==◌, filter, ℕ, List, Some, Ok, Err, Bool, IsTrue, IfOk, IfErr, IfSome, length, unwrap_or};
ghost use Rattle.std.specs.Str.Parse.{digits_value as value_of_digits};
ghost use Rattle.std.specs.List.{list_all, position_from};
ghost use Rattle.definitions.specs.Characters.{period, is_digit};
ghost use Rattle.definitions.specs.Limits.{most_digits};
ghost use Rattle.definitions.specs.Refusal as refusal;
ghost use Rattle.definitions.specs.Value as spec;
ghost use Rattle.definitions.specs.Lexing as lexing;
ghost use Rattle.definitions.specs.Loading.{FieldLoads, IsSign};
ghost use Rattle.sqlvalue.specs.Meaning.{type_of};
ghost use Rattle.sqlvalue.specs.RefusalMeaning.{field_error_of};
ghost use Rattle.columns.specs.Cells.{number_or_null};
ghost use Rattle.loading.specs.Fields.{IsShortNumeral, WritesShort, WritesNone, Stores, StoresNone};

use super::is_null;
use crate::written_number::{MAX_DIGITS, WrittenNumber, power_of_ten, units_in};
use sqlvalue::{FieldFault, SqlType};

/// The units of the number that a field is stored as in a column of numbers, if it is not null.
pub(crate) fn number_cell(field: &[u8], sql_type: SqlType) -> Result<Option<i64>, FieldFault>
    requires numbers { spec.kind_of (type_of sql_type) ≡ spec.Numbers }
    requires valid { spec.IsType (type_of sql_type) }
    ensures ok { IfOk result (λ units. FieldLoads (type_of sql_type) field.now
        (Ok (number_or_null (type_of sql_type) units))) }
    ensures err { IfErr result (λ f. FieldLoads (type_of sql_type) field.now (Err (field_error_of f))) }
{
    if is_null(field) {
        return Ok(None);
    }
    match stored_units(field, sql_type) {
        Ok(units) => Ok(Some(units)),
        Err(fault) => Err(fault),
    }
}

/// The units that a field is stored as in a column of numbers, at the column's scale. The number
/// is stored exactly or not at all (ISO/IEC 9075:1992, 9.2).
fn stored_units(field: &[u8], sql_type: SqlType) -> Result<i64, FieldFault>
    requires numbers { spec.kind_of (type_of sql_type) ≡ spec.Numbers }
    requires valid { spec.IsType (type_of sql_type) }
    ensures ok { IfOk result (λ units. Stores (type_of sql_type) field.now
        (spec.Number units (spec.scale_of (type_of sql_type)))) }
    ensures err { IfErr result (λ f. StoresNone (type_of sql_type) field.now (field_error_of f)) }
{
    let written = written_number(field)?;
    match units_in(written, sql_type) {
        Some(units) => Ok(units),
        None => Err(unfit_number(written, sql_type)),
    }
}

/// Why a number does not fit into a column of a type.
fn unfit_number(written: WrittenNumber, sql_type: SqlType) -> FieldFault
    requires valid { spec.IsType (type_of sql_type) }
    requires placed { written.scale ≤ most_digits }
    ensures { field_error_of result ≡ refusal.OutOfRange }
{
    let to = usize::from(sql_type.scale());
    if written.scale > to && written.digits % power_of_ten(written.scale - to) > 0 {
        FieldFault::TooFine
    } else {
        FieldFault::TooGreat
    }
}

/// The number that a field writes: an optional sign, and digits with at most one point among them
/// (ISO/IEC 9075:1992, 5.3; at most 38 digits is own).
fn written_number(field: &[u8]) -> Result<WrittenNumber, FieldFault>
    ensures ok { IfOk result (λ w. WritesShort field.now w) }
    ensures err { IfErr result (λ f. WritesNone field.now f) }
{
    let (negative, numeral) = split_sign(field);
    if let Some(digits) = short_digits(numeral) {
        return Ok(WrittenNumber {
            negative,
            digits: u128::from(digits),
            scale: behind_point(numeral),
        });
    }
    if !is_numeral(numeral) {
        return Err(FieldFault::NoNumber);
    }
    if digit_count(numeral) > MAX_DIGITS {
        return Err(FieldFault::ManyDigits);
    }
    Ok(WrittenNumber {
        negative,
        digits: digits_value(numeral),
        scale: behind_point(numeral),
    })
}

/// How many bytes a numeral may have for its digits to be added up in 64 bits (own).
const MAX_SHORT: usize = 18;

/// The digits of a short numeral as one number, in one pass, as nearly all fields are; none where the text is long or no numeral.
fn short_digits(numeral: &[u8]) -> Option<u64>
    ensures { IfSome result (IsShortNumeral numeral.now) }
{
    if numeral.len() > MAX_SHORT {
        return None;
    }
    let mut digits: u64 = 0;
    let mut points: usize = 0;
    'bytes: for byte in numeral {
        if byte.is_ascii_digit() {
            digits = 10 * digits + u64::from(*byte - b'0');
        } else if *byte == b'.' {
            points += 1;
        } else {
            return None;
        }
    }
    if points > 1 || points == numeral.len() {
        return None;
    }
    Some(digits)
}

/// Whether a minus stands first, and what stands behind the sign.
fn split_sign(field: &[u8]) -> (bool, &[u8])
    ensures split { (sign : List ℕ) × IsSign sign result.0 × (field.now ≡ sign ++ result.1.now) }
    ensures only { (sign numeral : List ℕ) (minus : Bool) → IsSign sign minus → field.now ≡ sign ++ numeral →
        IsTrue (lexing.is_numeral numeral) → numeral ≡ result.1.now }
{
    match field {
        [b'-', numeral @ ..] => (true, numeral),
        [b'+', numeral @ ..] => (false, numeral),
        _ => (false, field),
    }
}

fn is_numeral(text: &[u8]) -> bool
    ensures { result ≡ lexing.is_numeral text.now }
{
    has_numeral_bytes_alone(text) && digit_count(text) > 0 && point_count(text) <= 1
}

fn has_numeral_bytes_alone(text: &[u8]) -> bool
    ensures { result ≡ list_all (λ c. is_digit c || (c == period)) text.now }
{
    text.iter().all(|c| c.is_ascii_digit() || *c == b'.')
}

fn point_count(text: &[u8]) -> usize
    ensures { result ≡ length (filter (λ c. c == period) text.now) }
{
    text.iter().filter(|c| **c == b'.').count()
}

fn digit_count(numeral: &[u8]) -> usize
    ensures { result ≡ length (lexing.digits_of numeral.now) }
{
    numeral.iter().filter(|c| c.is_ascii_digit()).count()
}

fn digits_value(numeral: &[u8]) -> u128
    requires { length (lexing.digits_of numeral.now) ≤ most_digits }
    ensures value { result ≡ value_of_digits 10 (lexing.digits_of numeral.now) }
    ensures bound { result < 10 ^ most_digits }
{
    let mut value = 0;
    for c in numeral {
        if c.is_ascii_digit() {
            value = 10 * value + u128::from(*c - b'0');
        }
    }
    value
}

/// How many digits stand behind the point, if there is one.
fn behind_point(numeral: &[u8]) -> usize
    ensures { result ≡ unwrap_or (lexing.behind_point numeral.now) 0 }
{
    match point(numeral) {
        Some(at) => numeral.len() - 1 - at,
        None => 0,
    }
}

fn point(numeral: &[u8]) -> Option<usize>
    ensures place { result ≡ position_from (λ c. c == period) 0 numeral.now }
    ensures within { IfSome result (λ at. at < length numeral.now) }
{
    numeral.iter().position(|c| *c == b'.')
}
