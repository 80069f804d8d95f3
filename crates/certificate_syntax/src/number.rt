//! Numbers, and what stands around them.

ghost use Rattle.std.specs.Prelude.{◌≡◌, ◌<◌, ◌≤◌, IsTrue, IfSome, IfNone, length, slice_index};
ghost use Rattle.std.specs.Bool.{OnTrue, OnFalse};
ghost use Rattle.std.specs.List.{prefix_len, list_all};
ghost use Rattle.std.specs.Str.Parse.{digits_value};
ghost use Rattle.definitions.specs.Characters as characters;
ghost use Rattle.definitions.specs.Plans.Cost.{limit};
ghost use Rattle.certificate_syntax.specs.Words.{word_text};
ghost use Rattle.certificate_syntax.specs.Reading.{Reads, IsSplit, NumberIn, NumberBefore, NumberBetween};

use crate::fault::Expected;
use crate::stop::{TextStop, stop_before};
use crate::words::{Word, pass};

/// No number is above it.
const LIMIT: u64 = 1_000_000_000_000_000_000;

pub(crate) fn first_byte(text: &[u8]) -> u8
    ensures { result ≡ slice_index text.now 0 }
{
    match text {
        [first, ..] => *first,
        [] => 0,
    }
}

fn is_digit(byte: u8) -> bool
    ensures { result ≡ characters.is_digit byte }
{
    byte.is_ascii_digit()
}

fn digit_count(text: &[u8]) -> usize
    ensures count { result ≡ prefix_len characters.is_digit text.now }
    ensures within { result ≤ length text.now }
{
    text.iter().take_while(|byte| is_digit(**byte)).count()
}

/// The leading digits, and what is behind them.
fn split_digits(text: &[u8]) -> (&[u8], &[u8])
    ensures { IsSplit text.now result.0.now result.1.now }
{
    text.split_at(digit_count(text))
}

/// What digits write, unless it is above the limit.
fn value_of(digits: &[u8]) -> Option<u64>
    requires { IsTrue (list_all characters.is_digit digits.now) }
    ensures value { IfSome result (λ value. (value ≡ digits_value 10 digits.now) × (value ≤ limit)) }
    ensures beyond { IfNone result (limit < digits_value 10 digits.now) }
{
    let mut value = 0;
    'digits: for digit in digits {
        value = value * 10 + u64::from(*digit - b'0');
        if value > LIMIT {
            return None;
        }
    }
    Some(value)
}

fn has_leading_zero(digits: &[u8]) -> bool
    ensures yes { OnTrue result ((slice_index digits.now 0 ≡ 48) × (2 ≤ length digits.now)) }
    ensures no { OnFalse result (slice_index digits.now 0 ≡ 48 → length digits.now ≤ 1) }
{
    match digits {
        [b'0', _, ..] => true,
        _ => false,
    }
}

/// A number, up to a byte that is no digit.
pub(crate) fn number(text: &[u8]) -> Result<(u64, &[u8]), TextStop>
    ensures { Reads (λ n. n) (NumberIn text.now) result }
{
    let (digits, rest) = split_digits(text);
    if digits.is_empty() {
        return Err(stop_before(text, Expected::Number));
    }
    if has_leading_zero(digits) {
        return Err(stop_before(text, Expected::PlainNumber));
    }
    match value_of(digits) {
        Some(value) => Ok((value, rest)),
        None => Err(stop_before(text, Expected::SmallNumber)),
    }
}

/// A number and a word behind it.
pub(crate) fn number_before(text: &[u8], behind: Word) -> Result<(u64, &[u8]), TextStop>
    ensures { Reads (λ n. n) (NumberBefore (word_text behind) text.now) result }
{
    let (value, text) = number(text)?;
    let text = pass(text, behind)?;
    Ok((value, text))
}

/// A number between two words.
pub(crate) fn number_between(
    text: &[u8],
    before: Word,
    behind: Word,
) -> Result<(u64, &[u8]), TextStop>
    ensures { Reads (λ n. n) (NumberBetween (word_text before) (word_text behind) text.now) result }
{
    let text = pass(text, before)?;
    number_before(text, behind)
}
