//! Finds how long a number token is, and what is wrong with it.

ghost use Rattle.std.specs.Prelude.{◌≡◌, ◌+◌, ◌<◌, ◌^◌, Some, IfSome, length, option_map};
ghost use Rattle.std.specs.Str.Parse.{digits_value as value_of};
ghost use Rattle.definitions.specs.Grammar.{numeral_in};
ghost use Rattle.definitions.specs.Lexing as lexing;
ghost use Rattle.definitions.specs.Limits.{most_digits};
ghost use Rattle.lexer.specs.Meaning.{kind_of, numeral_parts};
ghost use Rattle.lexer.specs.Within.{IsShort};

use crate::byte::is_digit;
use crate::numeral::Numeral;
use crate::token::{Token, TokenKind};

impl Token<'_> {
    /// The number that the token is (ISO/IEC 9075:1992, 5.3); `None` for another token.
    pub fn numeral(&self) -> Option<Numeral>
        ensures { option_map numeral_parts result ≡ numeral_in (Some (kind_of self.now.text.now self.now.kind)) }
    {
        match self.kind {
            TokenKind::Numeral => Some(number_of(self.text.as_bytes())),
            _ => None,
        }
    }
}

/// The number that the text of a number token writes.
fn number_of(text: &[u8]) -> Numeral
    requires { IsShort text.now }
    ensures { numeral_parts result ≡ (
      value_of 10 (lexing.digits_of text.now),
      length (lexing.digits_of text.now),
      lexing.behind_point text.now,
    ) }
{
    Numeral {
        units: digits_value(text),
        digits: digit_count(text) as u8,
        fraction: behind_point(text).map(|count| count as u8),
    }
}

pub fn digit_count(text: &[u8]) -> usize
    ensures { result ≡ length (lexing.digits_of text.now) }
{
    text.iter().filter(|byte| is_digit(**byte)).count()
}

/// What the digits write, without the point.
fn digits_value(text: &[u8]) -> u128
    requires { value_of 10 (lexing.digits_of text.now) < 10 ^ most_digits }
    ensures value { result ≡ value_of 10 (lexing.digits_of text.now) }
    ensures bounded { result < 10 ^ most_digits }
{
    let mut value = 0;
    for byte in text {
        if is_digit(*byte) {
            value = value * 10 + u128::from(*byte - b'0');
        }
    }
    value
}

/// How many bytes stand behind the point, if there is one.
fn behind_point(text: &[u8]) -> Option<usize>
    ensures count { result ≡ lexing.behind_point text.now }
    ensures within { IfSome result (λ count. count < length text.now) }
{
    for (offset, byte) in text.iter().enumerate() {
        if *byte == b'.' {
            return Some(text.len() - 1 - offset);
        }
    }
    None
}
