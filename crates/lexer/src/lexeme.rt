//! What begins a text, and where it ends.

ghost use Rattle.std.specs.Prelude.{◌≡◌, ◌+◌, ◌<◌, ◌≤◌, ◌==◌, [], ◌∷◌, Some, false, not, IsTrue, length, slice_index};
ghost use Rattle.std.specs.List.{prefix_len};
ghost use Rattle.definitions.specs.Characters as characters;
ghost use Rattle.lexer.specs.Lexeme as spec;

use crate::byte::{is_blank, is_digit, is_letter, is_word_byte};
use crate::token::Symbol;

/// What the bytes of a text are that belong together (ISO/IEC 9075:1992, 5.2 and 5.3).
#[derive(Clone, Copy)]
pub enum Lexeme {
    /// A separator of one byte, or a comment.
    Gap,
    /// An identifier or a reserved word.
    Word,
    /// An unsigned number.
    Number,
    /// A string, or the beginning of one that no quote ends.
    Quotation { closed: bool },
    /// A symbol.
    Sign(Symbol),
    /// A number with a letter or an underscore directly behind it.
    RunOn,
    /// A byte that begins nothing else.
    Stray,
}

/// The longest lexeme that begins a text, and how many bytes it has.
#[derive(Clone, Copy)]
pub struct Beginning {
    pub lexeme: Lexeme,
    pub length: usize,
}

/// What begins a text.
pub fn first_lexeme(text: &[u8]) -> Beginning
    requires { 0 < length text.now }
    ensures { spec.IsFirst text.now result.lexeme result.length }
{
    let first = text[0];
    if is_letter(first) {
        Beginning {
            lexeme: Lexeme::Word,
            length: leading_word_bytes(text),
        }
    } else if begins_numeral(text) {
        numeral(text)
    } else if first == b'\'' {
        quotation(text)
    } else if begins_comment(text) {
        Beginning {
            lexeme: Lexeme::Gap,
            length: leading_line(text),
        }
    } else {
        sign_or_byte(text)
    }
}

fn leading_word_bytes(text: &[u8]) -> usize
    ensures { result ≡ prefix_len characters.is_word_byte text.now }
{
    text.iter().take_while(|byte| is_word_byte(**byte)).count()
}

fn leading_digits(text: &[u8]) -> usize
    ensures count { result ≡ prefix_len characters.is_digit text.now }
    ensures within { result ≤ length text.now }
{
    text.iter().take_while(|byte| is_digit(**byte)).count()
}

/// How many bytes stand before the end of the line.
fn leading_line(text: &[u8]) -> usize
    ensures { result ≡ prefix_len (λ c. not (c == characters.line_feed)) text.now }
{
    text.iter().take_while(|byte| **byte != b'\n').count()
}

fn begins_numeral(text: &[u8]) -> bool
    ensures { result ≡ spec.begins_numeral text.now }
{
    match text {
        [b'.', second, ..] => is_digit(*second),
        [first, ..] => is_digit(*first),
        [] => false,
    }
}

fn begins_comment(text: &[u8]) -> bool
    ensures { result ≡ spec.begins_comment text.now }
{
    matches!(text, [b'-', b'-', ..])
}

/// How many bytes the longest number has that begins a text (ISO/IEC 9075:1992, 5.3).
fn numeral_length(text: &[u8]) -> usize
    requires { IsTrue (spec.begins_numeral text.now) }
    ensures { spec.IsNumeralLength text.now result }
{
    let whole = leading_digits(text);
    if whole < text.len() && text[whole] == b'.' {
        whole + 1 + leading_digits(&text[whole + 1..])
    } else {
        whole
    }
}

/// Whether a text begins with what may not stand directly behind a number (ISO/IEC 9075:1992, 5.2).
fn runs_on(text: &[u8]) -> bool
    ensures { result ≡ spec.runs_on text.now }
{
    match text {
        [byte, ..] => is_letter(*byte) || *byte == b'_',
        [] => false,
    }
}

/// A number, with the letter or underscore directly behind it, if there is one.
fn numeral(text: &[u8]) -> Beginning
    requires { IsTrue (spec.begins_numeral text.now) }
    ensures { spec.IsFirst text.now result.lexeme result.length }
{
    let length = numeral_length(text);
    let rest = &text[length..];
    if runs_on(rest) {
        Beginning {
            lexeme: Lexeme::RunOn,
            length: length + 1,
        }
    } else {
        Beginning {
            lexeme: Lexeme::Number,
            length,
        }
    }
}

/// A string to its closing quote: one that no other quote follows (ISO/IEC 9075:1992, 5.3).
fn quotation(text: &[u8]) -> Beginning
    requires some { 0 < length text.now }
    requires opens { slice_index text.now 0 ≡ characters.quote }
    ensures { spec.IsFirst text.now result.lexeme result.length }
{
    let body = &text[1..];
    let mut closed = false;
    let mut length = 1;
    for byte in body {
        if *byte == b'\'' {
            closed = !closed;
        } else if closed {
            break;
        }
        length += 1;
    }
    Beginning {
        lexeme: Lexeme::Quotation { closed },
        length,
    }
}

/// A symbol, a separator, or a byte that begins nothing.
fn sign_or_byte(text: &[u8]) -> Beginning
    requires some { 0 < length text.now }
    requires no_word { characters.is_letter (slice_index text.now 0) ≡ false }
    requires no_numeral { spec.begins_numeral text.now ≡ false }
    requires no_string { (slice_index text.now 0 == characters.quote) ≡ false }
    requires no_comment { spec.begins_comment text.now ≡ false }
    ensures { spec.IsFirst text.now result.lexeme result.length }
{
    if let [first, second, ..] = text
        && let Some(symbol) = Symbol::from_pair(*first, *second)
    {
        return Beginning {
            lexeme: Lexeme::Sign(symbol),
            length: 2,
        };
    }
    Beginning {
        lexeme: one_byte(text[0]),
        length: 1,
    }
}

fn one_byte(byte: u8) -> Lexeme
    ensures { spec.lexeme_of (byte ∷ []) result ≡ spec.lexeme_of_byte byte }
{
    match Symbol::from_byte(byte) {
        Some(symbol) => Lexeme::Sign(symbol),
        None if is_blank(byte) => Lexeme::Gap,
        None => Lexeme::Stray,
    }
}
