//! The token that a lexeme is, or its fault.

ghost use Rattle.std.specs.Prelude.{◌≡◌, ◌+◌, ◌<◌, ◌≤◌, ◌^◌, Some, Err, IfOk, IfSome, false, not, length, position, slice_index};
ghost use Rattle.definitions.specs.Characters as characters;
ghost use Rattle.definitions.specs.Lexing as lexing;
ghost use Rattle.definitions.specs.Refusal as refusal;
ghost use Rattle.lexer.specs.Meaning.{fault_of};
ghost use Rattle.lexer.specs.Quoted.{unquoted, behind_first};
ghost use Rattle.lexer.specs.Within.{IsNumberWithin, IsStringWithin};
ghost use Rattle.lexer.specs.Lexeme.{lexeme_of, quotation_of, outcome_of};

use crate::byte::{begins_character, is_printable};
use crate::fault::{LexFault, LongLiteral, StrayPlace};
use crate::lexeme::Lexeme;
use crate::number::digit_count;
use crate::token::TokenKind;
use crate::word::reserved_word;

/// How many characters an identifier may have (own).
pub const MAX_NAME_CHARACTERS: usize = 18;

/// How many characters a string may have (own).
pub const MAX_STRING_CHARACTERS: usize = 254;

/// How many digits a number may have (own).
pub const MAX_DIGITS: usize = 38;

/// What the token is that a lexeme at a place is, or its leftmost fault; a gap is none.
pub fn token_kind(start: usize, text: &[u8], lexeme: Lexeme) -> Result<Option<TokenKind>, LexFault>
    requires room { start + length text.now < 2 ^ 64 }
    requires same { lexing.lexeme_of text.now ≡ Some (lexeme_of text.now lexeme) }
    ensures outcome { outcome_of start text.now result
        ≡ Some (lexing.token_of start text.now (lexeme_of text.now lexeme)) }
    ensures within { IfOk result (λ kind. IfSome kind (λ k. IsNumberWithin k text.now)) }
    ensures characters { IfOk result (λ kind. IfSome kind (λ k. IsStringWithin k text.now)) }
{
    match lexeme {
        Lexeme::Gap => Ok(None),
        Lexeme::Word => word_kind(start, text),
        Lexeme::Number => number_kind(start, text),
        Lexeme::Quotation { closed } => string_kind(start, text, closed),
        Lexeme::Sign(symbol) => Ok(Some(TokenKind::Mark(symbol))),
        Lexeme::RunOn => Err(run_on_fault(start, text)),
        Lexeme::Stray => Err(LexFault::StrayCharacter {
            offset: start,
            place: StrayPlace::Apart,
        }),
    }
}

fn word_kind(start: usize, text: &[u8]) -> Result<Option<TokenKind>, LexFault>
    ensures outcome { outcome_of start text.now result ≡ Some (lexing.token_of start text.now lexing.Word') }
    ensures within { IfOk result (λ kind. IfSome kind (λ k. IsNumberWithin k text.now)) }
    ensures characters { IfOk result (λ kind. IfSome kind (λ k. IsStringWithin k text.now)) }
{
    if text.len() > MAX_NAME_CHARACTERS {
        return Err(LexFault::LongName {
            offset: start,
            characters: text.len(),
        });
    }
    match reserved_word(text) {
        Some(word) => Ok(Some(TokenKind::Reserved(word))),
        None => Ok(Some(TokenKind::Name)),
    }
}

fn number_kind(start: usize, text: &[u8]) -> Result<Option<TokenKind>, LexFault>
    requires { length text.now ≤ length (lexing.digits_of text.now) + 1 }
    ensures outcome { outcome_of start text.now result ≡ Some (lexing.token_of start text.now lexing.Number) }
    ensures within { IfOk result (λ kind. IfSome kind (λ k. IsNumberWithin k text.now)) }
    ensures characters { IfOk result (λ kind. IfSome kind (λ k. IsStringWithin k text.now)) }
{
    let digits = digit_count(text);
    if digits > MAX_DIGITS {
        return Err(long_number(start, digits));
    }
    Ok(Some(TokenKind::Numeral))
}

fn run_on_fault(start: usize, text: &[u8]) -> LexFault
    requires some { 0 < length text.now }
    requires room { start + length text.now < 2 ^ 64 }
    ensures { outcome_of start text.now (Err result) ≡ Some (lexing.token_of start text.now lexing.RunOn) }
{
    let digits = digit_count(text);
    if digits > MAX_DIGITS {
        long_number(start, digits)
    } else {
        LexFault::StrayCharacter {
            offset: start + (text.len() - 1),
            place: StrayPlace::BehindNumber,
        }
    }
}

fn long_number(offset: usize, digits: usize) -> LexFault
    ensures { fault_of result ≡ Some (record { refusal = refusal.LongLiteral; at = offset }) }
{
    LexFault::LongLiteral {
        offset,
        literal: LongLiteral::Number { digits },
    }
}

fn string_kind(start: usize, text: &[u8], closed: bool) -> Result<Option<TokenKind>, LexFault>
    requires some { 0 < length text.now }
    requires opens { slice_index text.now 0 ≡ characters.quote }
    requires room { start + length text.now < 2 ^ 64 }
    ensures outcome { outcome_of start text.now result
        ≡ Some (lexing.token_of start text.now (quotation_of text.now closed)) }
    ensures within { IfOk result (λ kind. IfSome kind (λ k. IsNumberWithin k text.now)) }
    ensures characters { IfOk result (λ kind. IfSome kind (λ k. IsStringWithin k text.now)) }
{
    if !closed {
        return Err(LexFault::OpenString { offset: start });
    }
    let characters = character_count(text);
    if characters > MAX_STRING_CHARACTERS {
        return Err(LexFault::LongLiteral {
            offset: start,
            literal: LongLiteral::String { characters },
        });
    }
    match first_unprintable(text) {
        Some(place) => Err(LexFault::StrayCharacter {
            offset: start + place,
            place: StrayPlace::InString,
        }),
        None => Ok(Some(TokenKind::String)),
    }
}

/// The offset of the first byte that a string may not hold.
fn first_unprintable(text: &[u8]) -> Option<usize>
    ensures { result ≡ position (λ c. not (characters.is_printable c)) text.now }
{
    text.iter().position(|byte| !is_printable(*byte))
}

/// How many characters a string has, of which two quotes side by side are one (ISO/IEC 9075:1992, 5.3).
fn character_count(text: &[u8]) -> usize
    requires { 0 < length text.now }
    ensures { result ≡ characters.character_count (unquoted false (behind_first text.now)) }
{
    let body = &text[1..];
    let mut count = 0;
    let mut after_quote = false;
    for byte in body {
        if *byte == b'\'' && !after_quote {
            after_quote = true;
        } else {
            after_quote = false;
            if begins_character(*byte) {
                count += 1;
            }
        }
    }
    count
}
