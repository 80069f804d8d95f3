//! Tokens: each with its kind, its place and its slice of the script.

ghost use Rattle.std.proofs.Props.{props};
ghost use Rattle.lexer.specs.Within.{IsNumberWithin, IsStringWithin};

use crate::word::Word;

/// A symbol (ISO/IEC 9075:1992, 5.1 and 5.2).
#[derive(Clone, Copy, PartialEq, Eq)]
pub enum Symbol {
    OpenParen,
    CloseParen,
    Comma,
    Semicolon,
    Point,
    Asterisk,
    Plus,
    Minus,
    Solidus,
    Equals,
    NotEquals,
    LessThan,
    GreaterThan,
    LessOrEquals,
    GreaterOrEquals,
}

/// What a token is, wherever it stands; a name and a string are in its text.
#[derive(Clone, Copy, PartialEq, Eq)]
pub enum TokenKind {
    Reserved(Word),
    /// An identifier that is no reserved word.
    Name,
    /// An unsigned number.
    Numeral,
    /// A character string literal.
    String,
    Mark(Symbol),
}

/// A token of a script.
#[derive(Clone, Copy)]
pub struct Token<'a> {
    pub kind: TokenKind,
    /// Its slice of the script.
    pub text: &'a str,
    /// The offset of its first byte in the script.
    pub start: usize,
    pub ghost within: { IsNumberWithin kind text.now },
    pub ghost characters: { IsStringWithin kind text.now } by { Prim.hlevel props },
}
