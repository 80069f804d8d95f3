//! Lexical faults, each with its place and cause.

use thiserror::Error;

/// Why a script has no tokens: its leftmost lexical fault, and the byte that it stands at, or want of memory.
#[derive(Clone, Copy, Debug, Error)]
pub enum LexFault {
    #[error("a character that begins no token, at byte {offset}")]
    StrayCharacter { offset: usize, place: StrayPlace },
    #[error("a string that is not closed, at byte {offset}")]
    OpenString { offset: usize },
    #[error("a number of too many digits or a string of too many characters, at byte {offset}")]
    LongLiteral { offset: usize, literal: LongLiteral },
    #[error("an identifier of {characters} characters, at byte {offset}")]
    LongName { offset: usize, characters: usize },
    /// Memory was wanting for the token that begins at a byte.
    #[error("out of memory at byte {offset}")]
    Memory { offset: usize },
}

/// Where a character stands that begins no token.
#[derive(Clone, Copy, Debug)]
pub enum StrayPlace {
    /// Apart from the tokens before it.
    Apart,
    /// Directly behind a number.
    BehindNumber,
    /// In a string.
    InString,
}

/// A literal that is too long, and how long.
#[derive(Clone, Copy, Debug)]
pub enum LongLiteral {
    Number { digits: usize },
    String { characters: usize },
}
