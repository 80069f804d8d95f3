//! Syntax faults: what stands there, and what could have stood there.

ghost use Rattle.std.specs.Prelude.{◌≡◌, slice_get};
ghost use Rattle.syntax.specs.Reading.{TellsStop, start_or};

use lexer::{Token, TokenKind};
use std::fmt;
use syntax_cursor::{ParseStop, Wanted};
use thiserror::Error;

/// Why tokens are no script.
#[derive(Clone, Copy, Debug, PartialEq, Eq, Error)]
pub enum SyntaxFault {
    /// No script goes on with what stands at a place.
    #[error("no script goes on with what stands at byte {offset}", offset = .0.offset)]
    Unexpected(Unexpected),
    /// More than 64 levels of parentheses, signs and NOTs are open at a byte of the script.
    #[error("more than 64 levels are open at byte {offset}")]
    TooDeep { offset: usize },
    /// Memory was wanting where a byte of the script was read.
    #[error("out of memory at byte {offset}")]
    Memory { offset: usize },
}

/// Memory was wanting where a byte of the script was read.
#[derive(Clone, Copy, Debug, PartialEq, Eq, Error)]
#[error("out of memory at byte {offset}")]
pub struct NoMemory {
    pub offset: usize,
}

/// What stands where no script goes on, and what could have stood there. Offsets are in bytes of
/// the script.
#[derive(Clone, Copy, PartialEq, Eq)]
pub struct Unexpected {
    /// The offset of the first token with which no script goes on, or the script's length.
    pub offset: usize,
    /// What stands there; `None` at the script's end.
    pub found: Option<TokenKind>,
    /// How many bytes the token there has; 0 at the script's end.
    pub length: usize,
    /// The offset of the byte behind the token before it, 0 where there is none: where a token is
    /// missing.
    pub behind: usize,
    /// What could have stood there.
    pub wanted: Wanted,
}

impl fmt::Debug for Unexpected {
    fn fmt<W: fmt::Write>(&self, f: &mut fmt::Formatter<W>) -> fmt::Result {
        write!(f, "Unexpected {{ offset: {}, .. }}", self.offset)
    }
}

/// The fault that a stop in some tokens is, in a script of `end` bytes, where the rules looked for some
/// classes of tokens; `here` is where they stopped.
pub fn fault_of(
    tokens: &[Token],
    end: usize,
    stop: ParseStop,
    here: usize,
    wanted: Wanted,
) -> SyntaxFault
    ensures { TellsStop tokens.now end stop result }
{
    match stop {
        ParseStop::Token(at) => SyntaxFault::Unexpected(unexpected_at(tokens, end, at, wanted)),
        ParseStop::Deep(at) => SyntaxFault::TooDeep {
            offset: offset_at(tokens, end, at),
        },
        ParseStop::Memory => SyntaxFault::Memory { offset: here },
    }
}

fn unexpected_at(tokens: &[Token], end: usize, at: usize, wanted: Wanted) -> Unexpected
    ensures { result.offset ≡ start_or end (slice_get tokens.now at) }
{
    let (found, length) = match tokens.get(at) {
        Some(token) => (Some(token.kind), token.text.len()),
        None => (None, 0),
    };
    Unexpected {
        offset: offset_at(tokens, end, at),
        found,
        length,
        behind: offset_behind(tokens, at),
        wanted,
    }
}

/// The offset of the token at a place, or the script's length.
fn offset_at(tokens: &[Token], end: usize, at: usize) -> usize
    ensures { result ≡ start_or end (slice_get tokens.now at) }
{
    match tokens.get(at) {
        Some(token) => token.start,
        None => end,
    }
}

/// The offset of the byte behind the token before a place, or 0 where there is none.
fn offset_behind(tokens: &[Token], at: usize) -> usize {
    let Some(before) = at.checked_sub(1) else {
        return 0;
    };
    match tokens.get(before) {
        Some(token) => token.start.saturating_add(token.text.len()),
        None => 0,
    }
}
