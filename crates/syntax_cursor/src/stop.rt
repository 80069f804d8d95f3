//! Where the reading of tokens stops, and why.

ghost use Rattle.std.specs.Prelude.{◌≡◌};
ghost use Rattle.syntax_cursor.specs.declared.stop.ParseStop.TheVariants as stops;

use std::alloc::{AllocError, AllocFailed};

/// Where the tokens stop being read: at the place of the token with which nothing goes on, or of the one that
/// opens a level too many.
#[derive(Clone, Copy)]
pub enum ParseStop {
    Token(usize),
    Deep(usize),
    Memory,
}

impl From<AllocError> for ParseStop {
    ghost from_gives = { λ _ stop. stop ≡ stops.Memory };

    fn from(_error: AllocError) -> ParseStop {
        ParseStop::Memory
    }
}

impl<T: Drop> From<AllocFailed<T>> for ParseStop {
    ghost from_gives = { λ _ stop. stop ≡ stops.Memory };

    fn from(_error: AllocFailed<T>) -> ParseStop {
        ParseStop::Memory
    }
}
