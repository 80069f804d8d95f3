//! The tokens of a script, or its leftmost lexical fault.
#![tactic(auto)]

mod byte;
mod fault;
mod kind;
mod lexeme;
mod number;
mod numeral;
mod scan;
mod symbol;
mod token;
mod word;

pub use fault::{LexFault, LongLiteral, StrayPlace};
pub use kind::{MAX_DIGITS, MAX_NAME_CHARACTERS, MAX_STRING_CHARACTERS};
pub use numeral::Numeral;
pub use scan::lex;
pub use token::{Symbol, Token, TokenKind};
pub use word::Word;
