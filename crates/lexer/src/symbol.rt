//! The symbols, of one character or two.

ghost use Rattle.std.specs.Prelude.{◌≡◌, [], ◌∷◌, Some, option_map};
ghost use Rattle.definitions.specs.Lexing.{symbol};
ghost use Rattle.lexer.specs.Meaning.{symbol_of};

use crate::token::Symbol;

impl Symbol {
    /// The characters of the symbol.
    pub fn as_str(self) -> &'static str
        ensures { symbol result.now ≡ Some (symbol_of self) }
    {
        match self {
            Symbol::OpenParen => "(",
            Symbol::CloseParen => ")",
            Symbol::Comma => ",",
            Symbol::Semicolon => ";",
            Symbol::Point => ".",
            Symbol::Asterisk => "*",
            Symbol::Plus => "+",
            Symbol::Minus => "-",
            Symbol::Solidus => "/",
            Symbol::Equals => "=",
            Symbol::NotEquals => "<>",
            Symbol::LessThan => "<",
            Symbol::GreaterThan => ">",
            Symbol::LessOrEquals => "<=",
            Symbol::GreaterOrEquals => ">=",
        }
    }

    /// The symbol that a byte is (ISO/IEC 9075:1992, 5.1).
    pub(crate) fn from_byte(byte: u8) -> Option<Symbol>
        ensures { option_map symbol_of result ≡ symbol (byte ∷ []) }
    {
        match byte {
            b'(' => Some(Symbol::OpenParen),
            b')' => Some(Symbol::CloseParen),
            b',' => Some(Symbol::Comma),
            b';' => Some(Symbol::Semicolon),
            b'.' => Some(Symbol::Point),
            b'*' => Some(Symbol::Asterisk),
            b'+' => Some(Symbol::Plus),
            b'-' => Some(Symbol::Minus),
            b'/' => Some(Symbol::Solidus),
            b'=' => Some(Symbol::Equals),
            b'<' => Some(Symbol::LessThan),
            b'>' => Some(Symbol::GreaterThan),
            _ => None,
        }
    }

    /// The symbol that two bytes are (ISO/IEC 9075:1992, 5.2).
    pub(crate) fn from_pair(first: u8, second: u8) -> Option<Symbol>
        ensures { option_map symbol_of result ≡ symbol (first ∷ second ∷ []) }
    {
        match (first, second) {
            (b'<', b'>') => Some(Symbol::NotEquals),
            (b'<', b'=') => Some(Symbol::LessOrEquals),
            (b'>', b'=') => Some(Symbol::GreaterOrEquals),
            _ => None,
        }
    }
}
