//! Classes of bytes: letters, digits, blanks and the ends of lines.

ghost use Rattle.std.specs.Prelude.{◌≡◌};
ghost use Rattle.definitions.specs.Characters as characters;

/// A letter (ISO/IEC 9075:1992, 5.1).
pub fn is_letter(byte: u8) -> bool
    ensures { result ≡ characters.is_letter byte }
{
    byte.is_ascii_alphabetic()
}

/// A digit (ISO/IEC 9075:1992, 5.1).
pub fn is_digit(byte: u8) -> bool
    ensures { result ≡ characters.is_digit byte }
{
    byte.is_ascii_digit()
}

/// What an identifier goes on with (ISO/IEC 9075:1992, 5.2).
pub fn is_word_byte(byte: u8) -> bool
    ensures { result ≡ characters.is_word_byte byte }
{
    is_letter(byte) || is_digit(byte) || byte == b'_'
}

/// A separator of one byte (ISO/IEC 9075:1992, 5.2).
pub fn is_blank(byte: u8) -> bool
    ensures { result ≡ characters.is_blank byte }
{
    matches!(byte, b' ' | b'\t' | b'\n' | b'\r')
}

/// A character that a string may hold (own).
pub fn is_printable(byte: u8) -> bool
    ensures { result ≡ characters.is_printable byte }
{
    matches!(byte, b' '..=b'~')
}

/// The first byte of a character in UTF-8 (RFC 3629, 3).
pub fn begins_character(byte: u8) -> bool
    ensures { result ≡ characters.begins_character byte }
{
    !matches!(byte, 0x80..=0xbf)
}
