//! How other programs write what is no number here.

/// How a field is written that is no number.
#[derive(Clone, Copy, PartialEq, Eq)]
pub(crate) enum Spelling {
    Empty,
    /// A word that says that nothing is there.
    Missing,
    /// A number with a space before or behind it.
    Spaced,
    WithComma,
    /// A number with a sign of a currency or %.
    WithSign,
    WithExponent,
    Other,
}

pub(crate) fn spelling_of(field: &[u8]) -> Spelling {
    if field.is_empty() {
        return Spelling::Empty;
    }
    if is_missing(field) {
        return Spelling::Missing;
    }
    if !has_digit(field) {
        return Spelling::Other;
    }
    if matches!(field, [b' ', ..] | [.., b' ']) {
        Spelling::Spaced
    } else if field.contains(&b',') {
        Spelling::WithComma
    } else if has_sign(field) {
        Spelling::WithSign
    } else if has_exponent(field) {
        Spelling::WithExponent
    } else {
        Spelling::Other
    }
}

/// Whether a sign of a currency or % stands in a field.
fn has_sign(field: &[u8]) -> bool {
    for character in str::from_utf8(field).unwrap_or("").chars() {
        if matches!(character, '$' | '%' | '\u{a3}' | '\u{a5}' | '\u{20ac}') {
            return true;
        }
    }
    false
}

/// Whether a field is a number with an exponent: digits, E, digits.
fn has_exponent(field: &[u8]) -> bool {
    let text = str::from_utf8(field).unwrap_or("");
    let parts = match text.split_once('e') {
        Some(parts) => Some(parts),
        None => text.split_once('E'),
    };
    match parts {
        Some((number, power)) => is_numeric(number.as_bytes()) && is_numeric(power.as_bytes()),
        None => false,
    }
}

/// Whether digits stand in a field, and nothing else but signs and points.
fn is_numeric(field: &[u8]) -> bool {
    for byte in field {
        if !matches!(*byte, b'0'..=b'9' | b'.' | b'+' | b'-') {
            return false;
        }
    }
    has_digit(field)
}

pub(crate) fn has_digit(field: &[u8]) -> bool {
    for byte in field {
        if byte.is_ascii_digit() {
            return true;
        }
    }
    false
}

/// Whether a field says that nothing is there, as other programs write it.
fn is_missing(field: &[u8]) -> bool {
    for word in &MISSING {
        if field.eq_ignore_ascii_case(word) {
            return true;
        }
    }
    false
}

static MISSING: [&[u8]; 6] = [b"\\N", b"NULL", b"NONE", b"NA", b"N/A", b"NAN"];
