//! Words in a text, as they are written.

/// Whether a text begins with a word, behind blanks and in letters of whatever case.
pub(crate) fn begins_with_word(text: &str, word: &str) -> bool {
    first_word(text).eq_ignore_ascii_case(word)
}

/// Whether a word, in letters of whatever case, is one of some words.
pub(crate) fn is_one_of(word: &str, words: &[&str]) -> bool {
    for one in words {
        if word.eq_ignore_ascii_case(one) {
            return true;
        }
    }
    false
}

/// The letters, digits and underscores at the beginning of a text, behind blanks.
pub(crate) fn first_word(text: &str) -> &str {
    let text = text.trim_start();
    let mut end: usize = 0;
    for byte in text.as_bytes() {
        if !byte.is_ascii_alphanumeric() && *byte != b'_' {
            break;
        }
        end = end.saturating_add(1);
    }
    text.get(..end).unwrap_or("")
}

/// The letters, digits and underscores at the end of a text.
pub(crate) fn last_word(text: &str) -> &str {
    let mut start = text.len();
    for byte in text.as_bytes().iter().rev() {
        if !byte.is_ascii_alphanumeric() && *byte != b'_' {
            return text.get(start..).unwrap_or("");
        }
        start = start.saturating_sub(1);
    }
    text
}

/// The words that begin types here, and those that do elsewhere.
static TYPES: [&str; 26] = [
    "SMALLINT",
    "INTEGER",
    "INT",
    "NUMERIC",
    "DECIMAL",
    "DEC",
    "CHARACTER",
    "CHAR",
    "VARCHAR",
    "NVARCHAR",
    "TEXT",
    "STRING",
    "DATE",
    "TIME",
    "TIMESTAMP",
    "DATETIME",
    "BIGINT",
    "FLOAT",
    "REAL",
    "DOUBLE",
    "MONEY",
    "BOOLEAN",
    "BOOL",
    "SERIAL",
    "TINYINT",
    "BLOB",
];

/// Whether a word begins a type.
pub(crate) fn is_type(word: &str) -> bool {
    is_one_of(word, &TYPES)
}
