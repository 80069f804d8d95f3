//! CREATE TABLE and CREATE INDEX as other dialects have them.

use crate::seen::Seen;
use crate::spelling::is_one_of;
use lexer::{Symbol, Word};
use syntax::TokenClass;

/// Of CREATE TABLE and CREATE INDEX.
pub(crate) fn definition_hint(seen: &Seen) -> Option<&'static str> {
    if seen.wants(TokenClass::Type) {
        return type_hint(seen);
    }
    if seen.is_word(Word::Primary) || seen.is_word(Word::Unique) {
        return key_hint(seen);
    }
    if seen.found == "(" && is_one_of(seen.before, &WHOLE_TYPES) {
        return Some("INTEGER and SMALLINT take no number of digits");
    }
    if is_one_of(seen.before, &EXACT_TYPES) {
        return digits_hint(seen);
    }
    if seen.follows("INDEX") && seen.is_name() {
        return Some("an index has no name of its own: CREATE INDEX ON ..");
    }
    if seen.follows("IF") && seen.is_word(Word::Not) {
        return Some("there is no IF NOT EXISTS: no table is there when a script begins");
    }
    if seen.is_word(Word::As) && seen.wants_only(TokenClass::Symbol(Symbol::OpenParen)) {
        return Some("there is no CREATE TABLE .. AS: rows come from LOAD name FROM 'file'");
    }
    column_hint(seen)
}

/// The types of whole numbers.
static WHOLE_TYPES: [&str; 3] = ["INT", "INTEGER", "SMALLINT"];

/// The types of numbers that tell their digits.
static EXACT_TYPES: [&str; 3] = ["NUMERIC", "DECIMAL", "DEC"];

/// Of types of numbers without their digits.
fn digits_hint(seen: &Seen) -> Option<&'static str> {
    if seen.wants(TokenClass::Symbol(Symbol::OpenParen)) {
        Some("its digits belong to the type, as in NUMERIC(7,2): 7 in all, 2 behind the point")
    } else {
        None
    }
}

/// Of keys: a column's key wants NOT NULL before it, and one of several columns is an index.
fn key_hint(seen: &Seen) -> Option<&'static str> {
    let is_of_columns = seen.next_sign() == b'(' || seen.goes_on("KEY");
    if seen.wants(TokenClass::Word(Word::Not)) && !seen.wants(TokenClass::Value) {
        Some("a column that is a key has NOT NULL before it")
    } else if seen.wants(TokenClass::Name) && is_of_columns {
        Some("a key of several columns is made by CREATE UNIQUE INDEX ON .. (.., ..)")
    } else {
        None
    }
}

/// Of what stands behind a column's type.
fn column_hint(seen: &Seen) -> Option<&'static str> {
    let is_behind_type = seen.wants(TokenClass::Word(Word::Not))
        && seen.wants(TokenClass::Symbol(Symbol::CloseParen))
        && !seen.wants(TokenClass::Operator);
    if is_behind_type {
        hint_in(&BEHIND_TYPES, seen)
    } else {
        None
    }
}

static BEHIND_TYPES: [(&str, &str); 4] = [
    (
        "DEFAULT",
        "there is no DEFAULT: each value stands in the file",
    ),
    (
        "CHECK",
        "there is no CHECK: a SELECT finds rows that are not as they should be",
    ),
    (
        "REFERENCES",
        "there is no REFERENCES: a SELECT finds rows that have no partner",
    ),
    (
        "NULL",
        "values may be missing where NOT NULL doesn't stand: leave NULL out",
    ),
];

/// Of types: that of the same values; or of words that begin what is no column.
fn type_hint(seen: &Seen) -> Option<&'static str> {
    if seen.follows("FOREIGN") && seen.finds("KEY") {
        return Some("there is no FOREIGN KEY: a SELECT finds rows that have no partner");
    }
    if seen.follows("CONSTRAINT") {
        return Some("keys have no names: PRIMARY KEY or UNIQUE stands behind a column's NOT NULL");
    }
    hint_in(&TYPES, seen)
}

/// The hint of the first line whose word stands there.
fn hint_in(lines: &[(&str, &'static str)], seen: &Seen) -> Option<&'static str> {
    for (word, hint) in lines {
        if seen.finds(word) {
            return Some(*hint);
        }
    }
    None
}

const TEXTS: &str = "texts are CHAR(n)";

const DATES: &str = "dates are kept as texts: CHAR(10) for '2026-01-05', which compare right";

const POINTS: &str = "numbers with a point are NUMERIC(p,s), and exact";

const TRUTHS: &str = "SMALLINT with 0 and 1 serves for it";

const COUNTING: &str = "INTEGER serves for it: numbers that count up stand in the file";

static TYPES: [(&str, &str); 17] = [
    ("VARCHAR", TEXTS),
    ("TEXT", TEXTS),
    ("STRING", TEXTS),
    ("NVARCHAR", TEXTS),
    ("DATE", DATES),
    ("TIME", DATES),
    ("TIMESTAMP", DATES),
    ("DATETIME", DATES),
    ("BIGINT", "NUMERIC(18) has whole numbers of up to 18 digits"),
    ("FLOAT", POINTS),
    ("REAL", POINTS),
    ("DOUBLE", POINTS),
    ("MONEY", POINTS),
    ("BOOLEAN", TRUTHS),
    ("BOOL", TRUTHS),
    ("SERIAL", COUNTING),
    ("BIGSERIAL", COUNTING),
];
