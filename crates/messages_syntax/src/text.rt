//! Faults of a script's text.

use crate::dialects::REMARK;
use crate::spelling::{first_word, is_one_of, last_word};
use lexer::{
    LexFault, LongLiteral, MAX_DIGITS, MAX_NAME_CHARACTERS, MAX_STRING_CHARACTERS, StrayPlace,
};
use std::fmt::{self, Formatter};

/// What is wrong with the text.
pub fn write_lexical<W: fmt::Write>(
    f: &mut Formatter<W>,
    script: &str,
    fault: LexFault,
) -> fmt::Result {
    match fault {
        LexFault::StrayCharacter { offset, place } => {
            f.write_str(stray_problem(place, character_at(script, offset)))
        }
        LexFault::OpenString { .. } => f.write_str("this string has no closing quote"),
        LexFault::LongLiteral { literal, .. } => write_long(f, literal),
        LexFault::LongName { characters, .. } => write!(
            f,
            "a name has at most {MAX_NAME_CHARACTERS} characters, and this one has {characters}"
        ),
        LexFault::Memory { .. } => Ok(()),
    }
}

fn write_long<W: fmt::Write>(f: &mut Formatter<W>, literal: LongLiteral) -> fmt::Result {
    match literal {
        LongLiteral::Number { digits } => write!(
            f,
            "a number has at most {MAX_DIGITS} digits, and this one has {digits}"
        ),
        LongLiteral::String { characters } => write!(
            f,
            "a string has at most {MAX_STRING_CHARACTERS} characters, and this one has {characters}"
        ),
    }
}

fn stray_problem(place: StrayPlace, character: char) -> &'static str {
    match (place, character) {
        (StrayPlace::BehindNumber, _) =>
            "a letter or an underscore stands directly behind a number",
        (StrayPlace::InString, '\n' | '\r') => "a string can't hold a line break",
        (StrayPlace::InString, '\t') => "a string can't hold a tab",
        (StrayPlace::InString, _) => "a string can't hold this character",
        (StrayPlace::Apart, '\u{feff}') => "a byte order mark stands here, which no editor shows",
        (StrayPlace::Apart, _) => "no token begins with this character",
    }
}

/// A hint for what was meant: by what leads astray before the place, or else by the character there.
pub fn write_lexical_hint<W: fmt::Write>(
    f: &mut Formatter<W>,
    script: &str,
    fault: LexFault,
) -> fmt::Result {
    let hint = match fault {
        LexFault::StrayCharacter { offset, place } => match astray_hint(line_before(
            script, offset,
        )) {
            Some(hint) => Some(hint),
            None => stray_hint(script, place, offset),
        },
        LexFault::OpenString { offset } => astray_hint(line_before(script, offset)),
        _ => None,
    };
    match hint {
        Some(hint) => writeln!(f, "hint: {hint}"),
        None => Ok(()),
    }
}

/// What stands before a byte in its line.
fn line_before(script: &str, offset: usize) -> &str {
    let head = script.get(..offset).unwrap_or("");
    match head.rsplit_once('\n') {
        Some((_, line)) => line,
        None => head,
    }
}

/// A hint for what leads astray in a line: a remark of another dialect, or a quote within a word, behind which letters stand that begin no word of
/// a condition.
fn astray_hint(line: &str) -> Option<&'static str> {
    let mut is_inside = false;
    let mut ends_word = false;
    let mut before = b' ';
    for (place, byte) in line.as_bytes().iter().enumerate() {
        if *byte == b'\'' {
            is_inside = !is_inside;
            ends_word = before.is_ascii_alphanumeric();
        } else if !is_inside && before == b'/' && *byte == b'*' {
            return Some(REMARK);
        } else if !is_inside && ends_word && before == b'\'' && goes_on_with_text(line, place) {
            return Some(QUOTE);
        }
        before = *byte;
    }
    None
}

const QUOTE: &str = "a quote within a text is written twice, as in 'O''Hara'";

/// Whether letters stand at a byte that begin no word that may follow a text.
fn goes_on_with_text(line: &str, place: usize) -> bool {
    let word = first_word(line.get(place..).unwrap_or(" "));
    let is_letter = match line.as_bytes().get(place) {
        Some(byte) => byte.is_ascii_alphabetic(),
        None => false,
    };
    is_letter && !is_one_of(word, &BEHIND_TEXTS)
}

/// The words that may stand right behind a text.
static BEHIND_TEXTS: [&str; 13] = [
    "AND", "OR", "FROM", "AS", "GROUP", "HAVING", "ORDER", "LIKE", "IN", "IS", "NOT", "BETWEEN",
    "ESCAPE",
];

fn stray_hint(script: &str, place: StrayPlace, offset: usize) -> Option<&'static str> {
    match (place, character_at(script, offset)) {
        (StrayPlace::InString, _) => {
            Some("strings hold printable ASCII: A to Z, a to z, 0 to 9, punctuation and spaces")
        }
        (StrayPlace::Apart, character) => sign_hint(script, character, offset),
        _ => None,
    }
}

/// A hint for a character that begins no token.
fn sign_hint(script: &str, character: char, offset: usize) -> Option<&'static str> {
    let head = line_before(script, offset);
    let rest = script.get(offset..).unwrap_or("");
    match character {
        '"' => Some(
            "strings stand in straight single quotes, as in 'Ada', and names without quotes",
        ),
        '%' => percent_hint(head),
        '#' if head.ends_with("=") || head.ends_with("-") => Some(
            "a prompt stands before the statement: leave it out",
        ),
        '\\' => Some("commands that begin with \\ are another program's"),
        '|' if rest.starts_with("||") => Some("there is no ||: texts can't be put together"),
        '`' if rest.starts_with("```") => None,
        _ => character_hint(character),
    }
}

/// Of a percent sign: one without a quote belongs to a pattern behind LIKE, and one behind a value is an operator elsewhere.
fn percent_hint(head: &str) -> Option<&'static str> {
    let last = last_word(head);
    let start = head.len().saturating_sub(last.len());
    let earlier = last_word(head.get(..start).unwrap_or("").trim_end());
    let is_pattern = earlier.eq_ignore_ascii_case("LIKE");
    let is_behind_like = last_word(head.trim_end()).eq_ignore_ascii_case("LIKE");
    if is_pattern || is_behind_like {
        return Some("a pattern stands in quotes, as in LIKE 'A%'");
    }
    match head.trim_end().as_bytes().last() {
        Some(byte) if byte.is_ascii_alphanumeric() || *byte == b')' => {
            Some("the operators are + - * and /")
        }
        _ => None,
    }
}

fn character_hint(character: char) -> Option<&'static str> {
    match character {
        '\u{2018}' | '\u{2019}' | '\u{201c}' | '\u{201d}' | '\u{201e}' => {
            Some("strings stand in straight single quotes, as in 'Ada'")
        }
        '`' | '[' => Some("names stand without quotes and brackets"),
        '#' => Some(REMARK),
        '&' => Some("and is AND"),
        '!' | '\u{2260}' => Some("not equal is <>"),
        '\u{2264}' => Some("less or equal is <="),
        '\u{2265}' => Some("greater or equal is >="),
        '\u{2212}' | '\u{2013}' => Some("minus is the - of the keyboard"),
        '\u{a0}' => Some("this is a space that doesn't break; type a plain one"),
        '\u{feff}' => Some("save the script without a byte order mark"),
        _ if character.is_alphabetic() => {
            Some("names are of the letters A to Z and a to z, digits and underscores")
        }
        _ => None,
    }
}

/// The character at a byte; a space where there is none.
fn character_at(script: &str, offset: usize) -> char {
    match script.get(offset..) {
        Some(rest) => rest.chars().next().unwrap_or(' '),
        None => ' ',
    }
}
