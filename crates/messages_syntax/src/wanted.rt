//! What could have stood where a script goes wrong.

use crate::dialects::hint_for;
use crate::nearest::Nearest;
use crate::seen::Seen;
use crate::spelling::{begins_with_word, first_word, is_one_of, is_type};
use lexer::{Symbol, TokenKind, Word};
use messages_excerpts::Visible;
use std::alloc::Global;
use std::fmt::{self, Formatter};
use syntax::{MAX_LEVELS, TokenClass, Unexpected};

/// What stands before a class in a list.
fn separator_before(class: TokenClass, is_last: bool) -> &'static str {
    if is_last && !matches!(class, TokenClass::Quantifier) {
        " or "
    } else {
        ", "
    }
}

/// A class as people call it, which may be the last of a list.
fn write_class<W: fmt::Write>(
    f: &mut Formatter<W>,
    class: TokenClass,
    is_last: bool,
) -> fmt::Result {
    match class {
        TokenClass::Symbol(symbol) => write!(f, "\"{}\"", symbol.as_str()),
        class => f.write_str(name_of(class, is_last)),
    }
}

/// The name of a class, which may be the last of a list.
fn name_of(class: TokenClass, is_last: bool) -> &'static str {
    match class {
        TokenClass::Name => "a name",
        TokenClass::Number => "a number",
        TokenClass::WholeNumber => "a whole number",
        TokenClass::String => "a string",
        TokenClass::Type => "a type",
        TokenClass::Value => "a value",
        TokenClass::Quantifier if is_last => "ALL, ANY or SOME",
        TokenClass::Quantifier => "ALL, ANY, SOME",
        TokenClass::Arithmetic => "an arithmetic operator",
        TokenClass::Operator => "an operator",
        TokenClass::Word(word) => word.as_str(),
        TokenClass::Symbol(symbol) => symbol.as_str(),
    }
}

/// `expected ")" or ",", found NOT`.
pub fn write_unexpected<W: fmt::Write>(
    f: &mut Formatter<W>,
    script: &str,
    unexpected: &Unexpected,
) -> fmt::Result {
    f.write_str("expected ")?;
    let classes = unexpected.wanted.classes();
    let mut is_first = true;
    for (place, class) in classes.iter().enumerate() {
        if is_taken_in(*class, classes) {
            continue;
        }
        let is_last = place + 1 == classes.len();
        if !is_first {
            f.write_str(separator_before(*class, is_last))?;
        }
        is_first = false;
        write_class(f, *class, is_last)?;
    }
    match unexpected.found {
        Some(_) => write!(f, ", found {}", Visible(token_text(script, unexpected))),
        None => f.write_str(", found the end of the script"),
    }
}

/// Whether another class that could have stood there takes a class in, so that one name tells both.
fn is_taken_in(class: TokenClass, classes: &[TokenClass]) -> bool {
    matches!(class, TokenClass::Arithmetic) && classes.contains(&TokenClass::Operator)
}

/// That too many levels are open.
pub fn write_too_deep<W: fmt::Write>(f: &mut Formatter<W>) -> fmt::Result {
    write!(
        f,
        "more than {MAX_LEVELS} levels of parentheses, signs and NOTs are open here"
    )
}

/// What was meant by a word or a sign of another dialect; or that a reserved word is no name; or a word that is near the one that stands there;
/// or what stands between result columns.
pub fn write_unexpected_hint<W: fmt::Write>(
    f: &mut Formatter<W>,
    alloc: Global,
    script: &str,
    unexpected: &Unexpected,
) -> fmt::Result {
    if let Some(hint) = hint_for(script, unexpected) {
        return writeln!(f, "hint: {hint}");
    }
    let seen = Seen::new(script, unexpected);
    match unexpected.found {
        Some(TokenKind::Reserved(word)) if is_meant_as_name(&seen, word) => {
            let word = word.as_str();
            writeln!(f, "hint: {word} is a reserved word and can't be a name")
        }
        Some(TokenKind::Name) => write_near_word(f, alloc, &seen),
        Some(TokenKind::Mark(Symbol::OpenParen)) => write_subquery_word(f, alloc, &seen),
        _ => Ok(()),
    }
}

/// Before a subquery in parentheses, a word that is near the one that stands there.
fn write_subquery_word<W: fmt::Write>(
    f: &mut Formatter<W>,
    alloc: Global,
    seen: &Seen,
) -> fmt::Result {
    if !begins_with_word(seen.rest, "SELECT") {
        return Ok(());
    }
    let Ok(before) = seen.before.to_ascii_uppercase(alloc) else {
        return Ok(());
    };
    let mut nearest = Nearest::new(alloc, before.as_str());
    nearest.offer_word(Word::Exists.as_str());
    offer(&mut nearest, &QUANTIFIER_WORDS);
    nearest.write_hint(f)
}

/// Whether a reserved word stands where a name could, before what goes on behind a name. One that goes on with a condition is never meant so.
fn is_meant_as_name(seen: &Seen, word: Word) -> bool {
    let could_stand = seen.wants(TokenClass::Name) || seen.wants(TokenClass::Value);
    could_stand && !is_of_condition(word) && goes_on_behind_name(seen)
}

/// Whether a word stands in conditions or begins a query.
fn is_of_condition(word: Word) -> bool {
    matches!(
        word,
        Word::And
            | Word::Or
            | Word::Not
            | Word::As
            | Word::Is
            | Word::In
            | Word::Like
            | Word::Between
            | Word::Null
            | Word::Exists
            | Word::Select
    )
}

/// Whether what stands behind a word is what goes on behind a name: a type, a sign, or a word of a clause or a condition. Behind the word of a type
/// a sign says nothing, since the name before it may be missing.
fn goes_on_behind_name(seen: &Seen) -> bool {
    if is_type(seen.next()) {
        return true;
    }
    if is_type(seen.found) {
        return false;
    }
    match seen.next_sign() {
        b',' | b')' | b';' | b'=' | b'<' | b'>' | b'*' | b'/' => true,
        b'(' => seen.follows("TABLE") || seen.follows("ON"),
        _ => is_one_of(seen.next(), &BEHIND_NAMES),
    }
}

/// The words that go on behind names.
static BEHIND_NAMES: [&str; 15] = [
    "FROM", "WHERE", "GROUP", "HAVING", "ORDER", "AS", "ASC", "DESC", "IS", "IN", "LIKE",
    "BETWEEN", "AND", "OR", "NOT",
];

/// The words that begin types.
static TYPE_WORDS: [Word; 8] = [
    Word::Smallint,
    Word::Integer,
    Word::Int,
    Word::Numeric,
    Word::Decimal,
    Word::Dec,
    Word::Character,
    Word::Char,
];

/// The words that begin values.
static VALUE_WORDS: [Word; 7] = [
    Word::Count,
    Word::Sum,
    Word::Avg,
    Word::Min,
    Word::Max,
    Word::Exists,
    Word::Not,
];

/// The words that go on behind values.
static OPERATOR_WORDS: [Word; 5] = [Word::Is, Word::Not, Word::Between, Word::Like, Word::In];

static QUANTIFIER_WORDS: [Word; 3] = [Word::All, Word::Any, Word::Some];

fn write_near_word<W: fmt::Write>(f: &mut Formatter<W>, alloc: Global, seen: &Seen) -> fmt::Result {
    let Ok(found) = seen.found.to_ascii_uppercase(alloc) else {
        return Ok(());
    };
    let mut nearest = Nearest::new(alloc, found.as_str());
    for class in seen.unexpected.wanted.classes() {
        match class {
            TokenClass::Word(word) => nearest.offer_word(word.as_str()),
            TokenClass::Type => offer(&mut nearest, &TYPE_WORDS),
            TokenClass::Value => offer(&mut nearest, &VALUE_WORDS),
            TokenClass::Operator => offer(&mut nearest, &OPERATOR_WORDS),
            TokenClass::Quantifier => offer(&mut nearest, &QUANTIFIER_WORDS),
            _ => {}
        }
    }
    if nearest.name().is_none() && is_behind_item(seen) {
        return write_item_hint(f, alloc, seen);
    }
    nearest.write_hint(f)
}

/// Behind a result column: that a comma is missing; or that the column stands where DISTINCT was meant.
fn write_item_hint<W: fmt::Write>(f: &mut Formatter<W>, alloc: Global, seen: &Seen) -> fmt::Result {
    let Ok(before) = seen.before.to_ascii_uppercase(alloc) else {
        return Ok(());
    };
    let mut nearest = Nearest::new(alloc, before.as_str());
    if seen.earlier().eq_ignore_ascii_case("SELECT") {
        nearest.offer_word(Word::Distinct.as_str());
    }
    if nearest.name().is_none() {
        return f.write_str("hint: a comma stands between two columns, and AS before a new name\n");
    }
    nearest.write_hint(f)
}

/// Whether a result column is whole before the name that stands there, and the list or the query goes on behind it.
fn is_behind_item(seen: &Seen) -> bool {
    let wants_name = seen.wants(TokenClass::Word(Word::As));
    wants_name && (seen.next_sign() == b',' || begins_from(seen.rest))
}

/// Whether a text begins with FROM and a name.
fn begins_from(text: &str) -> bool {
    let text = text.trim_start();
    let is_from = begins_with_word(text, "FROM");
    let table = first_word(text.get("FROM".len()..).unwrap_or(""));
    is_from && !table.is_empty() && !is_one_of(table, &BEHIND_FROM)
}

/// The words that come behind the tables of FROM.
static BEHIND_FROM: [&str; 4] = ["WHERE", "GROUP", "HAVING", "ORDER"];

fn offer(nearest: &mut Nearest, words: &[Word]) {
    for word in words {
        nearest.offer_word(word.as_str());
    }
}

/// The token that stands at the place, as it is written.
fn token_text<'a>(script: &'a str, unexpected: &Unexpected) -> &'a str {
    let end = unexpected.offset.saturating_add(unexpected.length);
    script.get(unexpected.offset..end).unwrap_or("")
}
