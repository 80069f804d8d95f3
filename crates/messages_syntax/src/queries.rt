//! Clauses of queries as other dialects have them.

use crate::seen::Seen;
use crate::spelling::{first_word, is_one_of};
use lexer::{Symbol, Word};
use syntax::TokenClass;

/// A hint for clauses of queries in other dialects.
pub(crate) fn query_hint(seen: &Seen) -> Option<&'static str> {
    if let Some(hint) = key_hint(seen) {
        return Some(hint);
    }
    if let Some(hint) = from_hint(seen) {
        return Some(hint);
    }
    if let Some(hint) = column_hint(seen) {
        return Some(hint);
    }
    if could_end(seen) {
        return end_hint(seen);
    }
    if seen.is_number() && seen.follows("TOP") {
        return Some("there is no TOP: all rows are printed");
    }
    if seen.follows("CASE") && seen.finds("WHEN") {
        return Some("there is no CASE");
    }
    call_hint(seen)
}

/// Whether the query could have ended there, or the subquery.
fn could_end(seen: &Seen) -> bool {
    seen.wants(TokenClass::Symbol(Symbol::Semicolon)) || could_end_subquery(seen)
}

fn could_end_subquery(seen: &Seen) -> bool {
    seen.wants(TokenClass::Symbol(Symbol::CloseParen)) && seen.wants(TokenClass::Word(Word::Having))
}

const SORT_KEY: &str = "ORDER BY takes the name of a result column or its number, as ORDER BY 2";

/// Of ORDER BY and GROUP BY, whose lists take less than other dialects' do.
fn key_hint(seen: &Seen) -> Option<&'static str> {
    let is_expression = seen.is_set_function() || matches!(seen.found_sign(), b'(' | b'-' | b'+');
    if seen.wants(TokenClass::WholeNumber) && seen.wants(TokenClass::Name) && is_expression {
        return Some(SORT_KEY);
    }
    let goes_on = matches!(seen.found_sign(), b'.' | b'(' | b'-' | b'+' | b'*' | b'/');
    if seen.wants(TokenClass::Word(Word::Asc)) && goes_on {
        return Some(SORT_KEY);
    }
    if seen.follows("BY")
        && seen.wants_only(TokenClass::Name)
        && (seen.is_number() || is_expression)
    {
        return Some("GROUP BY takes the names of columns");
    }
    if seen.is_word(Word::Order) && could_end_subquery(seen) {
        return Some("a subquery has no ORDER BY");
    }
    None
}

/// Of FROM: its tables go by their names.
fn from_hint(seen: &Seen) -> Option<&'static str> {
    if !seen.follows("FROM") || !seen.wants_only(TokenClass::Name) {
        return None;
    }
    if seen.found == "(" && seen.goes_on("SELECT") {
        return Some("there is no query in FROM: it names tables");
    }
    let is_clause = seen.is_word(Word::Where) || seen.is_word(Word::Having);
    let is_pair = (seen.is_word(Word::Group) || seen.is_word(Word::Order)) && seen.goes_on("BY");
    if is_clause && !is_one_of(seen.next(), &BEHIND_TABLE) && !seen.next().is_empty() || is_pair {
        return Some("the name of a table is missing before it");
    }
    None
}

/// The words that come behind the tables of FROM.
static BEHIND_TABLE: [&str; 4] = ["WHERE", "GROUP", "HAVING", "ORDER"];

/// Of what stands between SELECT and FROM, and of LIKE.
fn column_hint(seen: &Seen) -> Option<&'static str> {
    if seen.is_word(Word::Unique) && seen.follows("SELECT") {
        return Some("DISTINCT leaves out rows that come again");
    }
    if seen.is_word(Word::On) && seen.follows("DISTINCT") {
        return Some("there is no DISTINCT ON: DISTINCT looks at whole rows");
    }
    if seen.is_word(Word::Distinct) && seen.sign == b',' {
        return Some("DISTINCT stands right behind SELECT, and looks at whole rows");
    }
    if seen.is_name() && seen.follows("LIKE") && seen.wants_only(TokenClass::String) {
        return Some("LIKE takes a pattern in quotes, and no column");
    }
    if seen.found == "," && seen.wants(TokenClass::Operator) && is_row(seen.rest) {
        return Some("rows aren't compared as a whole: compare value by value, with AND between");
    }
    let wants_from = seen.wants(TokenClass::Word(Word::From));
    if wants_from && seen.found == ";" {
        return Some("a SELECT has FROM and a table behind its columns");
    }
    if wants_from && seen.finds("INTO") {
        return Some("there is no INTO: what a SELECT finds is printed");
    }
    None
}

/// Whether a text goes on with the rest of a row of values: up to its parenthesis no other opens, and a comparison or IN stands behind it.
fn is_row(text: &str) -> bool {
    let Some((values, behind)) = text.split_once(')') else {
        return false;
    };
    let is_compared = matches!(behind.trim_start().as_bytes(), [b'=' | b'<' | b'>', ..]);
    !values.contains('(') && (is_compared || is_one_of(first_word(behind), &["IN", "NOT"]))
}

/// Where a query could have ended.
fn end_hint(seen: &Seen) -> Option<&'static str> {
    if seen.follows("JOIN") && seen.is_name() {
        return Some(JOIN);
    }
    if seen.follows("LIMIT") && seen.is_number() {
        return Some(LIMIT);
    }
    if seen.follows("OFFSET") && seen.is_number() {
        return Some(OFFSET);
    }
    if let Some(hint) = pair_hint(seen) {
        return Some(hint);
    }
    if seen.is_word(Word::As) && seen.wants(TokenClass::Name) {
        return Some("the other name of a table stands behind it without AS");
    }
    call_hint(seen)
}

/// The hint of the first line whose two words stand there, behind one another, or of a join's.
fn pair_hint(seen: &Seen) -> Option<&'static str> {
    let is_join = seen.goes_on("JOIN") || seen.goes_on("OUTER");
    if is_join && is_one_of(seen.found, &INNER_JOINS) {
        return Some(JOIN);
    }
    if is_join && is_one_of(seen.found, &OUTER_JOINS) {
        return Some(OUTER_JOIN);
    }
    for (before, word, hint) in &PAIRS {
        if seen.finds(word) && (before.is_empty() || seen.follows(before)) {
            return Some(*hint);
        }
    }
    None
}

static INNER_JOINS: [&str; 3] = ["INNER", "CROSS", "NATURAL"];

static OUTER_JOINS: [&str; 3] = ["LEFT", "RIGHT", "FULL"];

const OUTER_JOIN: &str = "there is no outer join: only rows that meet the condition are joined";

const JOIN: &str = "to join tables write a comma between them, and the condition behind WHERE";

const LIMIT: &str = "there is no LIMIT: all rows are printed";

const OFFSET: &str = "there is no OFFSET: all rows are printed";

const FETCH: &str = "there is no FETCH: all rows are printed";

const SET_OPERATION: &str = "there is no UNION, EXCEPT or INTERSECT: a query is one SELECT";

/// A word, or none for whatever stands there, and the word behind it.
static PAIRS: [(&str, &str, &str); 20] = [
    ("LEFT", "JOIN", OUTER_JOIN),
    ("RIGHT", "JOIN", OUTER_JOIN),
    ("FULL", "JOIN", OUTER_JOIN),
    ("OUTER", "JOIN", OUTER_JOIN),
    ("", "JOIN", JOIN),
    ("", "LIMIT", LIMIT),
    ("", "OFFSET", OFFSET),
    ("FETCH", "FIRST", FETCH),
    ("FETCH", "NEXT", FETCH),
    (
        "",
        "NULLS",
        "nulls come before all values, and behind them under DESC",
    ),
    (
        "",
        "ESCAPE",
        "there is no ESCAPE: % and _ always stand for other characters",
    ),
    ("UNION", "SELECT", SET_OPERATION),
    ("UNION", "ALL", SET_OPERATION),
    ("EXCEPT", "SELECT", SET_OPERATION),
    ("INTERSECT", "SELECT", SET_OPERATION),
    ("MINUS", "SELECT", SET_OPERATION),
    ("", "UNION", SET_OPERATION),
    ("", "EXCEPT", SET_OPERATION),
    ("", "INTERSECT", SET_OPERATION),
    ("", "MINUS", SET_OPERATION),
];

/// Of a parenthesis right behind a word that is no function. Where no argument stands behind it, another word or sign was meant.
fn call_hint(seen: &Seen) -> Option<&'static str> {
    if !seen.is_joined() || !begins_argument(seen.rest) {
        return None;
    }
    let is_behind_value = seen.wants(TokenClass::Operator) || seen.wants(TokenClass::Arithmetic);
    let is_behind_name =
        matches!(seen.before.as_bytes(), [first, ..] if first.is_ascii_alphabetic());
    if seen.found == "(" && is_behind_value && is_behind_name {
        Some("the functions here are COUNT, SUM, AVG, MIN and MAX")
    } else {
        None
    }
}

/// Whether a function's arguments may begin with a text: it begins with no sign of a comparison and with no word that goes on with a condition or
/// begins a subquery.
fn begins_argument(text: &str) -> bool {
    let has_sign = matches!(
        text.trim_start().as_bytes(),
        [b'=' | b'<' | b'>' | b',' | b';', ..]
    );
    !has_sign && !is_one_of(first_word(text), &NO_ARGUMENTS)
}

static NO_ARGUMENTS: [&str; 8] = ["SELECT", "IN", "IS", "LIKE", "BETWEEN", "AND", "OR", "NOT"];
