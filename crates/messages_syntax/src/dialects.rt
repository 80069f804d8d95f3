//! Words and signs of other dialects of SQL, and slips that people know from them: what stands here in their place.

use crate::create::definition_hint;
use crate::queries::query_hint;
use crate::seen::Seen;
use crate::spelling::is_type;
use lexer::{Symbol, TokenKind, Word};
use syntax::{TokenClass, Unexpected};

/// A hint for what was meant, where one is sure.
pub(crate) fn hint_for(script: &str, unexpected: &Unexpected) -> Option<&'static str> {
    let seen = Seen::new(script, unexpected);
    if let Some(hint) = sign_hint(&seen) {
        return Some(hint);
    }
    if let Some(hint) = query_hint(&seen) {
        return Some(hint);
    }
    if let Some(hint) = definition_hint(&seen) {
        return Some(hint);
    }
    statement_hint(&seen)
}

/// A hint for signs and remarks of other dialects.
fn sign_hint(seen: &Seen) -> Option<&'static str> {
    if seen.is_joined() {
        match (seen.sign, seen.found_sign()) {
            (b'/', b'*') => return Some(REMARK),
            (b'=', b'=') => return Some("equal is a single ="),
            _ => {}
        }
    }
    match (seen.sign, seen.found_sign()) {
        (_, b'/') if seen.rest.starts_with("*") => Some(REMARK),
        (b'.', b'*') if seen.goes_on("FROM") || seen.next_sign() == b',' => {
            Some("there is no .* here: name the columns, or write * alone")
        }
        (b'*', b',') if seen.wants(TokenClass::Word(Word::From)) => {
            Some("* stands alone: name the columns, or leave out the others")
        }
        (b'=' | b'>', _) if seen.is_word(Word::Null) => {
            Some("IS NULL asks whether a value is missing, and IS NOT NULL whether it is there")
        }
        (b';', b';') => Some("a single ; ends a statement"),
        (b',', _) if ends_list(seen) => Some("the comma before it is one too many"),
        _ => None,
    }
}

pub(crate) const REMARK: &str = "a remark begins with -- and ends with its line";

/// Whether a list of names or values could go on, and what stands there goes on with the statement: FROM behind a list of values, the word of a
/// clause or the statement's end behind one of names, and a parenthesis where one is open.
fn ends_list(seen: &Seen) -> bool {
    let is_of_names = seen.wants(TokenClass::Name);
    let is_list = is_of_names || seen.wants(TokenClass::Value);
    is_list
        && match seen.unexpected.found {
            Some(TokenKind::Reserved(Word::From)) => !is_of_names && begins_clause(seen),
            Some(TokenKind::Reserved(Word::Group | Word::Order)) => {
                is_of_names && seen.goes_on("BY")
            }
            Some(TokenKind::Reserved(Word::Where | Word::Having)) => {
                is_of_names && begins_clause(seen)
            }
            Some(TokenKind::Mark(Symbol::CloseParen)) => seen.is_in_parentheses(),
            Some(TokenKind::Mark(Symbol::Semicolon)) => is_of_names,
            _ => false,
        }
}

/// Whether what stands behind the word of a clause could begin it: no sign that goes on behind a name does, no type, and no word of a clause.
fn begins_clause(seen: &Seen) -> bool {
    let is_sign = matches!(
        seen.next_sign(),
        b',' | b')' | b';' | b'=' | b'<' | b'>' | b'*' | b'/' | b'.' | 0
    );
    !is_sign && !is_type(seen.next()) && !seen.goes_on("FROM")
}

/// Of the words that begin statements.
fn statement_hint(seen: &Seen) -> Option<&'static str> {
    if begins_statement(seen) && seen.wants(TokenClass::Symbol(Symbol::Semicolon)) {
        return Some("a \";\" is missing before it, where the statement before ends");
    }
    if seen.unexpected.found.is_none() && seen.wants(TokenClass::Symbol(Symbol::Semicolon)) {
        return Some("a \";\" ends each statement");
    }
    if seen.is_of_statement("LOAD") {
        return load_hint(seen);
    }
    if !seen.wants(TokenClass::Word(Word::Load)) {
        return None;
    }
    if has_prompt(seen) {
        return Some("a prompt stands before the statement: leave it out");
    }
    if seen.found == "." {
        return Some("commands that begin with a point are another program's");
    }
    for (word, hint) in &STATEMENTS {
        if seen.finds(word) {
            return Some(*hint);
        }
    }
    None
}

/// Whether the prompt of a program stands there, as `name=>` or `name>`.
fn has_prompt(seen: &Seen) -> bool {
    seen.is_name() && (seen.rest.starts_with("=>") || seen.rest.starts_with(">"))
}

/// Of LOAD, whose file is read as it is.
fn load_hint(seen: &Seen) -> Option<&'static str> {
    if seen.is_word(Word::Table) && seen.follows("LOAD") {
        return Some("LOAD name FROM 'file' names its table without TABLE");
    }
    if seen.follows("INTO") && seen.wants_only(TokenClass::Word(Word::From)) {
        return Some("LOAD name FROM 'file' names its table without INTO");
    }
    if seen.is_word(Word::From) && seen.follows("LOAD") {
        return Some("the name of the table is missing: LOAD name FROM 'file'");
    }
    if seen.is_name() && seen.wants_only(TokenClass::Symbol(Symbol::Semicolon)) {
        return Some(
            "LOAD has no options: fields are parted by commas, and no heading stands above them",
        );
    }
    None
}

const ROWS: &str = "rows come from LOAD name FROM 'file'";

const LASTING: &str = "tables last until the script ends, and what is loaded isn't changed";

const TRANSACTION: &str =
    "there are no transactions: each statement is done when its line is printed";

const THE_END: &str = "a script ends where its text does";

/// Of a file of certificates that is given as a script.
const CERTIFICATES: &str =
    "this is a certificate: check takes the script first, and then its certificates";

static STATEMENTS: [(&str, &str); 22] = [
    ("CERTIFICATE", CERTIFICATES),
    ("INSERT", ROWS),
    ("COPY", ROWS),
    ("VALUES", ROWS),
    ("DROP", LASTING),
    ("DELETE", LASTING),
    ("UPDATE", LASTING),
    ("ALTER", LASTING),
    ("TRUNCATE", LASTING),
    ("BEGIN", TRANSACTION),
    ("START", TRANSACTION),
    ("COMMIT", TRANSACTION),
    ("ROLLBACK", TRANSACTION),
    ("EXIT", THE_END),
    ("QUIT", THE_END),
    ("SHOW", "there is no SHOW: a script makes its tables itself"),
    (
        "DESCRIBE",
        "there is no DESCRIBE: a script makes its tables itself",
    ),
    ("USE", "there is no USE: a script makes its tables itself"),
    ("WITH", "there is no WITH: a query is one SELECT"),
    ("ANALYZE", "LOAD counts the statistics of its table"),
    ("HELP", "sqlr --help tells the commands"),
    (
        "OK",
        "this is what a script prints, and here a script is read",
    ),
];

fn begins_statement(seen: &Seen) -> bool {
    matches!(
        seen.unexpected.found,
        Some(TokenKind::Reserved(
            Word::Select | Word::Create | Word::Load | Word::Set | Word::Explain
        ))
    )
}
