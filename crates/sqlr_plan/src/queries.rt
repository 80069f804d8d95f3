//! The queries of a script.

use lexer::{LexFault, Symbol, Token, TokenKind, Word, lex};
use std::alloc::{AllocError, Global};
use syntax::{SyntaxFault, check_script};

/// Where a query stands in its script.
#[derive(Clone, Copy)]
pub(crate) struct QueryPlace {
    /// Its first byte, behind EXPLAIN.
    pub start: usize,
    /// The byte of its semicolon.
    pub semicolon: usize,
}

/// What comes of looking for a query.
#[derive(Drop)]
pub(crate) enum Found {
    Query(QueryPlace),
    /// The script has so many queries, and not the one that is wanted.
    NoQuery { count: usize },
    /// The script is no list of statements.
    Faulty,
}

/// The query of a number, from 1, or the last one.
///
/// # Errors
/// Memory ran out.
pub(crate) fn find_query(
    alloc: Global,
    script: &str,
    wanted: Option<u64>,
) -> Result<Found, AllocError> {
    let tokens = match lex(alloc, script) {
        Ok(tokens) => tokens,
        Err(LexFault::Memory { .. }) => return Err(AllocError),
        Err(_) => return Ok(Found::Faulty),
    };
    match check_script(alloc, &tokens, script.len()) {
        Ok(()) => {}
        Err(SyntaxFault::Memory { .. }) => return Err(AllocError),
        Err(_) => return Ok(Found::Faulty),
    }
    let queries = queries(alloc, &tokens)?;
    let count = queries.len();
    let number = match wanted {
        Some(number) => usize::try_from(number).unwrap_or(usize::MAX),
        None => count,
    };
    match queries.get(number.wrapping_sub(1)) {
        Some(query) => Ok(Found::Query(*query)),
        None => Ok(Found::NoQuery { count }),
    }
}

/// The queries of statements, in their order.
fn queries(alloc: Global, tokens: &[Token]) -> Result<Vec<QueryPlace>, AllocError> {
    let mut queries = Vec::new(alloc);
    let mut begun: Option<usize> = None;
    let mut begins_statement = true;
    for token in tokens {
        match token.kind {
            TokenKind::Mark(Symbol::Semicolon) => {
                if let Some(start) = begun.take() {
                    queries.push(QueryPlace {
                        start,
                        semicolon: token.start,
                    })?;
                }
                begins_statement = true;
            }
            TokenKind::Reserved(Word::Select) if begins_statement => {
                begun = Some(token.start);
                begins_statement = false;
            }
            TokenKind::Reserved(Word::Explain) => {}
            _ => begins_statement = false,
        }
    }
    Ok(queries)
}
