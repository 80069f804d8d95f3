//! Reads a whole script, or one statement of it.

ghost use Rattle.std.specs.Prelude.{◌≡◌, ◌<◌, [], ◌∷◌, List, length, drop, map, IfOk, IfErr, OnOk};
ghost use Rattle.definitions.specs.Limits.{most_levels};
ghost use Rattle.definitions.specs.Statement as tree;
ghost use Rattle.definitions.specs.Grammar.{Derives, ScriptAt};
ghost use Rattle.lexer.specs.Meaning.{kinds_of, tokens_of};
ghost use Rattle.parse_tree.specs.Trees.{statement_of, statements_of};
ghost use Rattle.syntax_cursor.specs.Places.{Placed, Stand, StandIn, Stands, placed_of};
ghost use Rattle.syntax_cursor.specs.Reading.{viewed};
ghost use Rattle.syntax.specs.Places.{StandsToEnd, all, statement_leaves};
ghost use Rattle.syntax.specs.Reading.{IsSyntaxFault, ParsesScript, ParsesStatement, SkimsScript, TellsStop};

use crate::fault::{NoMemory, SyntaxFault, fault_of};
use crate::statement::statement;
use lexer::{Symbol, Token, TokenKind};
use parse_tree::{LongList, Statement};
use std::alloc::Global;
use syntax_cursor::{Cursor, ParseStop, Wanted};

/// The levels that parentheses, signs and NOTs may open (own).
pub const MAX_LEVELS: u8 = 64;

/// A statement of a script.
#[derive(Drop)]
pub struct StatementRead {
    pub statement: Statement,
    /// Its lists past their limits, of which it has not all elements.
    pub long_lists: Vec<LongList>,
    /// The place of the token behind its semicolon.
    pub next: usize,
}

/// All statements of a script.
#[derive(Drop)]
pub struct ScriptRead {
    pub statements: Vec<Statement>,
    /// Their lists past their limits, of which they have not all elements.
    pub long_lists: Vec<LongList>,
}

/// The statements that the tokens of a script are, `{ statement ";" }`, with each name, literal and
/// operator where its token stands; `end` is the script's length in bytes.
pub fn parse(alloc: Global, tokens: &[Token], end: usize) -> Result<ScriptRead, SyntaxFault>
    ensures derived { IfOk result (λ read. Derives (kinds_of tokens.now) (statements_of read.statements.items)) }
    ensures placed { IfOk result (λ read. StandIn (length read.long_lists.items)
        (all statement_leaves read.statements.items) (tokens_of tokens.now)) }
    ensures fault { IfErr result (IsSyntaxFault (tokens_of tokens.now) end) }
{
    let mut cursor = Cursor::new(alloc, tokens, None);
    match script(alloc, &mut cursor) {
        Ok(statements) => Ok(ScriptRead {
            statements,
            long_lists: cursor.into_long_lists(),
        }),
        Err(stop) => Err(fault_at(alloc, tokens, end, stop, cursor.start())),
    }
}

/// Whether the tokens of a script are statements, `{ statement ";" }` (own): the fault that `parse` tells, if they are
/// none. No tree outlives its statement.
pub fn check_script(alloc: Global, tokens: &[Token], end: usize) -> Result<(), SyntaxFault>
    ensures derived { OnOk result ((statements : List tree.Statement) × Derives (kinds_of tokens.now) statements) }
    ensures fault { IfErr result (IsSyntaxFault (tokens_of tokens.now) end) }
{
    let mut cursor = Cursor::new(alloc, tokens, None);
    match skim(&mut cursor) {
        Ok(()) => Ok(()),
        Err(stop) => Err(fault_at(alloc, tokens, end, stop, cursor.start())),
    }
}

/// The statement at a place of the tokens, from which statements go on up to their end, with each name, literal and
/// operator where its token stands, and the place behind its semicolon (own). Nothing but memory can be wanting.
pub fn statement_at(alloc: Global, tokens: &[Token], at: usize) -> Result<StatementRead, NoMemory>
    requires before { at < length tokens.now }
    requires script { (statements : List tree.Statement) × ScriptAt most_levels (kinds_of tokens.now) at statements }
    ensures first { IfOk result (λ read. (statements : List tree.Statement) →
        ScriptAt most_levels (kinds_of tokens.now) at statements → (rest : List tree.Statement)
        × (statements ≡ statement_of read.statement ∷ rest)
        × ScriptAt most_levels (kinds_of tokens.now) read.next rest) }
    ensures further { IfOk result (λ read. at < read.next) }
    ensures placed { IfOk result (λ read. (left : List Placed) × Stand (length read.long_lists.items)
        (drop at (map placed_of (tokens_of tokens.now))) (statement_leaves read.statement) left) }
{
    let mut cursor = Cursor::at_place(alloc, tokens, at);
    match ended_statement(&mut cursor) {
        Ok(statement) => {
            let next = cursor.place();
            Ok(StatementRead {
                statement,
                long_lists: cursor.into_long_lists(),
                next,
            })
        }
        Err(ParseStop::Memory) => Err(NoMemory {
            offset: cursor.start(),
        }),
        Err(ParseStop::Token(_)) => unreachable!(),
        Err(ParseStop::Deep(_)) => unreachable!(),
    }
}

/// The fault that a stop is; `here` is the byte where the rules stopped.
fn fault_at(
    alloc: Global,
    tokens: &[Token],
    end: usize,
    stop: ParseStop,
    here: usize,
) -> SyntaxFault
    ensures { TellsStop tokens.now end stop result }
{
    let wanted = wanted_at(alloc, tokens, stop);
    fault_of(tokens, end, stop, here, wanted)
}

/// What the rules look for where nothing goes on with a token: its statement is read once more, up to it.
fn wanted_at(alloc: Global, tokens: &[Token], stop: ParseStop) -> Wanted {
    let ParseStop::Token(at) = stop else {
        return Wanted::nothing();
    };
    let begun = tokens
        .get(..at)
        .map_or(0, |before| behind_semicolon(before));
    let statement = tokens.get(at.saturating_sub(begun)..).unwrap_or(&[]);
    let mut cursor = Cursor::new(alloc, statement, Some(begun));
    let _ = skim(&mut cursor);
    cursor.wanted_here()
}

/// How many tokens stand behind the last semicolon.
fn behind_semicolon(tokens: &[Token]) -> usize {
    tokens
        .iter()
        .rev()
        .take_while(|token| !matches!(token.kind, TokenKind::Mark(Symbol::Semicolon)))
        .count()
}

/// `{ statement ";" }`, up to the end of the tokens.
fn script(alloc: Global, cursor: &mut Cursor) -> Result<Vec<Statement>, ParseStop>
    ensures reads { ParsesScript cursor.old (viewed (λ (xs : _). statements_of xs.items) result) }
    ensures placed { IfOk result (λ xs. StandsToEnd cursor.old cursor.new (all statement_leaves xs.items)) }
{
    let mut statements = Vec::new(alloc);
    'statements: while !cursor.is_at_end() {
        let statement = ended_statement(cursor)?;
        statements.push(statement)?;
    }
    Ok(statements)
}

/// The same, with each tree dropped.
fn skim(cursor: &mut Cursor) -> Result<(), ParseStop>
    ensures { SkimsScript cursor.old result }
{
    'statements: while !cursor.is_at_end() {
        let statement = ended_statement(cursor)?;
        drop(statement);
    }
    Ok(())
}

/// `statement ";"`.
fn ended_statement(cursor: &mut Cursor) -> Result<Statement, ParseStop>
    requires { cursor.old.at < length cursor.old.tokens }
    ensures reads { ParsesStatement cursor.old cursor.new (viewed statement_of result) }
    ensures placed { IfOk result (λ statement. Stands cursor.old cursor.new (statement_leaves statement)) }
{
    let statement = statement(cursor, MAX_LEVELS)?;
    cursor.expect_symbol(Symbol::Semicolon).and(Ok(statement))
}
