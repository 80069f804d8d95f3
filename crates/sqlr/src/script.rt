//! From a script's text to its tokens and its statements.

ghost use Rattle.std.specs.Prelude.{◌≡◌, IfOk, IfErr, option_map};
ghost use Rattle.parse_tree.specs.Trees.{statements_of};
ghost use Rattle.lexer.specs.Meaning.{fault_of};
ghost use Rattle.definitions_execution.specs.Step.{AreStatements};
ghost use Rattle.sqlr.specs.Scripts.{AreScript, IsFault, line_of, lexical_line, syntax_line};

use diagnostics::{Cause, Refused};
use lexer::{LexFault, Token, lex};
use sqlvalue::Refusal;
use std::alloc::Global;
use syntax::{ScriptRead, SyntaxFault, check_script, parse};

/// Why a script is not run.
pub enum ScriptFault {
    /// A fault of its text, and the byte that it stands at.
    Refused {
        refused: Refused<'static>,
        offset: usize,
    },
    /// Memory was wanting where a byte of it was read.
    Memory {
        offset: usize,
    },
}

/// The statements of a script.
pub fn parse_script(alloc: Global, script: &str) -> Result<ScriptRead, ScriptFault>
    ensures statements { IfOk result (λ read. AreStatements script.now (statements_of read.statements.items)) }
    ensures fault { IfErr result (IsFault script.now) }
{
    let tokens = match lex(alloc, script) {
        Ok(tokens) => tokens,
        Err(fault) => return Err(lexical(fault)),
    };
    match parse(alloc, &tokens, script.len()) {
        Ok(read) => Ok(read),
        Err(fault) => Err(syntactic(fault)),
    }
}

/// The tokens of a script, which are statements; they are read to its end, and their trees dropped: a tree takes many
/// times the room of its tokens.
pub fn read_script(alloc: Global, script: &str) -> Result<Vec<Token<'_>>, ScriptFault>
    ensures script { IfOk result (λ tokens. AreScript script.now tokens.items) }
    ensures fault { IfErr result (IsFault script.now) }
{
    let tokens = match lex(alloc, script) {
        Ok(tokens) => tokens,
        Err(fault) => return Err(lexical(fault)),
    };
    match check_script(alloc, &tokens, script.len()) {
        Ok(()) => Ok(tokens),
        Err(fault) => Err(syntactic(fault)),
    }
}

fn lexical(fault: LexFault) -> ScriptFault
    ensures { line_of result ≡ option_map lexical_line (fault_of fault) }
{
    let (refusal, offset) = match fault {
        LexFault::StrayCharacter { offset, .. } => (Refusal::StrayCharacter, offset),
        LexFault::OpenString { offset } => (Refusal::OpenString, offset),
        LexFault::LongLiteral { offset, .. } => (Refusal::LongLiteral, offset),
        LexFault::LongName { offset, .. } => (Refusal::LongName, offset),
        LexFault::Memory { offset } => return ScriptFault::Memory { offset },
    };
    ScriptFault::Refused {
        refused: Refused {
            refusal,
            cause: Cause::Lexical(fault),
        },
        offset,
    }
}

fn syntactic(fault: SyntaxFault) -> ScriptFault
    ensures { line_of result ≡ syntax_line fault }
{
    match fault {
        SyntaxFault::Unexpected(unexpected) => ScriptFault::Refused {
            refused: Refused {
                refusal: Refusal::Unexpected,
                cause: Cause::Unexpected(unexpected),
            },
            offset: unexpected.offset,
        },
        SyntaxFault::TooDeep { offset } => ScriptFault::Refused {
            refused: Refused {
                refusal: Refusal::TooDeep,
                cause: Cause::TooDeep { offset },
            },
            offset,
        },
        SyntaxFault::Memory { offset } => ScriptFault::Memory { offset },
    }
}
