//! From a script to its tokens.

ghost use Rattle.std.specs.Prelude.{⊤, IfOk, IfErr, MatchOption};
ghost use Rattle.definitions.specs.Lexing.{Lexes, LexFails};
ghost use Rattle.lexer.specs.Meaning.{tokens_of, fault_of, AreSlices};

use crate::fault::LexFault;
use crate::kind::token_kind;
use crate::lexeme::first_lexeme;
use crate::token::Token;
use std::alloc::Global;

/// The tokens of a script, or its leftmost fault (ISO/IEC 9075:1992, 5.2 and 5.3; the limits are own).
pub fn lex(alloc: Global, script: &str) -> Result<Vec<Token<'_>>, LexFault>
    ensures tokens { IfOk result (λ tokens. Lexes script.now (tokens_of tokens.items)) }
    ensures slices { IfOk result (λ tokens. AreSlices script.now 0 tokens.items) }
    ensures fault { IfErr result (λ fault. MatchOption (fault_of fault) ⊤ (LexFails script.now)) }
{
    let bytes = script.as_bytes();
    let mut tokens = Vec::new(alloc);
    let mut start = 0;
    while start < bytes.len() {
        let first = first_lexeme(&bytes[start..]);
        let end = start + first.length;
        if let Some(kind) = token_kind(start, &bytes[start..end], first.lexeme)? {
            let text = &script[start..end];
            tokens
                .push(Token { kind, text, start })
                .map_err(|_| LexFault::Memory { offset: start })?;
        }
        start = end;
    }
    // A list grows by doubling; what it has no use for is given back.
    tokens.shrink_to_fit();
    Ok(tokens)
}
