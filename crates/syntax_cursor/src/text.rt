//! The texts of names and strings.

ghost use Rattle.std.specs.Prelude.{◌≡◌, string_bytes, false, IfOk};
ghost use Rattle.definitions.specs.Characters.{folded};
ghost use Rattle.lexer.specs.Quoted.{unquoted, quoted_text};

use std::alloc::{AllocError, Global};

/// A name in upper case.
pub fn in_upper_case(alloc: Global, text: &str) -> Result<String, AllocError>
    ensures { IfOk result (λ upper. string_bytes upper ≡ folded text.now) }
{
    let mut upper = String::from_str(alloc, text)?;
    upper.make_ascii_uppercase();
    Ok(upper)
}

/// The characters behind the opening quote: of two quotes side by side one stands for both, and
/// any other is left out.
pub fn without_quotes(alloc: Global, text: &str) -> Result<String, AllocError>
    ensures { IfOk result (λ inner. string_bytes inner ≡ quoted_text text.now) }
{
    match text.strip_prefix('\'') {
        Some(quoted) => undouble_quotes(alloc, quoted),
        None => Ok(String::new(alloc)),
    }
}

fn undouble_quotes(alloc: Global, quoted: &str) -> Result<String, AllocError>
    ensures { IfOk result (λ inner. string_bytes inner ≡ unquoted false quoted.now) }
{
    let mut inner = String::new(alloc);
    let mut after_quote = false;
    'characters: for character in quoted.chars() {
        if character == '\'' && !after_quote {
            after_quote = true;
        } else {
            inner.push(character)?;
            after_quote = false;
        }
    }
    Ok(inner)
}
