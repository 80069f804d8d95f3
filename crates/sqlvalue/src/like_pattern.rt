//! Patterns of LIKE taken apart once, where many texts are matched against one.

ghost use Rattle.std.specs.Prelude.{◌≡◌, ◌++◌, ◌∷◌, [], ℕ, List, IfSome, true};
ghost use Rattle.definitions.specs.Pattern as spec;
ghost use Rattle.sqlvalue.specs.LikePatterns.{form_fits, is_plain, pattern_fits, wild};

use crate::pattern::fits;
use crate::text_search::{begins_with, contains, ends_with};

/// A pattern of LIKE (ISO/IEC 9075:1992, 8.5).
#[derive(Clone, Copy)]
pub struct LikePattern<'p> {
    form: Form<'p>,
}

/// What a pattern asks for: a text anywhere, as `%text%` does, at the front, as `text%` does, or at the end, as `%text`; or something else.
#[derive(Clone, Copy)]
pub(crate) enum Form<'p> {
    Anywhere(&'p [u8]),
    AtFront(&'p [u8]),
    AtEnd(&'p [u8]),
    Other(&'p [u8]),
}

impl<'p> LikePattern<'p> {
    /// A pattern in which `%` stands for any run of characters, `_` for one, and another character for itself (ISO/IEC 9075:1992, 8.5).
    pub fn new(pattern: &'p str) -> LikePattern<'p>
        ensures { (text : List ℕ) → pattern_fits result text ≡ spec.fits pattern.now text }
    {
        LikePattern {
            form: form_of(pattern.as_bytes()),
        }
    }

    /// Whether a text fits.
    pub fn fits(&self, text: &str) -> bool
        ensures { result ≡ pattern_fits self.now text.now }
    {
        let text = text.as_bytes();
        match self.form {
            Form::Anywhere(needle) => contains(text, needle),
            Form::AtFront(needle) => begins_with(text, needle),
            Form::AtEnd(needle) => ends_with(text, needle),
            Form::Other(pattern) => fits(text, pattern),
        }
    }
}

fn form_of(pattern: &[u8]) -> Form<'_>
    ensures { (text : List ℕ) → form_fits result text ≡ spec.fits pattern.now text }
{
    match behind_run(pattern) {
        Some(rest) => match before_run(rest) {
            Some(needle) => Form::Anywhere(needle),
            None if stands_for_itself(rest) => Form::AtEnd(rest),
            None => Form::Other(pattern),
        },
        None => match before_run(pattern) {
            Some(needle) => Form::AtFront(needle),
            None => Form::Other(pattern),
        },
    }
}

/// What stands behind a `%` at the front.
fn behind_run(pattern: &[u8]) -> Option<&[u8]>
    ensures { IfSome result (λ rest. pattern.now ≡ 37 ∷ rest.now) }
{
    let (first, rest) = pattern.split_first()?;
    if *first == b'%' { Some(rest) } else { None }
}

/// What stands before a `%` at the end, where each character of it stands for itself.
fn before_run(pattern: &[u8]) -> Option<&[u8]>
    ensures run { IfSome result (λ needle. pattern.now ≡ needle.now ++ 37 ∷ []) }
    ensures plain { IfSome result (λ needle. is_plain needle.now ≡ true) }
{
    let (last, needle) = pattern.split_last()?;
    if *last == b'%' && stands_for_itself(needle) {
        return Some(needle);
    }
    None
}

/// Whether each character of a pattern stands for itself.
fn stands_for_itself(pattern: &[u8]) -> bool
    ensures { result ≡ is_plain pattern.now }
{
    for place in 0..pattern.len() {
        if is_wild(pattern[place]) {
            return false;
        }
    }
    true
}

/// Whether a character of a pattern stands for others: `%` or `_`.
fn is_wild(character: u8) -> bool
    ensures { result ≡ wild character }
{
    character == b'%' || character == b'_'
}
