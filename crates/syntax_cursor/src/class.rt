//! What the rules look for.

ghost use Rattle.std.specs.Prelude.{◌≤◌};

use lexer::{Symbol, Word};

/// A class of tokens that a rule looks for.
#[derive(Clone, Copy, PartialEq, Eq)]
pub enum TokenClass {
    Name,
    /// A number, with a point or without.
    Number,
    /// A number without a point.
    WholeNumber,
    /// A character string literal.
    String,
    /// The word of a type.
    Type,
    /// A value: a literal, a column, a function, a sign or a parenthesis.
    Value,
    /// ALL, ANY or SOME before a subquery.
    Quantifier,
    /// `+`, `-`, `*` or `/` behind a value.
    Arithmetic,
    /// A comparison or the word of a predicate behind a value.
    Operator,
    Word(Word),
    Symbol(Symbol),
}

/// How many classes are kept for a place: eight, and one that another takes in (`Arithmetic` beside `Operator`).
const MOST: usize = 9;

/// The classes of tokens that could have stood at a place, in the order in which the rules looked
/// for them: each once, and of more than nine the first nine.
#[derive(Clone, Copy, PartialEq, Eq)]
pub struct Wanted {
    /// The classes, and behind the first `count` nothing of meaning.
    classes: [TokenClass; MOST],
    count: usize,
    ghost bounded: { count ≤ 9 },
}

impl Wanted {
    /// A set without classes.
    pub fn nothing() -> Wanted {
        Wanted {
            classes: [TokenClass::Name; MOST],
            count: 0,
        }
    }

    /// The classes in their order.
    pub fn classes(&self) -> &[TokenClass] {
        &self.classes[..self.count]
    }

    /// Adds a class, unless it is there or there is no room.
    pub(crate) fn add(&mut self, class: TokenClass) {
        let is_new = !self.classes().contains(&class);
        if is_new && self.count < MOST {
            self.classes[self.count] = class;
            self.count += 1;
        }
    }
}
