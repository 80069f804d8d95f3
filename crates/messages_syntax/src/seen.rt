//! What stands where a script goes wrong, and before and behind it.

use crate::spelling::{first_word, last_word};
use lexer::{TokenKind, Word};
use syntax::{TokenClass, Unexpected};

/// What stands where a script goes wrong.
#[derive(Clone, Copy)]
pub(crate) struct Seen<'s> {
    /// What stands before the place.
    head: &'s str,
    /// The token there, as it is written.
    pub found: &'s str,
    /// The word that ends the token before it, as it is written; empty where a sign does.
    pub before: &'s str,
    /// The last byte of the token before it; 0 where there is none.
    pub sign: u8,
    /// What stands behind the token there.
    pub rest: &'s str,
    pub unexpected: &'s Unexpected,
}

impl<'s> Seen<'s> {
    pub fn new(script: &'s str, unexpected: &'s Unexpected) -> Seen<'s> {
        let end = unexpected.offset.saturating_add(unexpected.length);
        let head = script.get(..unexpected.behind).unwrap_or("");
        Seen {
            head,
            found: script.get(unexpected.offset..end).unwrap_or(""),
            before: last_word(head),
            sign: head.as_bytes().last().copied().unwrap_or(0),
            rest: script.get(end..).unwrap_or(""),
            unexpected,
        }
    }

    /// Whether a word stands there, in letters of whatever case.
    pub fn finds(&self, word: &str) -> bool {
        self.found.eq_ignore_ascii_case(word)
    }

    /// Whether a word stands before it.
    pub fn follows(&self, word: &str) -> bool {
        self.before.eq_ignore_ascii_case(word)
    }

    /// The word before the word that stands before it; empty where a sign does.
    pub fn earlier(&self) -> &'s str {
        let start = self.head.len().saturating_sub(self.before.len());
        last_word(self.head.get(..start).unwrap_or("").trim_end())
    }

    /// The word behind it; empty where a sign stands there.
    pub fn next(&self) -> &'s str {
        first_word(self.rest)
    }

    /// Whether the next word is this one.
    pub fn goes_on(&self, word: &str) -> bool {
        self.next().eq_ignore_ascii_case(word)
    }

    /// The byte behind it and behind blanks; 0 where there is none.
    pub fn next_sign(&self) -> u8 {
        self.rest
            .trim_start()
            .as_bytes()
            .first()
            .copied()
            .unwrap_or(0)
    }

    /// The token there where it is one byte; 0 where it is more.
    pub fn found_sign(&self) -> u8 {
        match self.found.as_bytes() {
            [sign] => *sign,
            _ => 0,
        }
    }

    /// Whether the statement, as far as it goes, begins with a word.
    pub fn is_of_statement(&self, word: &str) -> bool {
        let statement = match self.head.rsplit_once(';') {
            Some((_, statement)) => statement,
            None => self.head,
        };
        first_word(statement).eq_ignore_ascii_case(word)
    }

    /// Whether more parentheses are opened before it than closed.
    pub fn is_in_parentheses(&self) -> bool {
        let mut opened: usize = 0;
        let mut closed: usize = 0;
        for byte in self.head.as_bytes() {
            match *byte {
                b'(' => opened = opened.saturating_add(1),
                b')' => closed = closed.saturating_add(1),
                _ => {}
            }
        }
        opened > closed
    }

    pub fn is_name(&self) -> bool {
        self.unexpected.found == Some(TokenKind::Name)
    }

    pub fn is_number(&self) -> bool {
        self.unexpected.found == Some(TokenKind::Numeral)
    }

    pub fn is_word(&self, word: Word) -> bool {
        self.unexpected.found == Some(TokenKind::Reserved(word))
    }

    /// Whether the word of a set function stands there.
    pub fn is_set_function(&self) -> bool {
        matches!(
            self.unexpected.found,
            Some(TokenKind::Reserved(Word::Count | Word::Sum | Word::Avg | Word::Min | Word::Max))
        )
    }

    /// Whether nothing stands between the token there and the one before it.
    pub fn is_joined(&self) -> bool {
        self.unexpected.behind == self.unexpected.offset
    }

    pub fn wants(&self, class: TokenClass) -> bool {
        self.unexpected.wanted.classes().contains(&class)
    }

    /// Whether nothing but one class could have stood there.
    pub fn wants_only(&self, class: TokenClass) -> bool {
        self.unexpected.wanted.classes().len() == 1 && self.wants(class)
    }
}
