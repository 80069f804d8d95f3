//! Answers to questions as numbers, as rows have them and as they are found.

use std::alloc::{AllocError, Global};

/// What the words `|`, `down` and `NULL` stand for, and any that is no number. No answer has such numbers else.
pub(crate) const BAR: u64 = u64::MAX;

pub(crate) const DOWN: u64 = u64::MAX - 1;

pub(crate) const NONE: u64 = u64::MAX - 2;

const NULL: u64 = u64::MAX - 3;

/// The numbers that answer a question.
#[derive(Drop)]
pub(crate) struct Answer {
    numbers: Vec<u64>,
    /// Whether there is such a question, and all of the answer is there.
    is_whole: bool,
}

impl Answer {
    pub(crate) fn new(alloc: Global) -> Answer {
        Answer {
            numbers: Vec::new(alloc),
            is_whole: true,
        }
    }

    /// The answer that words say.
    pub(crate) fn of_words(alloc: Global, text: &str) -> Answer {
        let mut answer = Answer::new(alloc);
        for word in text.split_whitespace() {
            answer.add(number_of(word));
        }
        answer
    }

    pub(crate) fn add(&mut self, number: u64) {
        if self.numbers.push(number).is_err() {
            self.is_whole = false;
        }
    }

    /// Adds a number that counts from 0.
    pub(crate) fn add_place(&mut self, number: usize) {
        self.add(number as u64);
    }

    /// Adds a number that counts from 0, from 1.
    pub(crate) fn add_from_one(&mut self, number: usize) {
        self.add_place(number.saturating_add(1));
    }

    /// Adds the values of a printed row, each a number or NULL. With others it isn't whole.
    pub(crate) fn add_row(&mut self, row: &str) {
        for value in row.split('|') {
            match number_of(value) {
                NONE => self.fail(),
                number => self.add(number),
            }
        }
        self.add(BAR);
    }

    /// Notes that there is no such question.
    pub(crate) fn fail(&mut self) {
        self.is_whole = false;
    }

    /// Whether both are there, and the same.
    pub(crate) fn is(&self, other: &Answer) -> bool {
        self.is_whole && other.is_whole && self.numbers.as_slice() == other.numbers.as_slice()
    }

    /// Adds its words to a text.
    pub(crate) fn push_to(&self, text: &mut String) -> Result<(), AllocError> {
        if !self.is_whole {
            return text.push_str(" nothing");
        }
        for number in self.numbers.as_slice() {
            push_number(text, *number)?;
        }
        Ok(())
    }
}

/// The number that a word stands for.
pub(crate) fn number_of(word: &str) -> u64 {
    match word {
        "|" => BAR,
        "down" => DOWN,
        "NULL" => NULL,
        "yes" | "early" => 1,
        "late" => 0,
        _ => word.parse().unwrap_or(NONE),
    }
}

fn push_number(text: &mut String, number: u64) -> Result<(), AllocError> {
    match number {
        BAR => text.push_str(" |"),
        DOWN => text.push_str(" down"),
        NONE => text.push_str(" none"),
        NULL => text.push_str(" NULL"),
        _ => write!(text, " {number}"),
    }
}
