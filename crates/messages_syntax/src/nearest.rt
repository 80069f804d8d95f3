//! The word or the name that is nearest to one that stands there.

use std::alloc::Global;
use std::fmt::{self, Formatter};
use strsim::osa_distance;

/// A word of so many letters, or fewer, is short.
const SHORT: usize = 3;

/// The name nearest to another, of those that are near.
#[derive(Drop)]
pub struct Nearest<'w, 'a> {
    alloc: Global,
    wanted: &'w str,
    /// The letters of the wanted name, as bits.
    letters: u64,
    found: Option<(&'a str, usize)>,
    /// How near a short word is, if one is an edit away.
    short: Option<usize>,
}

impl<'w, 'a> Nearest<'w, 'a> {
    /// No name yet, of those near the wanted one.
    pub fn new(alloc: Global, wanted: &'w str) -> Nearest<'w, 'a> {
        Nearest {
            alloc,
            wanted,
            letters: letters_of(wanted),
            found: None,
            short: None,
        }
    }

    /// Offers a name. Where memory is wanting it is passed over.
    pub fn offer(&mut self, name: &'a str) {
        let Some(edits) = self.near_edits(name) else {
            return;
        };
        let is_nearer = match self.found {
            Some((other, least)) => edits < least || edits == least && name.len() > other.len(),
            None => true,
        };
        if is_nearer {
            self.found = Some((name, edits));
        }
    }

    /// How many edits away a name is that is near: it differs by a third of the wanted letters at most, or begins with all of them. One that is
    /// further away than the nearest so far isn't told.
    fn near_edits(&self, name: &str) -> Option<usize> {
        let begins = self.wanted.len() >= SHORT && name.starts_with(self.wanted);
        let most = if begins {
            name.len()
        } else {
            self.wanted.len() / 3
        };
        match self.found {
            Some((_, least)) => self.edits(name, most.min(least)),
            None => self.edits(name, most),
        }
    }

    /// Offers a reserved word. One of up to three letters is near too much to be sure, so none is told where such a one is nearer; the first
    /// letters of a word are sure from three on.
    pub fn offer_word(&mut self, word: &'a str) {
        if word.len() > SHORT {
            self.offer(word);
        } else if let Some(edits) = self.edits(word, self.short.unwrap_or(1)) {
            self.short = Some(edits);
        }
    }

    /// The nearest name, if one was near, and no short word nearer.
    pub fn name(&self) -> Option<&'a str> {
        match (self.found, self.short) {
            (Some((_, edits)), Some(short)) if short < edits => None,
            (Some((name, _)), _) => Some(name),
            (None, _) => None,
        }
    }

    /// How many edits away a name is, if at most so many. Most names are passed over for their letters, and aren't measured.
    fn edits(&self, name: &str, most: usize) -> Option<usize> {
        if self.wanted.is_ascii() && name.is_ascii() && self.least_edits(name) > most {
            return None;
        }
        match osa_distance(self.alloc, self.wanted, name) {
            Ok(edits) if edits <= most => Some(edits),
            _ => None,
        }
    }

    /// How many edits away a name is at least: each letter more or less takes one, and so does each that only one of them has.
    fn least_edits(&self, name: &str) -> usize {
        let letters = letters_of(name);
        let other = (self.letters & !letters)
            .count_ones()
            .max((letters & !self.letters).count_ones());
        self.wanted.len().abs_diff(name.len()).max(other as usize)
    }

    /// The nearest name as a hint, if one was near.
    pub fn write_hint<W: fmt::Write>(&self, f: &mut Formatter<W>) -> fmt::Result {
        match self.name() {
            Some(name) => writeln!(f, "hint: did you mean {name}?"),
            None => Ok(()),
        }
    }
}

/// The letters of a word, each as the bit of its code's last six binary digits.
fn letters_of(word: &str) -> u64 {
    let mut letters = 0;
    for letter in word.as_bytes() {
        letters |= 1u64 << (*letter % 64);
    }
    letters
}
