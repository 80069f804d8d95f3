//! Which rows of a column are null.

ghost use Rattle.std.specs.Prelude.{◌≡◌, ◌<◌, ◌≤◌, ◌+◌, ◌-◌, ◌%◌, ◌∷◌, [], ◌++◌, List, Bool, true, false, not, IsTrue, length, take, drop, OnOk, OnErr, slice_index_or};
ghost use Rattle.definitions.specs.Scanning.{word_of};

use crate::words::all_rows;
use std::alloc::{AllocError, Global};
use std::marker::Model;

/// Which rows are null, in words of 64. Of the bits behind the last row nothing is known.
#[derive(Drop)]
pub(crate) struct NullBits {
    words: Vec<u64>,
    len: usize,
}

impl Model for NullBits {
    ghost use Rattle.std.specs.Prelude.{List, Bool};

    ghost Value = { List Bool };

    ghost use Rattle.columns.specs.NullBits.{null_flags, IsNullBits};

    ghost view = { null_flags };

    ghost invariant = { IsNullBits };
}

impl NullBits {
    /// The bits of a column without rows.
    pub(crate) fn new(alloc: Global) -> NullBits
        ensures { result ≡ [] }
    {
        NullBits {
            words: Vec::new(alloc),
            len: 0,
        }
    }

    /// Whether a row is null (own).
    pub(crate) fn is_null(&self, row: usize) -> bool
        requires { row < length self.now }
        ensures { result ≡ slice_index_or self.now row false }
    {
        self.words[row / 64] >> (row % 64) & 1 == 1
    }

    /// How many rows there are (own).
    pub(crate) fn len(&self) -> usize
        ensures { result ≡ length self.now }
    {
        self.len
    }

    /// Whether a row is there and not null (own).
    pub(crate) fn is_filled(&self, row: usize) -> bool
        ensures value { result ≡ not (slice_index_or self.now row true) }
        ensures within { IsTrue result → row < length self.now }
    {
        row < self.len && !self.is_null(row)
    }

    /// Adds a row. An `Err` leaves the rows as they were, and comes of memory or of more rows than a
    /// `usize` counts (own).
    pub(crate) fn push(&mut self, null: bool) -> Result<(), AllocError>
        ensures ok { OnOk result (self.new ≡ self.old ++ null ∷ []) }
        ensures err { OnErr result (self.new ≡ self.old) }
    {
        let Some(len) = self.len.checked_add(1) else {
            return Err(AllocError);
        };
        let place = self.len / 64;
        if place == self.words.len() {
            self.words.push(0)?;
        }
        let bit = self.len % 64;
        self.words[place] = (self.words[place] & all_rows(bit)) + (u64::from(null) << bit);
        self.len = len;
        Ok(())
    }

    /// Adds the rows that others have from one on up to another. An `Err` leaves the rows as they were, and comes of
    /// memory or of more rows than a `usize` counts (own).
    pub(crate) fn extend_from(
        &mut self,
        other: &NullBits,
        from: usize,
        to: usize,
    ) -> Result<(), AllocError>
        requires forward { from ≤ to }
        requires within { to ≤ length other.now }
        ensures ok { OnOk result (self.new ≡ self.old ++ take (to - from) (drop from other.now)) }
        ensures err { OnErr result (self.new ≡ self.old) }
    {
        let len = self.len();
        match self.add_from(other, from, to) {
            Ok(()) => Ok(()),
            Err(error) => {
                self.truncate(len);
                Err(error)
            }
        }
    }

    /// The same, 64 rows at a time where a word ends; an `Err` may come behind some of the rows (own).
    fn add_from(&mut self, other: &NullBits, from: usize, to: usize) -> Result<(), AllocError>
        requires forward { from ≤ to }
        requires within { to ≤ length other.now }
        ensures ok { OnOk result (self.new ≡ self.old ++ take (to - from) (drop from other.now)) }
        ensures more { length self.old ≤ length self.new }
        ensures before { take (length self.old) self.new ≡ self.old }
    {
        let mut row = from;
        while row < to {
            if self.len() % 64 == 0 && to - row >= 64 {
                self.push_word(other.word(row, 64))?;
                row += 64;
            } else {
                self.push(other.is_null(row))?;
                row += 1;
            }
        }
        Ok(())
    }

    /// Adds 64 rows, given as a word, where one ends. An `Err` leaves the rows as they were, and comes of memory or of
    /// more rows than a `usize` counts (own).
    fn push_word(&mut self, word: u64) -> Result<(), AllocError>
        requires ended { length self.old % 64 ≡ 0 }
        ensures ok { (flags : List Bool) → length flags ≡ 64 → word ≡ word_of flags →
            OnOk result (self.new ≡ self.old ++ flags) }
        ensures err { OnErr result (self.new ≡ self.old) }
    {
        let Some(len) = self.len.checked_add(64) else {
            return Err(AllocError);
        };
        self.words.truncate(self.len / 64);
        self.words.push(word)?;
        self.len = len;
        Ok(())
    }

    /// Keeps the first rows alone, as many as `rows` (own).
    pub(crate) fn truncate(&mut self, rows: usize)
        requires { rows ≤ length self.old }
        ensures { self.new ≡ take rows self.old }
    {
        self.len = rows;
    }

    /// Some rows, from `first` on, as a word in which the lowest bit is that of the first (own).
    pub(crate) fn word(&self, first: usize, rows: usize) -> u64
        requires few { rows ≤ 64 }
        requires within { first + rows ≤ length self.now }
        ensures { result ≡ word_of (take rows (drop first self.now)) }
    {
        let place = first / 64;
        let low = word_at(&self.words, place);
        let high = word_at(&self.words, place + 1);
        let both = u128::from(low) + (u128::from(high) << 64);
        ((both >> (first % 64)) & u128::from(all_rows(rows))) as u64
    }
}

/// A word, or one of no bits behind the last.
fn word_at(words: &[u64], place: usize) -> u64
    ensures { result ≡ slice_index_or words.now place 0 }
{
    words.get(place).copied().unwrap_or(0)
}
