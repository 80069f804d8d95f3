//! How many elements the lists of a statement have.

use syntax::{ListKind, LongList};

/// The lists of a statement that are past their limits: its tree has not all of their elements.
#[derive(Clone, Copy)]
pub struct ListLengths<'l> {
    pub long_lists: &'l [LongList],
}

impl ListLengths<'_> {
    /// How many elements a list is written with, of which the tree has some: a list of a kind, and the byte of what has it.
    pub fn written(self, kind: ListKind, owner: usize, kept: usize) -> usize {
        for list in self.long_lists {
            if list.place.kind == kind && list.place.owner == owner {
                return list.count;
            }
        }
        kept
    }
}
