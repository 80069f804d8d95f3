//! Who asks an inner block.

use crate::inner_blocks::{is_correlated, parent_of};
use query_tree::Block;
use std::alloc::{AllocError, Global};

/// The block around another, by its number from 0, how many rows it is taken to give, and whether the other is asked for each of them.
#[derive(Clone, Copy)]
pub struct Asker {
    pub number: usize,
    pub rows: u64,
    pub asks_for_each: bool,
}

impl Asker {
    /// The block around the one of a number, where it is known how many rows those before it are taken to give; none of the outermost. It
    /// fails where memory runs out.
    pub fn of(
        alloc: Global,
        blocks: &[Block],
        rows: &[u64],
        number: usize,
    ) -> Result<Option<Asker>, AllocError> {
        let Some(around) = parent_of(alloc, blocks, number)? else {
            return Ok(None);
        };
        match rows.get(around) {
            Some(rows) => Ok(Some(Asker {
                number: around,
                rows: *rows,
                asks_for_each: is_correlated(alloc, blocks, number)?,
            })),
            None => Ok(None),
        }
    }
}
