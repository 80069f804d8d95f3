//! How often a block is asked by the block around it.

use planned_queries::BlockView;
use std::alloc::{AllocError, Global};

/// How often a block is asked by estimate, and what that would come to; none of the outermost.
pub(crate) fn asked_words(
    alloc: Global,
    block: &BlockView<'_>,
) -> Result<Option<String>, AllocError> {
    let Some(asker) = block.asker else {
        return Ok(None);
    };
    let (own, around) = (block.shown_number(), asker.number.saturating_add(1));
    let text = if asker.asks_for_each {
        let (rows, each) = (asker.rows, block.certificate().target);
        let whole = u128::from(rows).saturating_mul(u128::from(each));
        format!(in alloc;
            "Block {own} is asked for each row of block {around}, {rows} times by estimate: {rows} times {each} is {whole}, outside the plan space."
        )?
    } else {
        format!(in alloc;
            "Block {own} names no column of block {around}: it is asked once, and its result is kept."
        )?
    };
    Ok(Some(text))
}
