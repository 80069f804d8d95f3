//! How often an inner block is asked.

use query_tree::{Block, Operand, ValueExpr, push_blocks, push_tested, push_values};
use std::alloc::{AllocError, Global};

/// The block whose conditions ask another, by its number from 0. It fails where memory runs out.
pub(crate) fn parent_of(
    alloc: Global,
    blocks: &[Block],
    number: usize,
) -> Result<Option<usize>, AllocError> {
    for (place, block) in blocks.iter().enumerate() {
        let asked = asked_blocks(alloc, block, &conditions_values(alloc, block)?)?;
        if asked.contains(&number) {
            return Ok(Some(place));
        }
    }
    Ok(None)
}

/// A block, and how many blocks lie around it, up to the one that is looked at.
#[derive(Clone, Copy)]
struct Within {
    number: usize,
    depth: usize,
}

/// Whether a block, by its number from 0, or a block inside it names a column of a block around: then it is asked for each row of that one (own).
/// It fails where memory runs out.
pub(crate) fn is_correlated(
    alloc: Global,
    blocks: &[Block],
    number: usize,
) -> Result<bool, AllocError> {
    let mut waiting = Vec::new(alloc);
    waiting.push(Within { number, depth: 0 })?;
    // each block is asked by one block, so that no more than all come
    for _ in blocks {
        let Some(next) = waiting.pop() else {
            return Ok(false);
        };
        if names_around(alloc, blocks, next, &mut waiting)? {
            return Ok(true);
        }
    }
    Ok(false)
}

/// Whether a block names a column outside of all that lie around it. The blocks that it asks are put behind those that wait.
fn names_around(
    alloc: Global,
    blocks: &[Block],
    within: Within,
    waiting: &mut Vec<Within>,
) -> Result<bool, AllocError> {
    let Some(block) = blocks.get(within.number) else {
        return Ok(false);
    };
    let mut values = conditions_values(alloc, block)?;
    for number in &asked_blocks(alloc, block, &values)? {
        waiting.push(Within {
            number: *number,
            depth: within.depth.saturating_add(1),
        })?;
    }
    for item in &block.items {
        values.push(&item.value)?;
    }
    for value in &values {
        if is_of_around(value, within.depth) {
            return Ok(true);
        }
    }
    Ok(false)
}

/// The values that WHERE and HAVING of a block speak of.
fn conditions_values<'a>(
    alloc: Global,
    block: &'a Block,
) -> Result<Vec<&'a ValueExpr>, AllocError> {
    let mut values = Vec::new(alloc);
    if let Some(condition) = &block.condition {
        push_values(&mut values, condition)?;
    }
    if let Some(condition) = &block.having {
        push_values(&mut values, condition)?;
    }
    Ok(values)
}

/// The blocks that WHERE and HAVING of a block ask, whose values are given.
fn asked_blocks(
    alloc: Global,
    block: &Block,
    values: &[&ValueExpr],
) -> Result<Vec<usize>, AllocError> {
    let mut asked = Vec::new(alloc);
    if let Some(condition) = &block.condition {
        push_tested(&mut asked, condition)?;
    }
    if let Some(condition) = &block.having {
        push_tested(&mut asked, condition)?;
    }
    for value in values {
        push_blocks(&mut asked, value)?;
    }
    Ok(asked)
}

/// Whether a value names a column outside of so many blocks around.
#[cycle(values)]
fn is_of_around(value: &ValueExpr, depth: usize) -> bool {
    match value {
        ValueExpr::Parameter { between, .. } => *between >= depth,
        ValueExpr::Signed { operand, .. } => is_of_around(operand, depth),
        ValueExpr::Chain { first, others } => {
            is_of_around(first, depth) || are_of_around(others, depth)
        }
        ValueExpr::Column { .. }
        | ValueExpr::Number(_)
        | ValueExpr::Text(_)
        | ValueExpr::AggregateValue { .. }
        | ValueExpr::Subquery { .. } => false,
    }
}

#[cycle(values)]
fn are_of_around(operands: &[Operand], depth: usize) -> bool {
    for operand in operands {
        if is_of_around(&operand.value, depth) {
            return true;
        }
    }
    false
}
