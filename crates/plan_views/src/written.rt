//! The plan that a file of certificates gives for a block.

use plan_tree::Plan;
use planned_queries::{BlockView, PlanTextFault, read_plan};
use std::alloc::{AllocError, Global};

/// The plan that a file gives for a block, if there is one that can be read.
pub(crate) fn written_plan(
    alloc: Global,
    block: &BlockView<'_>,
) -> Result<Option<Plan>, AllocError> {
    let Some(text) = plan_text(block) else {
        return Ok(None);
    };
    match read_plan(alloc, &block.names, &block.planned.own, text) {
        Ok(plan) => Ok(Some(plan)),
        Err(PlanTextFault::Memory) => Err(AllocError),
        Err(_) => Ok(None),
    }
}

/// What stands in the file's first line PLAN from the block's text on.
fn plan_text<'v>(block: &'v BlockView<'_>) -> Option<&'v str> {
    let text = str::from_utf8(block.written?).ok()?;
    for line in text.lines() {
        if let Some(plan) = line.strip_prefix("PLAN ") {
            return Some(plan);
        }
    }
    None
}
