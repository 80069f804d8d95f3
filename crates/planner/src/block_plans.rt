//! The plans of a query's blocks, for those who run them.

ghost use Rattle.std.specs.Prelude.{IfOk, map};
ghost use Rattle.std.specs.List.{AllByRecursion};
ghost use Rattle.definitions.specs.Binding.Formed.{IsFormedSomewhere};
ghost use Rattle.query_tree.specs.Bound.{block_of};
ghost use Rattle.plan_space.specs.BlockPlans.{AreLeastOf, IsLeastOf};

use catalog::Database;
use estimate::{Estimate, conjuncts};
use join_dp::least_plan;
use plan_space::{BlockPlan, PlanNote, Space, Version};
use query_tree::Block;
use std::alloc::{AllocError, Global};

/// A least plan of each block of a query, in the order of their numbers (Selinger et al. 1979, sections 5 and 6). It fails where memory
/// runs out.
pub fn least_plans<'a>(
    alloc: Global,
    database: &'a Database,
    blocks: &'a [Block],
) -> Result<Vec<BlockPlan<'a>>, AllocError>
    requires formed { AllByRecursion (IsFormedSomewhere database.now) (map block_of blocks.now) }
    ensures { IfOk result (λ plans. AreLeastOf database.now (map block_of blocks.now) plans.items) }
{
    let mut plans = Vec::new(alloc);
    'planning: for block in blocks {
        let own = block_plan(alloc, database, block)?;
        plans.push(own)?;
    }
    Ok(plans)
}

/// A least plan of a block, in its plan space.
fn block_plan<'a>(
    alloc: Global,
    database: &'a Database,
    block: &'a Block,
) -> Result<BlockPlan<'a>, AllocError>
    requires formed { IsFormedSomewhere database.now (block_of block.now) }
    ensures { IfOk result (IsLeastOf database.now (block_of block.now)) }
{
    let conjuncts = conjuncts(alloc, block)?;
    let estimate = Estimate::new(alloc, database, block, &conjuncts)?;
    let space = Space::new(alloc, estimate, Version::Three)?;
    let plan = least_plan(alloc, &space)?;
    Ok(BlockPlan {
        conjuncts,
        space,
        plan,
    })
}

/// What there is to know of the figures that the plans of a query rest on (own). Where memory runs out, the rest is left out.
pub fn plan_notes(alloc: Global, plans: &[BlockPlan<'_>]) -> Vec<PlanNote> {
    let mut notes = Vec::new(alloc);
    for number in 0..plans.len() {
        let own = &plans[number];
        if let Some(found) = own.space.summary(&own.plan) {
            own.space.add_notes(alloc, &mut notes, number, found.cost);
        }
    }
    notes
}
