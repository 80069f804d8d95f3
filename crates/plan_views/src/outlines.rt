//! Least plans in short, which outlive their plan spaces.

use plan_tree::Plan;
use planned_queries::{BlockView, PlanSteps, PlanTextFault, Shown, Space, read_plan, step_words};
use std::alloc::{AllocError, Global};

/// A plan of a block, by names, that is to be priced.
#[derive(Drop)]
pub struct Priced {
    /// The block's number, from 0.
    pub block: usize,
    pub plan: String,
}

/// A block's least plan in short.
#[derive(Drop)]
pub struct BlockOutline {
    /// What it costs.
    pub target: u64,
    /// By names.
    pub plan: String,
    /// The last step first.
    pub steps: Vec<StepOutline>,
    /// Whether the check of its certificate passes.
    pub passes: bool,
    /// What each plan costs here that was to be priced; none of other blocks' plans and of those that are no plans here.
    pub prices: Vec<Option<u64>>,
}

/// A step of a plan in short.
#[derive(Drop)]
pub struct StepOutline {
    pub words: String,
    /// What it adds to the cost of what it stands on.
    pub own: u64,
}

/// A block's least plan in short, and what plans by names cost in its space. It fails where memory runs out.
pub fn outline(
    alloc: Global,
    priced: &[Priced],
    block: &BlockView<'_>,
) -> Result<BlockOutline, AllocError> {
    let orders = block.space().orders();
    let mut prices = Vec::new(alloc);
    for plan in priced {
        prices.push(price(alloc, plan, block)?)?;
    }
    Ok(BlockOutline {
        target: block.certificate().target,
        plan: format!(in alloc; "{}", block.names.plan(orders, block.plan()))?,
        steps: step_outlines(alloc, block)?,
        passes: block.passes,
        prices,
    })
}

/// What a plan costs in a block's space; none of another block's, and of one that is no plan here.
fn price(alloc: Global, priced: &Priced, block: &BlockView<'_>) -> Result<Option<u64>, AllocError> {
    if priced.block != block.number {
        return Ok(None);
    }
    let own = &block.planned.own;
    match read_plan(alloc, &block.names, own, priced.plan.as_str()) {
        Ok(plan) if own.space.in_space(&plan) => Ok(cost_of(&own.space, &plan)),
        Err(PlanTextFault::Memory) => Err(AllocError),
        _ => Ok(None),
    }
}

fn cost_of(space: &Space<'_>, plan: &Plan) -> Option<u64> {
    Some(space.summary(plan)?.cost.number)
}

fn step_outlines(alloc: Global, block: &BlockView<'_>) -> Result<Vec<StepOutline>, AllocError> {
    let steps = PlanSteps::of(alloc, block.space(), block.plan())?;
    let mut outlines = Vec::new(alloc);
    for number in 0..steps.len() {
        if let Some(shown) = steps.shown(number) {
            outlines.push(StepOutline {
                words: step_words(alloc, block, &shown)?,
                own: shown.own,
            })?;
        }
    }
    Ok(outlines)
}
