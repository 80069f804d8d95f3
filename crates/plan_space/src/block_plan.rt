//! A plan with the space that it is of.

use crate::space::Space;
use estimate::Conjunct;
use plan_tree::Plan;

/// A plan of a block, the plan space that it is of, and the conjuncts that both rest on, for those who run it.
#[derive(Drop)]
pub struct BlockPlan<'a> {
    pub conjuncts: Vec<Conjunct<'a>>,
    pub space: Space<'a>,
    pub plan: Plan,
}
