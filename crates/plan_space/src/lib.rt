//! The plan space of a block: which tables conjuncts link, its paths, merges and sorts with what they cost, and which plans are of it
//! (Selinger et al. 1979, sections 4 and 5).
#![tactic(auto)]

mod block_plan;
mod join_graph;
mod join_relation;
mod listed;
mod loop_joins;
mod merge_joins;
mod merge_lists;
mod notes;
mod path_lists;
mod paths;
mod plan_summary;
mod same;
mod sort_costs;
mod space;
mod summarising;

pub use block_plan::BlockPlan;
pub use estimate::Conjunct;
pub use interesting_orders::Sorts;
pub use join_relation::JoinRelation;
pub use loop_joins::{CostedLoop, Loops, loop_cost};
pub use merge_joins::{CostedMerge, Merges};
pub use merge_lists::BlockMerges;
pub use notes::{PlanNote, PlanNoteKind};
pub use path_lists::BlockPaths;
pub use paths::{CostedPath, Paths};
pub use plan_summary::PlanSummary;
pub use plan_tree::{Inner, Path, Plan, SortKey, TableSet, Version};
pub use space::Space;
