//! Plans a query: of each bound block its plan space, a least plan, for EXPLAIN its exact certificate, and what that rests on.
#![tactic(auto)]

mod block_plans;
mod planned_block;
mod planned_query;

pub use block_plans::{least_plans, plan_notes};
pub use plan_space::{BlockPlan, PlanNote, PlanNoteKind};
pub use planned_block::PlannedBlock;
pub use planned_query::{explain_text, plan_query, planned_notes};
