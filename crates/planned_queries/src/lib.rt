//! Queries that are planned to be looked at: what they are planned over as a script without rows, each block with its least plan and its
//! certificate, the steps of plans with what they add, and the comparisons of the check. Costs, bounds and least plans are those of calls
//! with contracts; a step's own cost is the difference of two of them.
#![tactic(auto)]

mod asked;
mod block_views;
mod inner_blocks;
mod listening;
mod planning_script;
mod steps;
mod views;
mod wanted;
mod ways;
mod writing;

pub use asked::Asker;
pub use block_views::{BlockView, Query};
pub use catalog::{IndexStatistics, KeyRange, TableStatistics};
pub use cert_check::{KeptComparison, PlanStep, Space, StateKey};
pub use listening::Ledger;
pub use plan_texts::{PlanTextFault, outside, read_plan};
pub use planning_script::{PlannedColumn, PlannedIndex, PlannedTable, PlanningScript};
pub use sqlvalue::SqlType;
pub use steps::{PlanSteps, Shown, is_same_path, step_words};
pub use views::{Interest, View, ViewFault};
pub use wanted::MANY_STATES;
pub use ways::{Way, are_one_state, key_of, state_of};
