//! Views of the plans of a block: its conjuncts and statistics, its least plan as a tree, what another plan loses and where, the search,
//! and its least plan in short. They add up no cost and judge no rule.
#![tactic(auto)]

mod asked;
mod conjunct_rows;
mod feet;
mod outlines;
mod pictures;
mod searches;
mod sections;
mod statistics;
mod ties;
mod trees;
mod used;
mod whys;
mod written;

pub use feet::foot;
pub use outlines::{BlockOutline, Priced, StepOutline, outline};
pub use planned_queries::{
    Asker, BlockView, Interest, PlannedIndex, PlannedTable, PlanningScript, Query, View, ViewFault,
};
pub use sections::section;
pub use used::{UsedColumn, used_columns};
