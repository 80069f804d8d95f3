//! Questions on the plans of a query, asked of its planning script: it is planned as it is, and with a statistic or an index changed, by
//! whoever plans scripts.
#![tactic(auto)]

mod answers;
mod differences;
mod figures;
mod index_changes;
mod pages;
mod proposed;
mod sweeps;

pub use answers::{Answer, QueryPlanner, Question};
pub use pages::{difference, page};
pub use plan_pages::Page;
pub use plan_views::{
    Asker, BlockView, Interest, PlanningScript, Query, View, ViewFault, outline, section,
    used_columns,
};
pub use proposed::proposals;
