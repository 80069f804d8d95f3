//! The estimates of a plan.

use plan_tree::{Cost, TableSet};

/// The tables of a plan, the number of the order of its rows, and what it costs.
#[derive(Clone, Copy)]
pub struct PlanSummary {
    pub tables: TableSet,
    pub order: usize,
    pub cost: Cost,
}
