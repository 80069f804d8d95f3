//! Notes on what is not refused, and hardly as it is meant: on loaded tables, and on the plans of queries.
#![tactic(auto)]

mod load_notes;
mod notes;
mod plan_notes;
mod refused_loads;
mod silent;

pub use load_notes::LoadReport;
pub use notes::Notes;
pub use plan_notes::PlanReport;
