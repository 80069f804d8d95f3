//! Tables, columns, conditions, access paths, orders, plans and their steps by the names that a script gives them.
#![tactic(auto)]

mod blocks;
mod column_texts;
mod conditions;
mod names;
mod plans;
mod steps;
mod values;

pub use cert_check::PlanStep;
pub use column_texts::{ColumnText, IndexText, OrderText, TablesText};
pub use conditions::ConditionText;
pub use names::BlockNames;
pub use plans::{PathText, PlanText};
pub use steps::{ConjunctText, StateText, StepText, last_step, plan_below};
pub use values::ValueText;
