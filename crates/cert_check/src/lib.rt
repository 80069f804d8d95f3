//! A checker of certificates, which knows of no search: it hands out what the rules compare, and tells the first that fails.
#![tactic(auto)]

mod accesses;
mod comparison;
mod failing;
mod joins;
mod kept_comparison;
mod listener;
mod rules;
mod sorts;
mod target;
mod verdict;

pub use accesses::compare_accesses;
pub use comparison::{Comparison, PlanStep};
pub use joins::compare_joins;
pub use kept_comparison::KeptComparison;
pub use listener::Listener;
pub use plan_space::{PlanSummary, Space};
pub use rules::{check, check_outside};
pub use sorts::compare_sorts;
pub use verdict::{Rule, StateKey, Verdict};
