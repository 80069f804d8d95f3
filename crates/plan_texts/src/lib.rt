//! Plans read from texts, by the names of their script or in EXPLAIN's spelling; and why a plan is none of its block's plan space, in words.
#![tactic(auto)]

mod broken_rules;
mod cheapest;
mod fault;
mod form_words;
mod paths_apart;
mod plan_reader;
mod reading;
mod rule_words;
mod tokens;
mod wanted;

pub use broken_rules::{BrokenRule, OutsideText, outside};
pub use fault::{Expectation, NameProblem, PlanTextFault};
pub use form_words::form_problem;
pub use paths_apart::PathFault;
pub use plan_names::{BlockNames, last_step, plan_below};
pub use reading::read_plan;
pub use wanted::are_same;
