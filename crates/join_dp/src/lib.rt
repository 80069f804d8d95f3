//! The search for a least plan, by the sets of tables that plans are on (Selinger et al. 1979, section 5), in the order of the plans'
//! costs (Dijkstra 1959).
#![tactic(auto)]

mod accesses;
mod certificate;
mod cheapest_path;
mod frontier;
mod join_lists;
mod plan;
mod search;
mod settling;
mod state_costs;
mod states;
mod step;
mod taking;

pub use search::{Tried, least_plan, optimise};
