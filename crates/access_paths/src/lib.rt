//! Access paths: the ways to read a table of a block where the rows of some tables are known, and what they cost
//! (Selinger et al. 1979, sections 4 and 5).
#![tactic(auto)]

mod index_matches;
mod matching_terms;
mod paths;
mod sargable_terms;
mod scans;

pub use paths::{TablePath, table_paths};
pub use scans::ScanCost;
