//! Late conjuncts that ask a column for what was told of a subquery, as tests of numbers over the composites of a batch.
#![tactic(auto)]

mod run_scan;
mod told_test;
mod unit_set;

pub use told_test::{ToldTest, test_of};
