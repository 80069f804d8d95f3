//! Asks plan spaces, searches, runs of given plans and answers by them what rows of data files say of them. `tests_engine` gives it the files,
//! and the gate compares what that prints. What `check` tells is asked of the built program, by tools/plan_rows.py.
#![tactic(auto)]

mod answer;
mod blocks;
mod questions;
mod rows;
mod running;
mod selecting;
mod statements;

pub use rows::ask;
