//! Subqueries: the rows around them, their parameters, what was told of them and is kept, and late conjuncts by it.
//!
//! In reading order: `first_values`, the first values of a block's rows; `telling`, what is told of a block; `frames`, the rows of
//! the blocks around; `block_text` and `parameters`, what a block takes from them; `kept_results`, what was told where they had these
//! values; `forgetting`, which of that is given up; `late`, what late conjuncts are evaluated in.
#![tactic(auto)]

mod block_text;
mod first_values;
mod forgetting;
mod frames;
mod kept_results;
mod late;
mod memory;
mod parameters;
mod telling;

pub use block_text::{blocks_asked, blocks_seen};
pub use first_values::FirstValues;
pub use forgetting::{bound_memory, key_of};
pub use frames::{Frames, WorkWatch};
pub use kept_results::KeptResults;
pub use late::Late;
pub use parameters::{OuterColumn, block_parameters};
pub use telling::Told;
