//! Runs a bound query by plans of its blocks that it is given: the text of its answer. It knows of no search.
#![tactic(auto)]

mod alone;
mod answer;
mod nested;
mod ready_block;
mod running;
mod sorted_columns;
mod taking;
mod told_batches;
mod watch;

pub use answer::{answer_text, run_select};
pub use ready_block::{ReadyBlock, ready_blocks};
pub use result_lines::AnswerFault;
pub use running::run_plan;
pub use watch::QueryWatch;
