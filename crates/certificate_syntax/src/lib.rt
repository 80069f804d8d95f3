//! What the text of a certificate says, with the numbers that stand there, whatever block it is of.
#![tactic(auto)]

mod fault;
mod number;
mod path;
mod plan;
mod stop;
mod text;
mod words;
mod written;

pub use fault::{Expected, FormFault};
pub use text::written_in;
pub use words::Word;
pub use written::{Written, WrittenPath, WrittenPlan, WrittenState};
