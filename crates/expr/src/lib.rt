//! What bound expressions mean: values, truth values, and what they raise.
#![tactic(auto)]

mod condition;
mod environments;
mod evaluation;
mod many_rows;
mod operation;
mod predicate;
mod raising;
mod row_truths;
mod short;
mod vectors;

pub use condition::truth;
pub use environments::Environment;
pub use evaluation::value;
pub use many_rows::ManyRows;
pub use raising::can_raise;
pub use row_truths::true_rows;
