//! What people are told of a fault of a script's text: what is wrong, what could have stood there, and a hint where one is sure.
#![tactic(auto)]

mod create;
mod dialects;
mod nearest;
mod queries;
mod seen;
mod spelling;
mod text;
mod wanted;

pub use nearest::Nearest;
pub use text::{write_lexical, write_lexical_hint};
pub use wanted::{write_too_deep, write_unexpected, write_unexpected_hint};
