//! The words that the rules of the grammar are written in: a cursor over the tokens of a script.
#![tactic(auto)]

mod class;
mod cursor;
mod leaf;
mod stop;
mod text;

pub use class::{TokenClass, Wanted};
pub use cursor::Cursor;
pub use leaf::{LineKind, TypeWord};
pub use stop::ParseStop;
