//! Texts of scripts and files as people are shown them: lines and columns, the line around a place, and characters that a
//! terminal may show.
#![tactic(auto)]

mod excerpt;
mod lines;
mod visible;

pub use excerpt::write_excerpt;
pub use lines::{LineColumn, Lines};
pub use visible::{Visible, VisibleBytes};
