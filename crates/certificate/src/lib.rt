//! The text of a plan and its certificate, written and read, and what it refers to of a block of a query.
#![tactic(auto)]

mod below;
mod block_space;
mod certified;
mod fault;
mod meant;
mod one_column;
mod reading;
mod states;
mod there;
mod writing;

pub use block_space::BlockSpace;
pub use certificate_syntax::{Expected, Word};
pub use certified::CertifiedBlock;
pub use fault::{BadState, Missing, TextFault};
pub use plan_space::{CostedMerge, PlanNote, PlanNoteKind, PlanSummary, Space, Version};
pub use reading::{Spelled, read_text};
pub use writing::write_text;
