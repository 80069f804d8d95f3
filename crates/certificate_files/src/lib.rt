//! Files of certificates: one text for each block of a query, checked.
#![tactic(auto)]

mod checking;
mod cutting;
mod lines;
mod telling;

pub use cert_check::{Comparison, PlanStep, Rule, StateKey};
pub use certificate::{
    BadState, Expected, Missing, PlanNote, PlanNoteKind, TextFault, Version, Word,
};
pub use checking::{BlockTold, FileEnded, FileTold, check_file};
pub use telling::{RefusedText, Told};
