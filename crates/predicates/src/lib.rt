//! The conjuncts of a block's WHERE, each early or late, with the tables that it names and the columns that it equates; and what a condition
//! says of columns.
#![tactic(auto)]

mod column_term;
mod conjunct;
mod equated;
mod known;
mod membership;
mod split;
mod tables;
mod terms;

pub use column_term::{ColumnTerm, ColumnTerms, SidedTerm};
pub use conjunct::Conjunct;
pub use equated::{column_of, equated_columns};
pub use known::{known_number, known_value};
pub use membership::Membership;
pub use split::conjuncts;
pub use tables::value_tables;
pub use terms::{column_terms, range_term};
