//! What the rows of a block are taken to be: the shares that conditions leave of them, how many its tables and sets of its
//! tables give, and how many pages those fill (Selinger et al. 1979, sections 4 and 5).
#![tactic(auto)]

mod column_keys;
mod conditions;
mod estimate;
mod fractions;
mod key_ranges;
mod plan_conjunct;
mod planning;
mod selectivity_shares;
mod shares;
mod table_size;

pub use estimate::Estimate;
pub use fractions::{MILLION, fraction, share};
pub use plan_conjunct::PlanConjunct;
pub use predicates::{Conjunct, conjuncts};
pub use selectivity_shares::one_key;
