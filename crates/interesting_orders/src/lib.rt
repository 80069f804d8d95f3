//! Interesting orders (Selinger et al. 1979, sections 4 and 5): columns that are equal on all rows of plans on a set of tables, the
//! numbered orders that a plan may give its rows, and what those orders serve for.
#![tactic(auto)]

mod equated;
mod equivalence_classes;
mod interesting_orders;
mod known;
mod labels;
mod order_use;
mod places;
mod reach;
mod required;
mod sort_orders;
mod sorts;

pub use equivalence_classes::EquivalenceClasses;
pub use interesting_orders::InterestingOrders;
pub use known::known_indexes;
pub use required::{is_grouped, required_order};
pub use sort_orders::SortOrders;
pub use sorts::Sorts;
