//! The planner's vocabulary: sets of a block's tables; access paths, plans and orders (tables, indexes, conjuncts and orders go by
//! number); and certificates by which a plan is shown to be least.
#![tactic(auto)]

mod cost;
mod order;
mod path;
mod plan;
mod states;
mod table_set;
mod version;

pub use cost::{Cost, LIMIT, saturate, saturating_product, saturating_sum};
pub use order::SortKey;
pub use path::{MAX_MATCHED, Path};
pub use plan::{Inner, Plan};
pub use query_tree::BlockColumn;
pub use states::{Certificate, State};
pub use table_set::{MAX_FROM_TABLES, TableSet};
pub use version::Version;
