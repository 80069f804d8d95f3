//! Queries whose names are bound in a database, or why one is refused.
#![tactic(auto)]

mod block;
mod condition;
mod items;
mod query;
mod value;

pub use block::MAX_BLOCKS;
pub use query::bind;
pub use query_rules::{
    BindFault, MAX_CONJUNCTS, MAX_FROM_TABLES, MAX_GROUP_COLUMNS, MAX_ITEMS, MAX_KEYS, MAX_MEMBERS,
    MAX_SCALE, QueryFault,
};
