//! Indexes of tables: keys, the rows in their order, and what is looked up in them; unique and other indexes by their columns.
#![tactic(auto)]

mod counting;
mod extension;
mod index;
mod index_kind;
mod key_column;
mod key_columns;
mod keys;
mod merging;
mod ordered;
mod pages;
mod repeated;
mod run;
mod sorted;
mod sorting;
mod statistics;
mod unique;

pub use extension::{ExtendFault, RepeatedRow, extend_indexes};
pub use index::Index;
pub use ordered::OrderedIndex;
pub use pages::row_width;
pub use repeated::RepeatedKey;
pub use sorted::SortedIndex;
pub use statistics::{IndexStatistics, KeyRange, TableStatistics};
pub use unique::{UniqueFault, UniqueIndex};
