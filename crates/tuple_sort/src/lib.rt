//! Rows of a table, and composites of rows, put in an order, and the keys of their values.
#![tactic(auto)]

mod composite_value;
mod counting;
mod key_range;
mod key_sort;
mod list;
mod packing;
mod place_keys;
mod range_keys;
mod ranking;
mod row_keys;
mod rows;
mod single;
mod sort_buffer;
mod sort_tuple;
mod sorting;

pub use composite_value::value_at;
pub use list::Composites;
pub use row_keys::{RowKeys, keys_of_rows};
pub use rows::{sort_by_numbers, sort_rows, sort_rows_with_keys};
