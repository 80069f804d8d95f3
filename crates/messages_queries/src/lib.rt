//! What people are told of a query that is refused: where its fault stands, what it is, and a hint where one is sure.
#![tactic(auto)]

mod blocks_around;
mod column_words;
mod limit_words;
mod limits;
mod list_lengths;
mod query_places;
mod result_columns;
mod suggestions;
mod tables_in_sight;
mod words;

pub use blocks_around::block_of_number;
pub use list_lengths::ListLengths;
pub use query_places::offset_of_fault;
pub use suggestions::{write_near_column, write_near_table};
pub use tables_in_sight::name_in_sight;
pub use words::{QueryWords, missing_table};
