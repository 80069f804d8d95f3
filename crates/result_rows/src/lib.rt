//! The rows of an answer, and what is kept of them until their end: lines that are printed as rows come, once each or in order, or
//! the first value of each, or whether there is any.
//!
//! In reading order: `printed_rows`, `distinct_rows`, `ordered_rows`, `first_value_rows` and `any_row`, what is kept; `row_store`, any of them;
//! `result_rows`, rows until one raises.
#![tactic(auto)]

mod any_row;
mod distinct_rows;
mod first_value_rows;
mod ordered_rows;
mod printed_rows;
mod result_rows;
mod row_store;

pub use any_row::AnyRow;
pub use distinct_rows::DistinctRows;
pub use first_value_rows::FirstValueRows;
pub use ordered_rows::OrderedRows;
pub use printed_rows::PrintedRows;
pub use result_rows::ResultRows;
pub use row_store::RowStore;
