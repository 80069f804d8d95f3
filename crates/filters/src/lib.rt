//! Filters: a block whose rows are read, composites of row numbers, and which rows of a table that comes to them pass early conjuncts.
#![tactic(auto)]

mod block_source;
mod candidate_rows;
mod comparison;
mod compiled_filter;
mod compiled_part;
mod composite;
mod join_filter;
mod laws;
mod member_list;
mod nulls;
mod outer_rows;
mod row_context;
mod row_test;
mod search_argument;
mod testing;

pub use block_source::BlockSource;
pub use comparison::{Comparison, Comparisons};
pub use compiled_filter::CompiledFilter;
pub use compiled_part::{CompiledPart, Scan};
pub use composite::Composite;
pub use join_filter::JoinFilter;
pub use member_list::MemberList;
pub use outer_rows::{NoOuterRows, OuterRows};
pub use row_context::RowContext;
pub use row_test::RowTest;
pub use search_argument::SearchArguments;
