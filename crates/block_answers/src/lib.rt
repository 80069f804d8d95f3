//! What a block answers, of combinations of rows that come one after another: its late conjuncts, the rows of combinations or of groups of
//! them with HAVING, and where rows are kept.
#![tactic(auto)]

mod batch_rows;
mod block_row;
mod block_rows;
mod column_functions;
mod group_rows;
mod having;
mod kept_rows;
mod late;
mod run_end;

pub use block_row::row_at;
pub use block_rows::BlockRows;
pub use kept_rows::KeptRows;
pub use late::{late_conditions, try_all};
