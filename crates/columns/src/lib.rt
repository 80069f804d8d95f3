//! Columns of cells: numbers and texts with null bits, and scans of them 64 rows at a time.
#![tactic(auto)]

mod column;
mod lower_bound;
mod null_bits;
mod number;
mod range;
mod text;
mod text_word;
mod units;
mod words;

pub use column::Column;
pub use lower_bound::LowerBound;
pub use number::NumberColumn;
pub use text::TextColumn;
pub use words::all_rows;
