//! The lines of an answer's rows: values as they are printed, the values of a row, rows that come many at a time, and lines and numbers that came
//! before.
//!
//! In reading order: `fault`; `printed_field`, values as they are printed; `result_row` and `row`, the values of a row; `lines`, each once;
//! `seen_units`, numbers that came before; `row_batch`, rows that come many at a time; `column_rows`, where their columns are columns of tables,
//! and `unit_lines`, where a column of numbers is all.
#![tactic(auto)]

mod column_rows;
mod fault;
mod lines;
mod printed_field;
mod result_row;
mod row;
mod row_batch;
mod seen_units;
mod unit_lines;

pub use column_rows::{are_columns_of, only_unit, write_columns, write_rows};
pub use fault::AnswerFault;
pub use lines::DistinctLines;
pub use result_row::{ResultRow, order_rows};
pub use row::{
    evaluate_row, keep_first, keep_row, write_count, write_header, write_kept, write_row,
};
pub use row_batch::RowBatch;
pub use seen_units::{SeenUnits, unit_of};
