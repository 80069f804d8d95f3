//! Scans: the rows that an access path gives, one after another, and the sources that plans are pulled by, of single composites or of batches.
#![tactic(auto)]

mod batch;
mod batch_reader;
mod batch_source;
mod looking;
mod scan;
mod scan_key;
mod scan_rows;
mod tuple_source;

pub use batch::{BATCH_ROWS, Batch};
pub use batch_reader::BatchReader;
pub use batch_source::BatchSource;
pub use filters::{BlockSource, Composite, JoinFilter, NoOuterRows, OuterRows};
pub use looking::rows_of_path;
pub use scan::Scan;
pub use scan_rows::ScanRows;
pub use tuple_source::TupleSource;
