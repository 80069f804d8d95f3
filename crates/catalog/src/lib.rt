//! The tables of a database in memory: CREATE TABLE, CREATE INDEX, LOAD of files of comma-separated values, and SET
//! STATISTICS.
#![tactic(auto)]

mod bound;
mod creation;
mod database;
mod fault;
mod growth;
mod naming;
mod table;

pub use bound::MAX_STATISTIC;
pub use database::{Database, MAX_TABLES};
pub use fault::{
    CreateFault, EarlierRow, IndexFault, ListFault, LoadFault, RangeEnd, RepeatedRecord,
    StatisticsFault, TableStatisticsFault,
};
pub use indexes::{Index, IndexStatistics, KeyRange, RepeatedKey, TableStatistics};
pub use loading::{ColumnFault, LoadProgress, LoadWatch, RecordFault, RefusedRecord};
pub use parse_tree::{MAX_COLUMNS, MAX_INDEX_COLUMNS};
pub use table::{MAX_INDEXES, MAX_ROWS, Table};
