//! Names of tables and columns that are near one that is not there.

use catalog::{Database, Table};
use messages_syntax::Nearest;
use std::alloc::Global;
use std::fmt::{self, Formatter};

/// The table of a near name, as a hint line; nothing where none is near.
pub fn write_near_table<W: fmt::Write>(
    f: &mut Formatter<W>,
    alloc: Global,
    database: &Database,
    wanted: &str,
) -> fmt::Result {
    let mut nearest = Nearest::new(alloc, wanted);
    for table in database.tables() {
        nearest.offer(table.name());
    }
    nearest.write_hint(f)
}

/// The column of a near name, as a hint line; nothing where none is near.
pub fn write_near_column<W: fmt::Write>(
    f: &mut Formatter<W>,
    alloc: Global,
    table: &Table,
    wanted: &str,
) -> fmt::Result {
    let mut nearest = Nearest::new(alloc, wanted);
    for column in 0..table.width() {
        nearest.offer(table.column_name(column));
    }
    nearest.write_hint(f)
}
