//! How many rows and pages a table is taken to have, and how wide its rows are.

ghost use Rattle.std.specs.Prelude.{◌≡◌, ◌≤◌, IfOk, length, map};
ghost use Rattle.definitions.specs.Plans.Cost.{limit};
ghost use Rattle.estimate.specs.Widths.{widest};

use catalog::Table;
use std::alloc::{AllocError, Global};

/// How many rows a table is taken to have (NCARD), and what one of them takes, in bytes.
#[derive(Clone, Copy)]
pub(crate) struct TableSize {
    pub rows: u64,
    pub width: u64,
    pub ghost few: { rows ≤ limit },
    pub ghost narrow: { width ≤ widest },
}

impl TableSize {
    ghost use Rattle.estimate.specs.Sizes.{size_in, size_of_table, sizes_of};

    /// The sizes of tables, in their order.
    pub fn all(alloc: Global, tables: &[&Table]) -> Result<Vec<TableSize>, AllocError>
        ensures exact { IfOk result (λ sizes. map size_in sizes.items ≡ sizes_of tables.now) }
        ensures count { IfOk result (λ sizes. length sizes.items ≡ length tables.now) }
    {
        let mut sizes = Vec::new(alloc);
        'tables: for table in tables {
            sizes.push(TableSize::of(table))?;
        }
        Ok(sizes)
    }

    fn of(table: &Table) -> TableSize
        ensures { size_in result ≡ size_of_table table.now }
    {
        // A look at its length tells what holds of a table.
        let _len = table.len();
        TableSize {
            rows: table.statistics().rows,
            width: table.row_width(),
        }
    }
}
