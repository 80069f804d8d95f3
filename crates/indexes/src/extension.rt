//! Indexes of a table that gets further rows.

ghost use Rattle.std.specs.Prelude.{◌≡◌, ◌≤◌, ◌<◌, IfOk, IfErr, Option, length};
ghost use Rattle.std.specs.List.{AllByRecursion};
ghost use Rattle.definitions.specs.Limits.{most_rows};
ghost use Rattle.loading.specs.Stored.{AreFilled, headers, rows_of};
ghost use Rattle.indexes.specs.Extension.{IsBeginningOf, AreExtended, RefusesExtension, earlier_repeat};

use crate::index::Index;
use crate::repeated::RepeatedKey;
use crate::unique::UniqueFault;
use loading::TableColumn;
use std::alloc::{AllocFailed, Global};

/// A row whose key in an index repeats that of an earlier one. Rows and indexes count from 0.
#[derive(Clone, Copy, PartialEq, Eq)]
pub struct RepeatedRow {
    pub index: usize,
    pub row: u32,
    pub earlier: u32,
}

/// Why indexes do not get further rows.
#[derive(Clone, Copy, PartialEq, Eq)]
pub enum ExtendFault {
    /// The key of a row repeats in a unique index, and of no row before it (ISO/IEC 9075:1992, 8.9).
    Repeated(RepeatedRow),
    Memory,
}

impl<T: Drop> From<AllocFailed<T>> for ExtendFault {
    ghost use Rattle.indexes.specs.Extension.{IsMemory};

    ghost from_gives = { λ _ fault. IsMemory fault };

    fn from(_error: AllocFailed<T>) -> ExtendFault {
        ExtendFault::Memory
    }
}

/// All indexes of a table with further rows behind those that they have, with their statistics counted over all.
pub fn extend_indexes(
    alloc: Global,
    indexes: &[Index],
    columns: &[TableColumn],
    rows: usize,
) -> Result<Vec<Index>, ExtendFault>
    requires filled { AreFilled rows columns.now }
    requires few { rows ≤ most_rows }
    requires beginnings { AllByRecursion (IsBeginningOf (length columns.now) (rows_of rows columns.now)) indexes.now }
    ensures ok { IfOk result (λ made. AreExtended (headers columns.now) (rows_of rows columns.now) indexes.now
        made.items) }
    ensures refused { IfErr result (RefusesExtension indexes.now (rows_of rows columns.now)) }
{
    let mut made = Vec::new(alloc);
    let mut first: Option<RepeatedRow> = None;
    for (place, index) in indexes.iter().enumerate() {
        match index.with_further_rows(alloc, columns, rows) {
            Ok(index) => made.push(index)?,
            Err(UniqueFault::Repeated(key)) => first = Some(earlier_of(first, place, key)),
            Err(UniqueFault::Memory) => return Err(ExtendFault::Memory),
        }
    }
    match first {
        Some(repeated) => Err(ExtendFault::Repeated(repeated)),
        None => Ok(made),
    }
}

/// Of two repeated rows the one that stands first.
fn earlier_of(first: Option<RepeatedRow>, index: usize, key: RepeatedKey) -> RepeatedRow
    ensures { result ≡ earlier_repeat first index key }
{
    match first {
        Some(repeated) if repeated.row <= key.row => repeated,
        _ => RepeatedRow {
            index,
            row: key.row,
            earlier: key.earlier,
        },
    }
}
