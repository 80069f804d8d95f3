//! LOAD of the records of a file into columns and their indexes.

ghost use Rattle.std.specs.Prelude.{◌≡◌, ◌≤◌, ◌<◌, ◌^◌, ◌+◌, IfOk, IfErr, OnErr};
ghost use Rattle.definitions.specs.Limits.{most_rows};
ghost use Rattle.definitions.specs.Table as spec;
ghost use Rattle.loading.specs.Stored.{AreFilled, Extends};
ghost use Rattle.catalog.specs.Growth.{IsOf, Grows, AreOrdered, TellsRepeated, row_before};
ghost use Rattle.catalog.specs.Loads.{RefusesTable};

use crate::fault::{EarlierRow, LoadFault, RepeatedRecord};
use crate::table::MAX_ROWS;
use indexes::{ExtendFault, Index, RepeatedRow, extend_indexes};
use loading::{
    LoadWatch, Pushed, RecordStart, StopReason, TableColumn, push_records, record_start,
};
use std::alloc::Global;

/// What LOAD makes of a table: how many rows came, and its indexes with them.
#[derive(Drop)]
pub(crate) struct Grown {
    pub(crate) rows: usize,
    pub(crate) indexes: Vec<Index>,
}

/// Adds a row for each record of a file to the columns of `len` rows, and extends the indexes by them. An `Err` tells
/// what goes wrong first in the order of the records, and leaves the rows that were added.
pub(crate) fn grow<W: LoadWatch>(
    alloc: Global,
    columns: &mut [TableColumn],
    len: usize,
    indexes: &[Index],
    bytes: &[u8],
    watch: &W,
) -> Result<Grown, LoadFault>
    requires filled { AreFilled len columns.old }
    requires few { len ≤ most_rows }
    requires ordered { AreOrdered columns.old len indexes.now }
    ensures ok { IfOk result (λ grown. (t : spec.Table) → IsOf columns.old indexes.now len t →
        Grows t bytes.now indexes.now columns.old columns.new grown) }
    ensures refused { IfErr result (λ fault. (t : spec.Table) → IsOf columns.old indexes.now len t →
        RefusesTable t bytes.now fault) }
    ensures err { OnErr result (Extends columns.old columns.new) }
{
    let room = (MAX_ROWS - len) as u64;
    let Ok(Pushed { rows, stopped }) = push_records(alloc, columns, len, bytes, room, watch) else {
        return Err(LoadFault::Memory);
    };
    let rows = rows as usize;
    let made = match extend_indexes(alloc, indexes, columns, len + rows) {
        Ok(made) => made,
        Err(ExtendFault::Repeated(repeated)) => return Err(repeated_record(
            alloc, len, bytes, repeated,
        )),
        Err(ExtendFault::Memory) => return Err(LoadFault::Memory),
    };
    match stopped {
        None => Ok(Grown {
            rows,
            indexes: made,
        }),
        Some(StopReason::Record(refused)) => Err(LoadFault::Record(refused)),
        Some(StopReason::Full) => Err(LoadFault::ManyRows),
    }
}

/// The fault of a row whose key repeats that of an earlier one, behind the `len` rows that a table had.
fn repeated_record(alloc: Global, len: usize, bytes: &[u8], repeated: RepeatedRow) -> LoadFault
    requires { len ≤ repeated.row }
    ensures { TellsRepeated len repeated result }
{
    let number = repeated.row as u64 - len as u64 + 1;
    let Ok(RecordStart { start, line }) = record_start(alloc, bytes, number) else {
        return LoadFault::Memory;
    };
    LoadFault::Repeated(RepeatedRecord {
        index: repeated.index,
        earlier: earlier_row(len as u64, u64::from(repeated.earlier)),
        number,
        start,
        line,
    })
}

/// A row from 0, as one of the `len` that a table had or as a record.
fn earlier_row(len: u64, row: u64) -> EarlierRow
    requires { row < 2 ^ 32 }
    ensures { row_before len result ≡ row }
{
    if row < len {
        EarlierRow::Stored(row + 1)
    } else {
        EarlierRow::Loaded(row - len + 1)
    }
}
