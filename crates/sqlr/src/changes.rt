//! Statements that print OK: CREATE TABLE, CREATE INDEX and SET STATISTICS.

ghost use Rattle.std.specs.Prelude.{◌≡◌, map, IfOk, IfErr, OnErr};
ghost use Rattle.definitions.specs.Statement as tree;
ghost use Rattle.parse_tree.specs.Trees.{definitions_of, statistics_of, name_of};
ghost use Rattle.sqlr.specs.declared.outcome.StepFault.TheVariants as fault;
ghost use Rattle.sqlr.specs.Outcomes.{Changes};

use crate::outcome::{Printed, StepFault, done, refusal_line, refused_by};
use catalog::Database;
use diagnostics::{Cause, ColumnList, StatisticsCause, TableStatisticsCause};
use std::alloc::Global;
use syntax::{ColumnDefinition, Count, IndexStatistics, Name};

pub fn create_table<'a>(
    alloc: Global,
    database: &mut Database,
    name: &'a Name,
    columns: &'a [ColumnDefinition],
) -> Result<Printed<'a>, StepFault>
    ensures changes { IfOk result (Changes database.old
        (tree.CreateTable (name_of name.now) (definitions_of columns.now)) database.new) }
    ensures kept { OnErr result (database.new ≡ database.old) }
    ensures memory { IfErr result (λ f. f ≡ fault.Memory) }
{
    let text = Vec::from_slice(alloc, b"OK\n")?;
    let fault = match database.create_table(name.text.as_str(), columns) {
        Ok(()) => return Ok(done(text)),
        Err(fault) => fault,
    };
    let cause = Cause::Create {
        name,
        columns,
        fault,
    };
    refused_by(alloc, fault.refusal(), cause)
}

pub fn create_index<'a>(
    alloc: Global,
    database: &mut Database,
    unique: bool,
    table: &'a Name,
    columns: &'a [Name],
) -> Result<Printed<'a>, StepFault>
    ensures changes { IfOk result (Changes database.old
        (tree.CreateIndex unique (name_of table.now) (map name_of columns.now)) database.new) }
    ensures kept { OnErr result (database.new ≡ database.old) }
    ensures memory { IfErr result (λ f. f ≡ fault.Memory) }
{
    let text = Vec::from_slice(alloc, b"OK\n")?;
    let fault = match database.create_index(unique, table.text.as_str(), columns) {
        Ok(()) => return Ok(done(text)),
        Err(fault) => fault,
    };
    let list = ColumnList { table, columns };
    refused_by(alloc, fault.refusal(), Cause::Index { list, fault })
}

/// SET STATISTICS of a table.
pub fn set_table_statistics<'a>(
    alloc: Global,
    database: &mut Database,
    table: &'a Name,
    rows: Count,
    pages: Count,
) -> Result<Printed<'a>, StepFault>
    ensures changes { IfOk result (Changes database.old
        (tree.SetTableStatistics (name_of table.now) rows.units pages.units) database.new) }
    ensures kept { OnErr result (database.new ≡ database.old) }
    ensures memory { IfErr result (λ f. f ≡ fault.Memory) }
{
    let text = Vec::from_slice(alloc, b"OK\n")?;
    let fault = match database.set_table_statistics(table.text.as_str(), rows.units, pages.units) {
        Ok(()) => return Ok(done(text)),
        Err(fault) => fault,
    };
    let cause = TableStatisticsCause {
        table,
        rows,
        pages,
        fault,
    };
    refusal_line(alloc, fault.refusal(), Cause::TableStatistics(cause))
}

/// SET STATISTICS of an index.
pub fn set_index_statistics<'a>(
    alloc: Global,
    database: &mut Database,
    table: &'a Name,
    columns: &'a [Name],
    statistics: &'a IndexStatistics,
) -> Result<Printed<'a>, StepFault>
    ensures changes { IfOk result (Changes database.old
        (tree.SetIndexStatistics (name_of table.now) (map name_of columns.now) (statistics_of statistics.now))
        database.new) }
    ensures kept { OnErr result (database.new ≡ database.old) }
    ensures memory { IfErr result (λ f. f ≡ fault.Memory) }
{
    let text = Vec::from_slice(alloc, b"OK\n")?;
    let fault = match database.set_index_statistics(table.text.as_str(), columns, statistics) {
        Ok(()) => return Ok(done(text)),
        Err(fault) => fault,
    };
    let cause = StatisticsCause {
        list: ColumnList { table, columns },
        statistics,
        fault,
    };
    refused_by(alloc, fault.refusal(), Cause::Statistics(cause))
}
