//! What is known of the columns of a block: the statistics of the indexes on them alone.

ghost use Rattle.std.specs.Prelude.{◌≡◌, ◌<◌, ◌∷◌, [], IfSome, option_map};
ghost use Rattle.definitions.specs.Table as spec;
ghost use Rattle.definitions.specs.Table.{Database};
ghost use Rattle.definitions.specs.Queries.BoundBlock.{Block};
ghost use Rattle.definitions.specs.Estimates.Selectivity as estimates;
ghost use Rattle.query_tree.specs.Bound.{column_of};
ghost use Rattle.indexes.specs.Meaning.{index_statistics_of, key_range_of};
ghost use Rattle.estimate.specs.Ranges.{range_of, IsBounded};
ghost use Rattle.estimate.specs.Tables.{tables_of, AreTablesOf};

use crate::key_ranges::Extent;
use catalog::{IndexStatistics, Table};
use query_tree::BlockColumn;

/// How many keys the index on a column alone has, where there is one; it is taken to have one at least (ICARD).
pub(crate) fn keys_of(tables: &[&Table], column: BlockColumn) -> Option<u64>
    ensures exact { (db : Database) (block : Block) → AreTablesOf db block (tables_of tables.now) →
        result ≡ estimates.keys_of db block (column_of column) }
    ensures some { IfSome result (λ keys. 0 < keys) }
{
    let statistics = own_statistics(tables, column)?;
    Some(statistics.keys.max(1))
}

/// The range of the keys of that index, where it is known and has an extent.
pub(crate) fn range_over(tables: &[&Table], column: BlockColumn) -> Option<Extent>
    ensures { (db : Database) (block : Block) → AreTablesOf db block (tables_of tables.now) →
        option_map range_of result ≡ estimates.range_over db block (column_of column) }
{
    let statistics = own_statistics(tables, column)?;
    let range = statistics.range?;
    Extent::new(range)
}

/// The statistics of the index on a column alone.
fn own_statistics(tables: &[&Table], column: BlockColumn) -> Option<IndexStatistics>
    ensures exact { (db : Database) (block : Block) → AreTablesOf db block (tables_of tables.now) →
        option_map index_statistics_of result ≡ option_map (λ (i : spec.Index).
        i.statistics) (estimates.own_index db block (column_of column)) }
    ensures bounded { IfSome result (λ statistics. IfSome statistics.range (λ range. IsBounded (key_range_of range))) }
{
    let table = tables.get(column.table)?;
    index_statistics(table, column.number)
}

/// The statistics of the index of a table on a column alone.
fn index_statistics(table: &Table, column: usize) -> Option<IndexStatistics>
    ensures exact { option_map index_statistics_of result
        ≡ option_map (λ (i : spec.Index). i.statistics) (spec.index_on table.now.indexes (column ∷ [])) }
    ensures bounded { IfSome result (λ statistics. IfSome statistics.range (λ range. IsBounded (key_range_of range))) }
{
    // A look at its length tells what holds of a table.
    let _len = table.len();
    'indexes: for number in 0..table.index_count() {
        let index = table.index(number);
        if index.is_on(&[column]) {
            return Some(index.statistics());
        }
    }
    None
}
