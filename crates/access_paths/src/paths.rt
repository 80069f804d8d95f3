//! The paths of a table.

ghost use Rattle.std.specs.Prelude.{◌≡◌, ◌<◌, ◌++◌, IfOk, OnOk, Some, length, map};
ghost use Rattle.std.specs.List.{AllByRecursion};
ghost use Rattle.definitions.specs.Table as stored;
ghost use Rattle.definitions.specs.Plans.TableSet.{TableSet as Tables};
ghost use Rattle.definitions.specs.Queries.BoundBlock as b;
ghost use Rattle.definitions.specs.Queries.Conjuncts as queries;
ghost use Rattle.definitions.specs.Estimates.BlockTables.{table_at};
ghost use Rattle.definitions.specs.Estimates.Orders.{indexes_at};
ghost use Rattle.definitions.specs.Estimates.Paths as spec;
ghost use Rattle.definitions.specs.Estimates.Version.{Version, directions};
ghost use Rattle.query_tree.specs.Bound.{block_of};
ghost use Rattle.access_paths.specs.Found.{found_path_of, directions_with, open_paths, CostsAsPath, FoundPath, Reads};
ghost use Rattle.access_paths.specs.Listing.{segment_found, whole_found, matching_found, scans_found, number_found};
ghost use Rattle.access_paths.specs.Scans.{IsSizeOf};
ghost use Rattle.access_paths.specs.Matches as matches;
ghost use Rattle.access_paths.specs.Views.{index_match_of};

use crate::index_matches::{IndexMatch, index_matches};
use crate::scans::{IndexSize, ScanCost};
use estimate::Estimate;
use plan_tree::{Path, TableSet};
use std::alloc::{AllocError, Global};

/// A path of a table, for every set of tables that has those whose rows it needs.
#[derive(Drop)]
pub struct TablePath {
    pub path: Path,
    /// The tables of the values that its conjuncts compare columns with: their rows have to be known.
    pub required_outer: TableSet,
    /// What one scan costs, but for the rows that it hands on.
    pub cost: ScanCost,
}

/// The paths of a table of a block by some of its indexes, read forward and, if asked for, backward: those that need no more than
/// the rows of a set of tables are its paths where these are known, in order (Selinger et al. 1979, section 4). Indexes go by
/// number. There is one for each choice of conjuncts that match the first columns of an index.
pub fn table_paths(
    alloc: Global,
    estimate: &Estimate,
    table: usize,
    indexes: &[usize],
    backward: bool,
) -> Result<Vec<TablePath>, AllocError>
    requires table { table < length (block_of estimate.now.block).tables }
    requires indexes { (t : stored.Table) → table_at estimate.now.database (block_of estimate.now.block) table
        ≡ Some t → AllByRecursion (λ number. number < length t.indexes) indexes.now }
    ensures paths { IfOk result (λ paths. (version : Version) →
        indexes.now ≡ indexes_at version estimate.now.database (block_of estimate.now.block) table →
        directions_with backward ≡ directions version → (known : Tables) →
        open_paths known paths.items ≡ spec.paths_of version estimate.now.database (block_of estimate.now.block) known
        table) }
    ensures reads { IfOk result (λ paths. AllByRecursion (λ (x : FoundPath).
        Reads estimate.now.database (block_of estimate.now.block) table x.path) (map found_path_of paths.items)) }
    ensures costs { IfOk result (λ paths. AllByRecursion
        (CostsAsPath estimate.now.database (block_of estimate.now.block) table) (map found_path_of paths.items)) }
{
    let mut paths = Vec::new(alloc);
    paths.push(segment_path(estimate, table))?;
    'indexes: for number in indexes {
        push_index(alloc, &mut paths, estimate, table, *number, backward)?;
    }
    Ok(paths)
}

fn segment_path(estimate: &Estimate, table: usize) -> TablePath
    requires table { table < length (block_of estimate.now.block).tables }
    ensures exact { found_path_of result ≡ segment_found estimate.now.database (block_of estimate.now.block) table }
{
    TablePath {
        path: Path::Segment { table },
        required_outer: TableSet::none(),
        cost: ScanCost::Pages(estimate.table(table).statistics().pages),
    }
}

/// Adds the paths by an index.
fn push_index(
    alloc: Global,
    paths: &mut Vec<TablePath>,
    estimate: &Estimate,
    table: usize,
    number: usize,
    backward: bool,
) -> Result<(), AllocError>
    requires table { table < length (block_of estimate.now.block).tables }
    requires index { (t : stored.Table) → table_at estimate.now.database (block_of estimate.now.block) table
        ≡ Some t → number < length t.indexes }
    ensures exact { OnOk result (map found_path_of paths.new.items
        ≡ map found_path_of paths.old.items ++ number_found estimate.now.database (block_of estimate.now.block) table
        (directions_with backward) number) }
{
    let found = estimate.table(table);
    // A look at its length tells what holds of a table.
    let _len = found.len();
    let index = found.index(number);
    let chains = index_matches(alloc, estimate, table, index.columns())?;
    let scan = IndexScan {
        table,
        number,
        size: IndexSize::of(found, index),
    };
    scan.push_all(paths, estimate, &chains, false)?;
    if backward {
        scan.push_all(paths, estimate, &chains, true)?;
    }
    Ok(())
}

/// An index of a table that is scanned.
#[derive(Clone, Copy)]
struct IndexScan {
    table: usize,
    number: usize,
    size: IndexSize,
}

impl IndexScan {
    /// Adds the scan of the whole index and those of what chains match.
    fn push_all(
        self,
        paths: &mut Vec<TablePath>,
        estimate: &Estimate,
        chains: &[IndexMatch],
        backward: bool,
    ) -> Result<(), AllocError>
        requires there { AllByRecursion (λ (c : matches.IndexMatch).
            AllByRecursion (λ conjunct. conjunct < length (queries.conjuncts (block_of estimate.now.block)))
            c.conjuncts) (map index_match_of chains.now) }
        ensures exact { OnOk result ((i : stored.Index) →
            IsSizeOf estimate.now.database (block_of estimate.now.block) self.table i self.size →
            map found_path_of paths.new.items ≡ map found_path_of paths.old.items ++ scans_found estimate.now.database
            (block_of estimate.now.block) self.table self.number i (map index_match_of chains.now) backward) }
    {
        paths.push(self.whole(backward))?;
        'chains: for index_match in chains {
            paths.push(self.matching_path(estimate, index_match, backward)?)?;
        }
        Ok(())
    }

    fn whole(self, backward: bool) -> TablePath
        ensures exact { (db : stored.Database) (block : b.Block) (i : stored.Index) →
            IsSizeOf db block self.table i self.size →
            found_path_of result ≡ whole_found db block self.table self.number i backward }
    {
        TablePath {
            path: Path::Index {
                table: self.table,
                index: self.number,
                backward,
            },
            required_outer: TableSet::none(),
            cost: self.size.whole(),
        }
    }

    fn matching_path(
        self,
        estimate: &Estimate,
        index_match: &IndexMatch,
        backward: bool,
    ) -> Result<TablePath, AllocError>
        requires there { AllByRecursion (λ conjunct. conjunct
            < length (queries.conjuncts (block_of estimate.now.block))) (index_match_of index_match.now).conjuncts }
        ensures exact { IfOk result (λ path. (i : stored.Index) →
            IsSizeOf estimate.now.database (block_of estimate.now.block) self.table i self.size →
            found_path_of path ≡ matching_found estimate.now.database (block_of estimate.now.block) self.table self.number
            i backward (index_match_of index_match.now)) }
    {
        Ok(TablePath {
            path: Path::Match {
                table: self.table,
                index: self.number,
                conjuncts: index_match.conjuncts.clone()?,
                backward,
            },
            required_outer: index_match.required_outer,
            cost: self.size.matching_scan(estimate, index_match),
        })
    }
}
