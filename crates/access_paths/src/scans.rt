//! What scans cost (Selinger et al. 1979, table 2; the numbers are own).

ghost use Rattle.std.specs.Prelude.{ℕ, ◌≡◌, ◌<◌, ◌∷◌, [], ◌||◌, if◌then◌else◌, length, nat_le, Some};
ghost use Rattle.std.specs.List.{AllByRecursion};
ghost use Rattle.definitions.specs.Table as table;
ghost use Rattle.definitions.specs.Table.{Database};
ghost use Rattle.definitions.specs.Queries.BoundBlock as b;
ghost use Rattle.definitions.specs.Queries.Conjuncts as queries;
ghost use Rattle.definitions.specs.Estimates.BlockTables.{table_at};
ghost use Rattle.definitions.specs.Estimates.PathCost as costs;
ghost use Rattle.definitions.specs.Estimates.PathCost.{buffer_pages};
ghost use Rattle.query_tree.specs.Bound.{block_of};
ghost use Rattle.access_paths.specs.Scans.{cost_with, matching_scan, scan_cost_of, whole_scan, IsSizeOf};
ghost use Rattle.access_paths.specs.Views.{index_match_of};

use crate::index_matches::IndexMatch;
use catalog::{Index, Table};
use estimate::{Estimate, fraction, share};
use plan_tree::{Cost, saturating_sum};

/// Pages that the buffer holds, so that none is fetched twice (own).
const BUFFER_PAGES: u64 = 64;

/// What a scan costs, but for the rows that it hands on.
#[derive(Clone, Copy, Debug, PartialEq, Eq)]
pub enum ScanCost {
    /// One row, by a unique index of which all columns are equal to a value: two pages.
    OneRow,
    /// So many pages.
    Pages(u64),
}

impl ScanCost {
    /// What a scan costs that hands on so many rows: 10 for each page and 1 for each row, at most 10^18 (Selinger et al. 1979,
    /// section 4; the weight is own).
    pub fn cost(self, rows: u64) -> Cost
        ensures { result.number ≡ cost_with (scan_cost_of self) rows }
    {
        match self {
            ScanCost::OneRow => Cost::of(21),
            ScanCost::Pages(pages) => Cost::of(10 * u128::from(pages) + u128::from(rows)),
        }
    }
}

/// An index, as far as the costs of its scans depend on it.
#[derive(Clone, Copy)]
pub(crate) struct IndexSize {
    pub columns: usize,
    pub unique: bool,
    pub clustered: bool,
    pub keys: u64,
    // NINDX + TCARD: each page of the table once
    pub pages_once: u64,
    // NINDX + NCARD: a page of the table for each row
    pub pages_by_row: u64,
}

impl IndexSize {
    /// The size of an index of a table.
    pub fn of(table: &Table, index: &Index) -> IndexSize
        ensures { (db : Database) (block : b.Block) (number : ℕ) → table_at db block number ≡ Some table.now →
            IsSizeOf db block number index.now.index result }
    {
        let pages = index.statistics().pages;
        let size = table.statistics();
        IndexSize {
            columns: index.columns().len(),
            unique: index.is_unique(),
            clustered: index.statistics().clustered,
            keys: index.statistics().keys,
            pages_once: saturating_sum(pages, size.pages),
            pages_by_row: saturating_sum(pages, size.rows),
        }
    }

    /// A scan of the whole index.
    pub fn whole(self) -> ScanCost
        ensures { (db : Database) (block : b.Block) (number : ℕ) (i : table.Index) → IsSizeOf db block number i self →
            scan_cost_of result ≡ whole_scan db block number i }
    {
        ScanCost::Pages(self.pages_fetched(self.pages_once, self.pages_by_row))
    }

    /// A scan of what a chain matches.
    pub fn matching_scan(self, estimate: &Estimate, index_match: &IndexMatch) -> ScanCost
        requires there { AllByRecursion (λ conjunct. conjunct
            < length (queries.conjuncts (block_of estimate.now.block))) (index_match_of index_match.now).conjuncts }
        ensures { (number : ℕ) (i : table.Index) → IsSizeOf estimate.now.database (block_of estimate.now.block) number
            i self → scan_cost_of result ≡ matching_scan estimate.now.database (block_of estimate.now.block) number i
            (index_match_of index_match.now) }
    {
        let all_equal = index_match.equal && index_match.conjuncts.len() == self.columns;
        if self.unique && all_equal {
            return ScanCost::OneRow;
        }
        let once = self.share_of(estimate, index_match, all_equal, self.pages_once);
        let by_row = self.share_of(estimate, index_match, all_equal, self.pages_by_row);
        ScanCost::Pages(self.pages_fetched(once, by_row))
    }

    /// The share of pages that a chain matches: one key where two columns or more are all equal to a value, else what its
    /// conjuncts leave.
    fn share_of(
        self,
        estimate: &Estimate,
        index_match: &IndexMatch,
        all_equal: bool,
        pages: u64,
    ) -> u64
        requires there { AllByRecursion (λ conjunct. conjunct
            < length (queries.conjuncts (block_of estimate.now.block))) (index_match_of index_match.now).conjuncts }
        ensures { (number : ℕ) (i : table.Index) → IsSizeOf estimate.now.database (block_of estimate.now.block) number
            i self → result ≡ costs.matched estimate.now.database (block_of estimate.now.block) i all_equal
            (index_match_of index_match.now).conjuncts pages }
    {
        if self.columns >= 2 && all_equal {
            share(pages, fraction(1, self.keys.max(1)))
        } else {
            shares(estimate, &index_match.conjuncts, pages)
        }
    }

    /// Of the pages fetched where each counts once, and of those fetched for each row: the first if the index is clustered or
    /// they fit into the buffer.
    fn pages_fetched(self, once: u64, by_row: u64) -> u64
        ensures { result ≡ (if self.clustered || nat_le once buffer_pages then once else by_row) }
    {
        if self.clustered || once <= BUFFER_PAGES {
            once
        } else {
            by_row
        }
    }
}

/// The share of pages that conjuncts leave, each its own of what those before it left.
fn shares(estimate: &Estimate, conjuncts: &[usize], pages: u64) -> u64
    requires there { AllByRecursion (λ conjunct. conjunct
        < length (queries.conjuncts (block_of estimate.now.block))) conjuncts.now }
    ensures { result ≡ costs.shares estimate.now.database (block_of estimate.now.block) conjuncts.now pages }
{
    let mut left = pages;
    'conjuncts: for conjunct in conjuncts {
        left = share_left(estimate, *conjunct, left);
    }
    left
}

/// The share of pages that a conjunct leaves.
fn share_left(estimate: &Estimate, conjunct: usize, pages: u64) -> u64
    requires there { conjunct < length (queries.conjuncts (block_of estimate.now.block)) }
    ensures { result ≡ costs.shares estimate.now.database (block_of estimate.now.block) (conjunct ∷ []) pages }
{
    let conjunct = estimate.conjuncts()[conjunct];
    share(pages, conjunct.selectivity)
}
