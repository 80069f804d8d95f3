//! Merges as they are listed.

ghost use Rattle.std.specs.Prelude.{◌<◌, ◌≤◌};
ghost use Rattle.definitions.specs.Estimates.Fractions.{million};
ghost use Rattle.definitions.specs.Limits.{most_from_tables};

use plan_tree::{Cost, Path};

/// A merge that may bring a table.
#[derive(Drop)]
pub(crate) struct MergeJoinPath {
    pub conjunct: usize,
    /// The table of the conjunct's other column, which the outer plan has to have.
    pub other: usize,
    pub path: Path,
    pub sorted: bool,
    /// What one scan of the path costs, and the sort of its rows if there is one.
    pub cost: Cost,
    /// The share of pairs of rows that the conjunct is taken to leave, in millionths.
    pub selectivity: u32,
    pub ghost part: { selectivity ≤ million },
}

/// A conjunct by which a table may be merged.
#[derive(Clone, Copy)]
pub(crate) struct MergeClause {
    pub table: usize,
    pub conjunct: usize,
    pub other: usize,
    pub selectivity: u32,
    /// What a sort of the table's rows costs.
    pub sort_cost: Cost,
    pub ghost part: { selectivity ≤ million },
    pub ghost within: { table < most_from_tables },
}
