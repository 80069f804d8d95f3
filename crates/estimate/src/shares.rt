//! What conjuncts leave of rows.

ghost use Rattle.std.specs.Prelude.{◌≡◌, ◌≤◌, ◌<◌, ◌&&◌, if◌then◌else◌, map, not};
ghost use Rattle.definitions.specs.Limits.{most_from_tables};
ghost use Rattle.definitions.specs.Plans.Cost as cost;
ghost use Rattle.definitions.specs.Estimates.Cardinality as spec;
ghost use Rattle.definitions.specs.Estimates.Cardinality.{left_by};
ghost use Rattle.plan_tree.specs.Sets.{set_of};
ghost use Rattle.estimate.specs.PlanConjuncts.{conjunct_of, names_known};

use crate::fractions::share;
use crate::plan_conjunct::PlanConjunct;
use plan_tree::TableSet;

/// What the conjuncts leave of some rows that a join with one more table completes: their tables are all there now, and were not
/// before.
pub(crate) fn left_by_completed(
    conjuncts: &[PlanConjunct],
    taken: TableSet,
    table: usize,
    rows: u64,
) -> u64
    requires { table < most_from_tables }
    ensures exact { result ≡ left_by (spec.is_completed (set_of taken) table) (map conjunct_of conjuncts.now) rows }
    ensures below { result ≤ rows }
{
    let mut left = rows;
    'conjuncts: for conjunct in conjuncts {
        left = left_of(left, conjunct, is_completed(conjunct, taken, table));
    }
    left
}

/// What the conjuncts leave of the rows of a table that name it, and beside it only tables whose rows are known.
pub(crate) fn left_by_known(
    conjuncts: &[PlanConjunct],
    known: TableSet,
    table: usize,
    rows: u64,
) -> u64
    requires { table < most_from_tables }
    ensures exact { result ≡ left_by (names_known (set_of known) table) (map conjunct_of conjuncts.now) rows }
    ensures below { result ≤ rows }
{
    let mut left = rows;
    'conjuncts: for conjunct in conjuncts {
        left = left_of(left, conjunct, is_known(conjunct, known, table));
    }
    left
}

fn is_completed(conjunct: &PlanConjunct, taken: TableSet, table: usize) -> bool
    requires { table < most_from_tables }
    ensures { result ≡ (not conjunct.now.conjunct.late && spec.is_completed (set_of taken) table (conjunct_of conjunct.now)) }
{
    let conjunct = conjunct.conjunct;
    !conjunct.late
        && conjunct.tables.is_within(taken.with(table))
        && !conjunct.tables.is_within(taken)
}

fn is_known(conjunct: &PlanConjunct, known: TableSet, table: usize) -> bool
    requires { table < most_from_tables }
    ensures { result ≡ (not conjunct.now.conjunct.late && names_known (set_of known) table (conjunct_of conjunct.now)) }
{
    let conjunct = conjunct.conjunct;
    !conjunct.late && conjunct.tables.has(table) && conjunct.tables.is_within(known.with(table))
}

/// What a conjunct leaves of some rows, if it is applied.
fn left_of(rows: u64, conjunct: &PlanConjunct, applied: bool) -> u64
    ensures exact { result ≡ (if applied then cost.share rows conjunct.now.selectivity else rows) }
    ensures below { result ≤ rows }
{
    if applied {
        share(rows, conjunct.selectivity)
    } else {
        rows
    }
}
