//! Tables that are linked to sets of tables.

ghost use Rattle.std.specs.Prelude.{◌≡◌, ◌+◌, ◌<◌, ◌≤◌, map};
ghost use Rattle.std.specs.Bool.{Decides};
ghost use Rattle.definitions.specs.Limits.{most_from_tables};
ghost use Rattle.definitions.specs.Plans.Space.{Space};
ghost use Rattle.definitions.specs.Plans.PlanSpace.{Links};
ghost use Rattle.plan_tree.specs.Sets.{set_of};
ghost use Rattle.estimate.specs.PlanConjuncts.{conjunct_of};
ghost use Rattle.plan_space.specs.Linked.{AreLinked, Connect, LinksBy};

use estimate::PlanConjunct;
use plan_tree::TableSet;

/// The tables of the join graph that are linked to a set, among so many: those outside it that an early conjunct names together with
/// one of the set, and with no others (Selinger et al. 1979, section 5). It looks at each conjunct for each table.
pub(crate) fn linked_to(conjuncts: &[PlanConjunct], set: TableSet, tables: usize) -> TableSet
    requires { tables ≤ most_from_tables }
    ensures { (space : Space) → space.conjuncts ≡ map conjunct_of conjuncts.now →
        AreLinked space tables (set_of set) (set_of result) }
{
    let mut linked = TableSet::none();
    'tables: for table in 0..tables {
        linked = with_linked(linked, conjuncts, set, table);
    }
    linked
}

/// The linked tables with one more, if that is outside the set and linked to it.
fn with_linked(
    linked: TableSet,
    conjuncts: &[PlanConjunct],
    set: TableSet,
    table: usize,
) -> TableSet
    requires { table < most_from_tables }
    ensures { (space : Space) → space.conjuncts ≡ map conjunct_of conjuncts.now →
        AreLinked space table (set_of set) (set_of linked) →
        AreLinked space (table + 1) (set_of set) (set_of result) }
{
    if !set.has(table) && is_linked(conjuncts, set, table) {
        linked.with(table)
    } else {
        linked
    }
}

/// Whether one of the conjuncts links a table to a set.
fn is_linked(conjuncts: &[PlanConjunct], set: TableSet, table: usize) -> bool
    requires { table < most_from_tables }
    ensures { (space : Space) → space.conjuncts ≡ map conjunct_of conjuncts.now →
        Decides result (Links space (set_of set) table) }
{
    'conjuncts: for conjunct in conjuncts {
        if links(conjunct, set, table) {
            return true;
        }
    }
    false
}

/// Whether a conjunct links a table to a set: it is early, and its tables connect them.
fn links(conjunct: &PlanConjunct, set: TableSet, table: usize) -> bool
    requires { table < most_from_tables }
    ensures { Decides result (LinksBy (conjunct_of conjunct.now) (set_of set) table) }
{
    let conjunct = conjunct.conjunct;
    !conjunct.late && connect(conjunct.tables, set, table)
}

/// Whether tables connect a table to a set: they are that table and one of the set or more, and no others.
fn connect(tables: TableSet, set: TableSet, table: usize) -> bool
    requires { table < most_from_tables }
    ensures { Decides result (Connect (set_of tables) (set_of set) table) }
{
    tables.has(table) && tables.meets(set) && tables.is_within(set.with(table))
}
