//! The plans on a set of tables, as joins go on from them.

ghost use Rattle.std.specs.Prelude.{◌≡◌, ◌<◌, ◌≤◌};
ghost use Rattle.std.specs.Bool.{Decides};
ghost use Rattle.definitions.specs.Plans.Cost.{limit};
ghost use Rattle.definitions.specs.Plans.PlanSpace.{MayFollow};
ghost use Rattle.definitions.specs.Plans.Space.{Space};
ghost use Rattle.plan_tree.specs.Sets.{set_of};
ghost use Rattle.interesting_orders.specs.Merges.{GoesBy};

use interesting_orders::{EquivalenceClasses, InterestingOrders};
use plan_tree::TableSet;

/// The plans on a set of tables, as joins go on from them: what is asked of the set for each table that may come next (Selinger et al.
/// 1979, section 5).
#[derive(Drop)]
pub struct JoinRelation<'s> {
    pub tables: TableSet,
    /// How many rows the plans are taken to give, at most 10^18.
    pub rows: u64,
    pub(crate) uses: &'s InterestingOrders,
    pub(crate) classes: EquivalenceClasses,
    // the tables that conjuncts link to the set; none where products are free
    pub(crate) linked: Option<TableSet>,
    pub ghost few: { rows ≤ limit },
}

impl<'s> JoinRelation<'s> {
    ghost use Rattle.plan_space.specs.Relation.{IsRelation};

    /// Whether a table may come next: it is outside the set, and linked to it where any table is, so that products of tables come last
    /// where they aren't free (Selinger et al. 1979, section 5). It takes constant time.
    pub fn can_join_next(&self, table: usize) -> bool
        ensures { (space : Space) → IsRelation space self.now → table < space.table_count →
            Decides result (MayFollow space (set_of self.now.tables) table) }
    {
        if self.tables.has(table) {
            return false;
        }
        match self.linked {
            Some(linked) => linked.has(table) || linked.is_empty(),
            None => true,
        }
    }

    /// Whether an order of the plans goes by the set's column of a merge conjunct, by which a table comes next. It takes constant time.
    pub fn goes_by(&self, order: usize, conjunct: usize, table: usize) -> bool
        ensures { (space : Space) → IsRelation space self.now →
            Decides result (GoesBy space (set_of self.now.tables) order conjunct table) }
    {
        self.uses
            .goes_by(&self.classes, self.tables, order, conjunct, table)
    }
}
