//! What the orders of a block serve for.

ghost use Rattle.std.specs.Prelude.{◌≡◌, ◌≢◌, [], ◌≤◌, All, IfOk, length, map};
ghost use Rattle.std.specs.Bool.{Decides};
ghost use Rattle.definitions.specs.Limits.{most_from_tables, most_conjuncts};
ghost use Rattle.definitions.specs.Plans.TableSet as sets;
ghost use Rattle.definitions.specs.Plans.ColumnClass.{Satisfies};
ghost use Rattle.definitions.specs.Plans.Folding.{Folds, OpensMerge};
ghost use Rattle.definitions.specs.Plans.PlanSpace.{CanSort};
ghost use Rattle.definitions.specs.Plans.Space.{Space, whole, order_at, IsOver};
ghost use Rattle.estimate.specs.PlanConjuncts.{conjunct_of};
ghost use Rattle.plan_tree.specs.Plans.{order_of, orders_in};
ghost use Rattle.plan_tree.specs.Sets.{set_of};
ghost use Rattle.interesting_orders.specs.Merges.{GoesBy, IsMergedWith, IsWithin};
ghost use Rattle.interesting_orders.specs.Equated.{places_in};
ghost use Rattle.interesting_orders.specs.Sorts.{AreSorts};
ghost use Rattle.interesting_orders.specs.declared.order_use.OrderUse.{OrderUse};

use crate::equated::EquatedColumns;
use crate::equivalence_classes::EquivalenceClasses;
use crate::order_use::{OrderUse, order_uses};
use crate::reach::are_within;
use crate::sorts::Sorts;
use estimate::PlanConjunct;
use plan_tree::{SortKey, TableSet};
use std::alloc::{AllocError, Global};

/// What the numbered orders of a block serve for: merges that are still to come, sorts, and the order that the block asks for
/// (Selinger et al. 1979, section 5: interesting orders).
#[derive(Drop)]
pub struct InterestingOrders {
    equated: EquatedColumns,
    orders: Vec<OrderUse>,
    asked: bool,
    ghost within: { All (λ (u : OrderUse). IsWithin (places_in equated) u.lead) orders.items },
}

impl InterestingOrders {
    ghost use Rattle.interesting_orders.specs.Uses.{AreClassesIn, AreUses, IsUse};

    /// What the orders of a block serve for, by its conjuncts in text order, its numbered orders and the one that it asks for. It
    /// looks at each conjunct for each order.
    pub fn new(
        alloc: Global,
        conjuncts: &[PlanConjunct],
        orders: &[Vec<SortKey>],
        required: &[SortKey],
        tables: usize,
    ) -> Result<InterestingOrders, AllocError>
        requires tables { tables ≤ most_from_tables }
        requires few { length conjuncts.now ≤ most_conjuncts }
        ensures { (space : Space) → space.table_count ≡ tables →
            space.conjuncts ≡ map conjunct_of conjuncts.now → space.orders ≡ orders_in orders.now →
            space.required ≡ order_of required.now → IfOk result (AreUses space) }
    {
        let equated = EquatedColumns::new(alloc, conjuncts)?;
        let classes = equated.classes(TableSet::first(tables));
        let orders = order_uses(alloc, &equated, &classes, orders, required)?;
        Ok(InterestingOrders {
            equated,
            orders,
            asked: !required.is_empty(),
        })
    }

    /// What the order of a number serves for; one that has no number is empty.
    fn at(&self, order: usize) -> OrderUse
        ensures within { IsWithin (places_in self.now.equated) result.lead }
        ensures exact { (space : Space) → AreUses space self.now →
            IsUse space self.now.equated (order_at space order) result }
    {
        match self.orders.get(order) {
            Some(found) => *found,
            None => OrderUse {
                lead: None,
                tables: Some(TableSet::none()),
                partners: Some(TableSet::none()),
                gives_required: !self.asked,
            },
        }
    }

    /// The classes of the columns that conjuncts equate, under a set of tables. It looks at each conjunct, and for each that equates
    /// columns of the set at each column.
    pub fn classes(&self, tables: TableSet) -> EquivalenceClasses
        ensures { (space : Space) → AreUses space self.now → AreClassesIn space (set_of tables) self.now result }
    {
        self.equated.classes(tables)
    }

    /// Whether rows of all tables in an order are in the one that the block asks for. This and the calls below take constant time,
    /// but where they say otherwise.
    pub fn gives_required(&self, order: usize) -> bool
        ensures { (space : Space) → AreUses space self.now →
            Decides result (Satisfies space (whole space) (order_at space order) space.required) }
    {
        self.at(order).gives_required
    }

    /// The fold of an order at a set of tables: itself, where it gives an order that is asked for or a merge that is still to come
    /// may go by it, else the empty one (own).
    pub fn fold(&self, tables: TableSet, order: usize) -> usize
        ensures { (space : Space) → AreUses space self.now → Folds space (set_of tables) order result }
    {
        if self.gives_asked(order) || self.opens_merge(tables, order) {
            order
        } else {
            0
        }
    }

    /// Whether an order is asked for and rows of all tables in this one are in it.
    fn gives_asked(&self, order: usize) -> bool
        ensures { (space : Space) → AreUses space self.now →
            Decides result ((space.required ≢ []) × Satisfies space (whole space) (order_at space order)
            space.required) }
    {
        self.asked && self.at(order).gives_required
    }

    /// Whether a merge that is still to come may go by an order.
    fn opens_merge(&self, tables: TableSet, order: usize) -> bool
        ensures { (space : Space) → AreUses space self.now →
            Decides result (OpensMerge space (set_of tables) (order_at space order)) }
    {
        !are_within(self.at(order).partners, tables)
    }

    /// Whether rows of a set of tables may be sorted into an order: it is numbered and not empty, and of their columns.
    pub fn can_sort(&self, tables: TableSet, order: usize) -> bool
        ensures { (space : Space) → AreUses space self.now → Decides result (CanSort space (set_of tables) order) }
    {
        order != 0 && self.is_over(tables, order)
    }

    /// Whether an order is numbered, and of columns of a set of tables.
    fn is_over(&self, tables: TableSet, order: usize) -> bool
        ensures { (space : Space) → AreUses space self.now → Decides result (IsOver space (set_of tables) order) }
    {
        order < self.orders.len() && are_within(self.at(order).tables, tables)
    }

    /// The orders into which rows of a set of tables may be sorted. One step looks at each order as it comes to it.
    pub fn sorts(&self, tables: TableSet) -> Sorts<'_>
        ensures { (space : Space) → AreUses space self.now → AreSorts space (set_of tables) result }
    {
        match self.orders.split_first() {
            Some((_, rest)) => Sorts::new(rest, self.orders.len(), tables),
            None => Sorts::new(&[], 0, tables),
        }
    }

    /// Whether rows of plans on the tables of the classes in one order are in another, too. It goes through the keys.
    pub fn satisfies(
        &self,
        classes: &EquivalenceClasses,
        order: &[SortKey],
        wanted: &[SortKey],
    ) -> bool
        ensures { (space : Space) (tables : sets.TableSet) → AreUses space self.now →
            AreClassesIn space tables self.now classes.now →
            Decides result (Satisfies space tables (order_of order.now) (order_of wanted.now)) }
    {
        self.equated.satisfies(classes, order, wanted)
    }

    /// Whether an order of a set of tables, whose classes these are, goes by the set's column of a merge conjunct, by which a table
    /// comes next.
    pub fn goes_by(
        &self,
        classes: &EquivalenceClasses,
        tables: TableSet,
        order: usize,
        conjunct: usize,
        table: usize,
    ) -> bool
        ensures { (space : Space) → AreUses space self.now →
            AreClassesIn space (set_of tables) self.now classes.now →
            Decides result (GoesBy space (set_of tables) order conjunct table) }
    {
        let Some(lead) = self.at(order).lead else {
            return false;
        };
        let Some(sides) = self.equated.sides(conjunct, table) else {
            return false;
        };
        tables.has(self.equated.table(sides.outer))
            && self.equated.are_joined(classes, lead, sides.outer)
    }

    /// The other table of a conjunct, if it is a merge conjunct by which a table comes next.
    pub fn merged_with(&self, conjunct: usize, table: usize) -> Option<usize>
        ensures { (space : Space) → AreUses space self.now → IsMergedWith space conjunct table result }
    {
        let sides = self.equated.sides(conjunct, table)?;
        Some(self.equated.table(sides.outer))
    }
}
