//! What one order serves for.

ghost use Rattle.std.specs.Prelude.{◌<◌, All, IfOk, option_map};
ghost use Rattle.definitions.specs.Plans.Space.{Space};
ghost use Rattle.plan_tree.specs.Plans.{order_of, orders_in};
ghost use Rattle.plan_tree.specs.Sets.{set_of};
ghost use Rattle.definitions.specs.Plans.TableSet as sets;
ghost use Rattle.interesting_orders.specs.Equated.{places_in, AreClassesOf, AreEquated};
ghost use Rattle.interesting_orders.specs.Merges.{IsWithin};
ghost use Rattle.interesting_orders.specs.Reach.{AreThose};
ghost use Rattle.interesting_orders.specs.Uses.{AreUsesOf, IsReached, IsUseOf};

use crate::equated::EquatedColumns;
use crate::equivalence_classes::EquivalenceClasses;
use crate::reach::order_tables;
use plan_tree::{SortKey, TableSet};
use std::alloc::{AllocError, Global};

/// What one order serves for.
#[derive(Clone, Copy)]
pub(crate) struct OrderUse {
    // the place of the column that it leads with, if a merge may go by it
    pub lead: Option<usize>,
    // the tables of its columns, if a set can have them
    pub tables: Option<TableSet>,
    // the tables that a merge may bring which goes by it, if a set can have them
    pub partners: Option<TableSet>,
    // rows of all tables in it are in the order that is asked for
    pub gives_required: bool,
}

/// What each order serves for, by the classes of the columns under all tables.
pub(crate) fn order_uses(
    alloc: Global,
    equated: &EquatedColumns,
    classes: &EquivalenceClasses,
    orders: &[Vec<SortKey>],
    required: &[SortKey],
) -> Result<Vec<OrderUse>, AllocError>
    ensures within { IfOk result (λ uses. All (λ (u : OrderUse). IsWithin (places_in equated.now) u.lead) uses.items) }
    ensures exact { IfOk result (λ uses. AreUsesOf equated.now classes.now (order_of required.now)
        (orders_in orders.now) uses.items) }
{
    let mut uses = Vec::new(alloc);
    'orders: for order in orders {
        uses.push(order_use(equated, classes, order, required))?;
    }
    Ok(uses)
}

/// What an order serves for.
fn order_use(
    equated: &EquatedColumns,
    classes: &EquivalenceClasses,
    order: &[SortKey],
    required: &[SortKey],
) -> OrderUse
    ensures within { IsWithin (places_in equated.now) result.lead }
    ensures exact { IsUseOf equated.now classes.now (order_of required.now) (order_of order.now) result }
{
    let lead = equated.lead(order);
    OrderUse {
        lead,
        tables: order_tables(order),
        partners: partners(equated, classes, lead),
        gives_required: equated.satisfies(classes, order, required),
    }
}

/// The tables that a merge may bring which goes by the column that an order leads with.
fn partners(
    equated: &EquatedColumns,
    classes: &EquivalenceClasses,
    lead: Option<usize>,
) -> Option<TableSet>
    requires within { IsWithin (places_in equated.now) lead }
    ensures { (space : Space) (tables : sets.TableSet) → AreEquated space equated.now →
        AreClassesOf space tables equated.now classes.now →
        AreThose (IsReached space equated.now tables lead) (option_map set_of result) }
{
    match lead {
        Some(lead) => equated.partners(classes, lead),
        None => Some(TableSet::none()),
    }
}
