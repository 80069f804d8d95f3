//! The settled states, as a certificate.

ghost use Rattle.std.specs.Prelude.{◌≡◌, ◌<◌, ◌++◌, ◌^◌, IfOk, map, length};
ghost use Rattle.definitions.specs.Plans.Search.{certificate_below};
ghost use Rattle.definitions.specs.Plans.Space.{whole};
ghost use Rattle.plan_tree.specs.Certificates.{certificate_of, state_of};
ghost use Rattle.plan_tree.specs.Sets.{set_of};
ghost use Rattle.join_dp.specs.Listing.{states_of, states_up_to};
ghost use Rattle.join_dp.specs.StateCosts.{costs_of};
ghost use Rattle.plan_space.specs.Planned.{space_in};

use crate::state_costs::StateCosts;
use plan_space::Space;
use plan_tree::{Certificate, State, TableSet};
use std::alloc::{AllocError, Global};

/// The settled states, by their sets of tables and orders.
pub(crate) fn settled_states(
    alloc: Global,
    space: &Space<'_>,
    costs: &StateCosts,
) -> Result<Vec<State>, AllocError>
    requires sets { (costs_of costs.now).sets ≡ 2 ^ (space_in space.now).table_count }
    requires orders { (costs_of costs.now).orders ≡ length (space_in space.now).orders }
    ensures { IfOk result (λ v. map state_of v.items ≡ states_up_to (costs_of costs.now) (whole (space_in space.now))) }
{
    let mut settled = Vec::new(alloc);
    let end = space.whole().place();
    'sets: for place in 0..end {
        push_settled(
            costs,
            TableSet::at(place + 1),
            space.order_count(),
            &mut settled,
        )?;
    }
    Ok(settled)
}

/// Those of a set of tables.
fn push_settled(
    costs: &StateCosts,
    tables: TableSet,
    orders: usize,
    settled: &mut Vec<State>,
) -> Result<(), AllocError>
    requires set { set_of tables < (costs_of costs.now).sets }
    requires orders { orders ≡ (costs_of costs.now).orders }
    ensures { IfOk result (λ _. map state_of settled.new.items
        ≡ map state_of settled.old.items ++ states_of (costs_of costs.now) (set_of tables) (costs_of costs.now).orders) }
{
    if !costs.has_row(tables) {
        return Ok(());
    }
    'orders: for order in 0..orders {
        if costs.is_settled(tables, order) {
            settled.push(State {
                tables,
                order,
                cost: costs.cost(tables, order),
            })?;
        }
    }
    Ok(())
}

/// The states that cost less than a target.
pub(crate) fn certificate(
    alloc: Global,
    states: &Vec<State>,
    target: u64,
) -> Result<Certificate, AllocError>
    ensures { IfOk result (λ c. certificate_of c ≡ certificate_below target (map state_of states.now.items)) }
{
    let mut kept = Vec::new(alloc);
    'states: for state in states {
        if state.cost < target {
            kept.push(State {
                tables: state.tables,
                order: state.order,
                cost: state.cost,
            })?;
        }
    }
    Ok(Certificate {
        target,
        states: kept,
    })
}
