//! The third rule: no sort of a state leads to another for less than its bound.

ghost use Rattle.std.specs.Prelude.{◌<◌, ◌^◌, option_map};
ghost use Rattle.definitions.specs.Plans.Certificate.{IsCertificate};
ghost use Rattle.definitions.specs.Plans.Checking.{Sorts};
ghost use Rattle.plan_tree.specs.Sets.{set_of};
ghost use Rattle.plan_tree.specs.Certificates.{certificate_of, state_of};
ghost use Rattle.cert_check.specs.Checks.{IsSortFrom};
ghost use Rattle.cert_check.specs.Compared.{IsCompared};
ghost use Rattle.cert_check.specs.Comparisons.{comparison_of};
ghost use Rattle.cert_check.specs.Handing.{HandsOut};
ghost use Rattle.plan_space.specs.Planned.{space_in};

use crate::comparison::{Comparison, PlanStep, cost_from};
use crate::listener::Listener;
use crate::verdict::StateKey;
use plan_space::Space;
use plan_tree::{Certificate, State};

/// Hands out the comparisons of the sorts from listed states, each once, until the listener wants no more, and gives the one at which it
/// stopped (own). It takes no memory.
pub fn compare_sorts<'a, L: Listener>(
    space: &'a Space<'_>,
    certificate: &Certificate,
    listener: &mut L,
) -> Option<Comparison<'a>>
    requires { IsCertificate (space_in space.now) (certificate_of certificate.now) }
    ensures { HandsOut L.hears (IsCompared (space_in space.now) (certificate_of certificate.now) Sorts) listener.old
        (option_map comparison_of result) listener.new }
{
    'states: for state in &certificate.states {
        if let Some(last) = compare_sorts_from(space, certificate, *state, listener) {
            return Some(last);
        }
    }
    None
}

/// Hands out those from a state.
fn compare_sorts_from<'a, L: Listener>(
    space: &'a Space<'_>,
    certificate: &Certificate,
    from: State,
    listener: &mut L,
) -> Option<Comparison<'a>>
    requires form { IsCertificate (space_in space.now) (certificate_of certificate.now) }
    requires set { set_of from.tables < 2 ^ (space_in space.now).table_count }
    ensures { HandsOut L.hears (IsSortFrom (space_in space.now) (certificate_of certificate.now) (state_of from))
        listener.old (option_map comparison_of result) listener.new }
{
    let tables = from.tables;
    let cost = cost_from(from, space.sort_cost(tables));
    'orders: for into in space.sorts(tables) {
        let order = space.fold(tables, into);
        let comparison = Comparison {
            step: PlanStep::Sort { order: into },
            from: Some(from),
            to: StateKey { tables, order },
            cost,
            bound: certificate.bound(tables, order),
        };
        if !listener.hear(&comparison) {
            return Some(comparison);
        }
    }
    None
}
