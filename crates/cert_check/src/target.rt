//! The rule of the target.

ghost use Rattle.std.specs.Prelude.{◌≡◌, ◌<◌, MatchOption};
ghost use Rattle.std.specs.Bool.{Decides};
ghost use Rattle.definitions.specs.Plans.Space.{whole};
ghost use Rattle.definitions.specs.Plans.Validity.{NoneFinal, IsMet};
ghost use Rattle.plan_tree.specs.Plans.{plan_of};
ghost use Rattle.plan_tree.specs.Sets.{set_of};
ghost use Rattle.plan_tree.specs.Certificates.{certificate_of};
ghost use Rattle.cert_check.specs.Checks.{FinalAt, IsFinal};
ghost use Rattle.plan_space.specs.Planned.{space_in};

use plan_space::Space;
use plan_tree::{Certificate, Plan, State, TableSet};

/// The order of the first listed state of all tables that gives the required order.
pub(crate) fn final_order(
    space: &Space<'_>,
    certificate: &Certificate,
    all: TableSet,
) -> Option<usize>
    requires { set_of all ≡ whole (space_in space.now) }
    ensures { MatchOption result (NoneFinal (space_in space.now) (certificate_of certificate.now))
        (FinalAt (space_in space.now) (certificate_of certificate.now)) }
{
    'states: for state in &certificate.states {
        if is_final(space, all, *state) {
            return Some(state.order);
        }
    }
    None
}

/// Whether a state has all tables and gives the required order.
fn is_final(space: &Space<'_>, all: TableSet, state: State) -> bool
    requires { set_of all ≡ whole (space_in space.now) }
    ensures { Decides result (IsFinal (space_in space.now) (set_of state.tables) state.order) }
{
    state.tables.place() == all.place() && space.gives_required(state.order)
}

/// Whether a plan gives the required order at the cost of the target.
pub(crate) fn is_met(
    space: &Space<'_>,
    plan: &Plan,
    certificate: &Certificate,
    all: TableSet,
) -> bool
    requires { set_of all ≡ whole (space_in space.now) }
    ensures { Decides result (IsMet (space_in space.now) (certificate_of certificate.now) (plan_of plan.now)) }
{
    let Some(summary) = space.summary(plan) else {
        return false;
    };
    summary.tables.place() == all.place()
        && summary.cost.number == certificate.target
        && space.gives_required(summary.order)
}
