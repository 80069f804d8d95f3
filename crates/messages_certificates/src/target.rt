//! Why a plan isn't shown to cost the target.

use crate::finding::Found;
use crate::naming::Naming;
use crate::places::{Spot, offset_of};
use crate::reason::{PlanFault, Reason, WrongStep};
use crate::spelling::state_name;
use crate::steps::{spelled_step, state_at};
use certificate::{BlockSpace, Spelled};
use certificate_files::StateKey;
use plan_texts::{last_step, outside, plan_below};
use plan_tree::Plan;

/// What makes the rule of the target fail at a state of all tables.
pub(crate) fn target_missed(
    naming: Naming<'_, '_>,
    own: &BlockSpace<'_>,
    spelled: &Spelled,
    text: &[u8],
    place: StateKey,
) -> Found {
    let listed = state_at(&spelled.certificate, place);
    let (spot, reason, named) = match listed {
        Some(number) if own.space.gives_required(place.order) => (
            Spot::StateTables(number),
            Reason::Final(state_name(place.tables, place.order)),
            naming.state(own, place),
        ),
        _ => {
            let fault = plan_fault(naming, own, spelled);
            let named = naming.plan(own, &spelled.plan);
            (spot_of(&fault), Reason::Plan(fault), named)
        }
    };
    Found {
        at: offset_of(text, spot),
        reason,
        named,
    }
}

fn spot_of(fault: &PlanFault) -> Spot {
    match fault {
        PlanFault::Outside(_)
        | PlanFault::Long
        | PlanFault::Partial { .. }
        | PlanFault::Order { .. } => Spot::Plan,
        PlanFault::Cost { .. } => Spot::Target,
    }
}

/// Why a plan doesn't meet the target.
fn plan_fault(naming: Naming<'_, '_>, own: &BlockSpace<'_>, spelled: &Spelled) -> PlanFault {
    let Some(plan) = &spelled.plan else {
        return PlanFault::Long;
    };
    let Some(measured) = own.space.summary(plan) else {
        return PlanFault::Outside(match outside(naming.names, own, plan) {
            Some(reason) => wrong_step(own, reason.part()),
            None => None,
        });
    };
    if measured.tables.place() != own.space.whole().place() {
        return PlanFault::Partial {
            tables: measured.tables.place() as u64,
            count: own.space.table_count(),
        };
    }
    if !own.space.gives_required(measured.order) {
        return PlanFault::Order {
            order: measured.order,
        };
    }
    PlanFault::Cost {
        cost: measured.cost.number,
        target: spelled.certificate.target,
    }
}

/// The last step of a plan, and what it stands on; none where memory runs out.
fn wrong_step(own: &BlockSpace<'_>, plan: &Plan) -> Option<WrongStep> {
    let on = match plan_below(plan) {
        Some(below) => own.space.summary(below),
        None => None,
    };
    Some(WrongStep {
        step: spelled_step(own, last_step(plan))?,
        on: match on {
            Some(below) => Some(state_name(below.tables, below.order)),
            None => None,
        },
    })
}
