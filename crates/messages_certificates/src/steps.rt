//! Steps that lead to a state for less than its bound, as they are told.

use crate::reason::{LowStep, Step};
use crate::spelling::{spell_path, state_name};
use certificate::BlockSpace;
use certificate_files::{Comparison, PlanStep, StateKey};
use plan_tree::Certificate;

/// Where a state stands in the list, if it does.
pub(crate) fn state_at(certificate: &Certificate, place: StateKey) -> Option<usize> {
    for (number, state) in certificate.states.iter().enumerate() {
        if state.tables.place() == place.tables.place() && state.order == place.order {
            return Some(number);
        }
    }
    None
}

/// A comparison that fails, with the target; none where memory runs out.
pub(crate) fn low_step(
    own: &BlockSpace<'_>,
    failing: &Comparison<'_>,
    target: u64,
) -> Option<LowStep> {
    Some(LowStep {
        step: spelled_step(own, failing.step)?,
        from: match failing.from {
            Some(from) => Some((state_name(from.tables, from.order), from.cost)),
            None => None,
        },
        to: state_name(failing.to.tables, failing.to.order),
        cost: failing.cost.number,
        bound: failing.bound,
        target,
    })
}

/// A step with its path as texts spell it; none where memory runs out.
pub(crate) fn spelled_step(own: &BlockSpace<'_>, step: PlanStep<'_>) -> Option<Step> {
    match step {
        PlanStep::Access(path) => Some(Step::Access(spell_path(own, path)?)),
        PlanStep::Loop(path) => Some(Step::Loop(spell_path(own, path)?)),
        PlanStep::Merge {
            conjunct,
            path,
            sorted,
        } => Some(Step::Merge {
            conjunct,
            sorted,
            path: spell_path(own, path)?,
        }),
        PlanStep::Sort { order } => Some(Step::Sort { order }),
    }
}
