//! Plans of states, by their last steps.

ghost use Rattle.std.specs.Prelude.{◌≡◌, ◌<◌, IfOk, length};
ghost use Rattle.definitions.specs.Plans.Space.{Space};
ghost use Rattle.definitions.specs.Plans.Search.{IsComplete};
ghost use Rattle.plan_tree.specs.Plans.{path_of, plan_of};
ghost use Rattle.join_dp.specs.Planned.{AreFromBefore, IsPlanAt};
ghost use Rattle.join_dp.specs.StatePlans.{AllMade};
ghost use Rattle.join_dp.specs.States.{states_in};
ghost use Rattle.join_dp.specs.Steps.{joined};
ghost use Rattle.join_dp.specs.Views.{join_of};

use crate::states::States;
use crate::step::{Join, Step};
use plan_tree::{Inner, Path, Plan};
use std::alloc::{AllocError, Global};

/// The plan of the state at a place.
pub(crate) fn plan_at(alloc: Global, states: &States<'_>, place: usize) -> Result<Plan, AllocError>
    requires place { place < length (states_in states.now) }
    requires before { AreFromBefore (states_in states.now) }
    ensures { (space : Space) → IsComplete space → AllMade space (states_in states.now) →
        IfOk result (λ plan. IsPlanAt space (states_in states.now) place (plan_of plan)) }
{
    match states.at(place).found.step {
        Step::Access { path } => Ok(Plan::Access(copy_path(path)?)),
        Step::Join { from, join } => {
            let outer = Box::new(alloc, plan_at(alloc, states, from)?)?;
            joined_plan(outer, join)
        }
        Step::Sort { from, order } => {
            let input = Box::new(alloc, plan_at(alloc, states, from)?)?;
            Ok(Plan::Sort { input, order })
        }
    }
}

/// A plan and a join on top of it.
fn joined_plan(outer: Box<Plan>, join: Join<'_>) -> Result<Plan, AllocError>
    ensures { IfOk result (λ plan. plan_of plan ≡ joined (plan_of outer.value) (join_of join.entry)) }
{
    match join {
        Join::Loop { path } => Ok(Plan::Loop {
            outer,
            path: copy_path(path)?,
        }),
        Join::Merge {
            conjunct,
            path,
            sorted,
        } => Ok(Plan::Merge {
            outer,
            conjunct,
            inner: Inner {
                path: copy_path(path)?,
                sorted,
            },
        }),
    }
}

/// The same path once more.
fn copy_path(path: &Path) -> Result<Path, AllocError>
    ensures { IfOk result (λ p. path_of p ≡ path_of path.now) }
{
    path.clone()
}
