//! A least plan, with its certificate.

ghost use Rattle.std.specs.Prelude.{ℕ, ◌+◌, ◌≤◌, ◌≡◌, IfOk, length};
ghost use Rattle.definitions.specs.Plans.Certificate as certificates;
ghost use Rattle.definitions.specs.Plans.Exact.{IsCertified, IsExact};
ghost use Rattle.definitions.specs.Plans.Least.{IsLeast};
ghost use Rattle.definitions.specs.Plans.Search.{certificate_below};
ghost use Rattle.definitions.specs.Plans.Validity.{IsValid};
ghost use Rattle.plan_tree.specs.Plans.{plan_of};
ghost use Rattle.plan_tree.specs.Certificates.{certificate_of};
ghost use Rattle.join_dp.specs.Counting.{AreCounts, most_steps};
ghost use Rattle.join_dp.specs.Final.{AreSolutions};
ghost use Rattle.join_dp.specs.Words.{words_in};
ghost use Rattle.plan_space.specs.Planned.{space_in};

use crate::certificate::{certificate, settled_states};
use crate::plan::plan_at;
use crate::settling::settle_states;
use plan_space::Space;
use plan_tree::{Certificate, Plan};
use std::alloc::{AllocError, Global};

/// How much a search did: the states that it solved, and the steps on the way, each an access, a join or a sort whose cost was
/// added up.
#[derive(Clone, Copy, PartialEq, Eq)]
pub struct Tried {
    pub solutions: u64,
    pub steps: u64,
}

/// A least plan (Selinger et al. 1979, section 5). There is a certificate that shows it, which isn't made. It fails where memory runs
/// out.
pub fn least_plan(alloc: Global, space: &Space<'_>) -> Result<Plan, AllocError>
    ensures { IfOk result (λ plan. (certificate : certificates.Certificate) ×
        IsCertified (space_in space.now) (plan_of plan) certificate) }
{
    let (states, place) = settle_states(alloc, space)?;
    let plan = plan_at(alloc, &states, place)?;
    Ok(plan)
}

/// A least plan, the certificate that shows it, and how much was tried (Selinger et al. 1979, section 5). It fails where memory
/// runs out.
pub fn optimise(alloc: Global, space: &Space<'_>) -> Result<(Plan, Certificate, Tried), AllocError>
    ensures least { IfOk result (λ r. IsLeast (space_in space.now) (plan_of r.0)) }
    ensures valid { IfOk result (λ r. IsValid (space_in space.now) (plan_of r.0) (certificate_of r.1)) }
    ensures exact { IfOk result (λ r. IsExact (space_in space.now) (certificate_of r.1)) }
    ensures short { IfOk result (λ r. words_in (plan_of r.0) ≤ 64) }
    ensures solutions { IfOk result (λ r. AreSolutions (space_in space.now) r.2.solutions) }
    ensures listed { IfOk result (λ r. length (certificate_of r.1).states + 1 ≤ r.2.solutions) }
    ensures solved { IfOk result (λ r. r.2.solutions ≤ r.2.steps) }
    ensures steps { (sorts : ℕ → ℕ) (joins : ℕ → ℕ → ℕ) → AreCounts (space_in space.now) sorts joins →
        IfOk result (λ r. r.2.steps ≤ most_steps (space_in space.now) sorts joins) }
{
    let (states, place) = settle_states(alloc, space)?;
    let target = states.at(place).found.cost.number;
    let settled = settled_states(alloc, space, &states.costs)?;
    let plan = plan_at(alloc, &states, place)?;
    let certificate = certificate(alloc, &settled, target)?;
    let tried = Tried {
        solutions: settled.len() as u64,
        steps: states.steps,
    };
    Ok((plan, certificate, tried))
}
