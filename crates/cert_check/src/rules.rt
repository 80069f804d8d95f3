//! The check of a certificate.

ghost use Rattle.std.specs.Bool.{Decides};
ghost use Rattle.definitions.specs.Plans.Certificate.{IsCertificate};
ghost use Rattle.definitions.specs.Plans.Checking.{IsVerdict};
ghost use Rattle.definitions.specs.Plans.Plan as plan;
ghost use Rattle.definitions.specs.Plans.PlanSpace.{InSpace};
ghost use Rattle.definitions.specs.Plans.Validity.{IsMet};
ghost use Rattle.plan_tree.specs.Plans.{plan_of};
ghost use Rattle.plan_tree.specs.Certificates.{certificate_of};
ghost use Rattle.cert_check.specs.Compared.{IsFirstBelow};
ghost use Rattle.cert_check.specs.Verdicts.{below_of, verdict_of};
ghost use Rattle.plan_space.specs.Planned.{space_in};

use crate::failing::first_below;
use crate::target::{final_order, is_met};
use crate::verdict::{StateKey, Verdict};
use plan_space::Space;
use plan_tree::{Certificate, Plan, TableSet};

/// Whether a certificate shows that a plan is least; if not, the first comparison that fails, or the state at which the target isn't met
/// (own). It takes no memory, and looks at each step from each listed state once.
pub fn check<'a>(space: &'a Space<'_>, plan: &Plan, certificate: &Certificate) -> Verdict<'a>
    requires { IsCertificate (space_in space.now) (certificate_of certificate.now) }
    ensures verdict { IsVerdict (space_in space.now) (certificate_of certificate.now) (plan_of plan.now)
        (verdict_of result) }
    ensures first { IsFirstBelow (space_in space.now) (certificate_of certificate.now) (below_of result) }
{
    let tables = TableSet::first(space.table_count());
    check_rules(space, certificate, is_met(space, plan, certificate, tables))
}

/// What `check` answers of any plan outside the space (own).
pub fn check_outside<'a>(space: &'a Space<'_>, certificate: &Certificate) -> Verdict<'a>
    requires { IsCertificate (space_in space.now) (certificate_of certificate.now) }
    ensures verdict { (plan : plan.Plan) → (InSpace (space_in space.now) plan → ⊥) →
        IsVerdict (space_in space.now) (certificate_of certificate.now) plan (verdict_of result) }
    ensures first { IsFirstBelow (space_in space.now) (certificate_of certificate.now) (below_of result) }
{
    check_rules(space, certificate, false)
}

/// What makes the first rule fail that does, where a plan is known to meet the target or not.
fn check_rules<'a>(space: &'a Space<'_>, certificate: &Certificate, met: bool) -> Verdict<'a>
    requires { IsCertificate (space_in space.now) (certificate_of certificate.now) }
    ensures verdict { (plan : plan.Plan) →
        Decides met (IsMet (space_in space.now) (certificate_of certificate.now) plan) →
        IsVerdict (space_in space.now) (certificate_of certificate.now) plan (verdict_of result) }
    ensures first { IsFirstBelow (space_in space.now) (certificate_of certificate.now) (below_of result) }
{
    if let Some(failing) = first_below(space, certificate) {
        return Verdict::Below(failing);
    }
    let tables = TableSet::first(space.table_count());
    if let Some(order) = final_order(space, certificate, tables) {
        return Verdict::Unmet(StateKey { tables, order });
    }
    if !met {
        return Verdict::Unmet(StateKey { tables, order: 0 });
    }
    Verdict::Pass
}
