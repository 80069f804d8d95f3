//! The first step that leads below a bound.

ghost use Rattle.std.specs.Prelude.{IfSome, option_map};
ghost use Rattle.definitions.specs.Plans.Certificate.{IsCertificate};
ghost use Rattle.definitions.specs.Plans.Checking.{IsVerdict};
ghost use Rattle.definitions.specs.Plans.Plan as plan;
ghost use Rattle.plan_tree.specs.Certificates.{certificate_of};
ghost use Rattle.cert_check.specs.Compared.{refused_by, IsFirstBelow};
ghost use Rattle.cert_check.specs.Comparisons.{comparison_of};
ghost use Rattle.plan_space.specs.Planned.{space_in};

use crate::accesses::compare_accesses;
use crate::comparison::Comparison;
use crate::joins::compare_joins;
use crate::listener::Listener;
use crate::sorts::compare_sorts;
use plan_space::Space;
use plan_tree::Certificate;

/// Listens as long as no step leads below the bound of its state.
#[derive(Drop)]
struct UntilBelow;

impl Listener for UntilBelow {
    ghost use Rattle.std.specs.Prelude.{◌≤◌};
    ghost use Rattle.std.specs.Bool.{Decides};

    ghost hears = { λ old c more new. Decides more (c.bound ≤ c.cost) };

    fn hear(&mut self, comparison: &Comparison<'_>) -> bool {
        comparison.bound <= comparison.cost.number
    }
}

/// The first step that leads to a state for less than its bound, by the first rule that fails: accesses, then joins, then sorts (own). It
/// takes no memory, and looks at each step from each listed state at most once.
pub(crate) fn first_below<'a>(
    space: &'a Space<'_>,
    certificate: &Certificate,
) -> Option<Comparison<'a>>
    requires { IsCertificate (space_in space.now) (certificate_of certificate.now) }
    ensures first { IsFirstBelow (space_in space.now) (certificate_of certificate.now) (option_map comparison_of result) }
    ensures verdict { IfSome (option_map comparison_of result) (λ c. (plan : plan.Plan) →
        IsVerdict (space_in space.now) (certificate_of certificate.now) plan (refused_by c)) }
{
    let mut listener = UntilBelow;
    if let Some(failing) = compare_accesses(space, certificate, &mut listener) {
        return Some(failing);
    }
    if let Some(failing) = compare_joins(space, certificate, &mut listener) {
        return Some(failing);
    }
    compare_sorts(space, certificate, &mut listener)
}
