//! The first rule: no access to a table leads to a state for less than its bound.

ghost use Rattle.std.specs.Prelude.{◌<◌, ◌≤◌, option_map};
ghost use Rattle.definitions.specs.Limits.{most_from_tables};
ghost use Rattle.definitions.specs.Plans.Certificate.{IsCertificate};
ghost use Rattle.definitions.specs.Plans.Checking.{Accesses};
ghost use Rattle.plan_tree.specs.Certificates.{certificate_of};
ghost use Rattle.cert_check.specs.Checks.{IsAccessOf};
ghost use Rattle.cert_check.specs.Compared.{IsCompared};
ghost use Rattle.cert_check.specs.Comparisons.{comparison_of};
ghost use Rattle.cert_check.specs.Handing.{HandsOut};
ghost use Rattle.plan_space.specs.Planned.{space_in};

use crate::comparison::{Comparison, PlanStep};
use crate::listener::Listener;
use crate::verdict::StateKey;
use plan_space::Space;
use plan_tree::{Certificate, TableSet};

/// Hands out the comparisons of the accesses, each once, until the listener wants no more, and gives the one at which it stopped (own).
/// It takes no memory.
pub fn compare_accesses<'a, L: Listener>(
    space: &'a Space<'_>,
    certificate: &Certificate,
    listener: &mut L,
) -> Option<Comparison<'a>>
    requires { IsCertificate (space_in space.now) (certificate_of certificate.now) }
    ensures { HandsOut L.hears (IsCompared (space_in space.now) (certificate_of certificate.now) Accesses) listener.old
        (option_map comparison_of result) listener.new }
{
    'tables: for table in 0..space.table_count() {
        if let Some(last) = compare_accesses_of(space, certificate, table, listener) {
            return Some(last);
        }
    }
    None
}

/// Hands out those of one table.
fn compare_accesses_of<'a, L: Listener>(
    space: &'a Space<'_>,
    certificate: &Certificate,
    table: usize,
    listener: &mut L,
) -> Option<Comparison<'a>>
    requires form { IsCertificate (space_in space.now) (certificate_of certificate.now) }
    requires few { (space_in space.now).table_count ≤ most_from_tables }
    requires table { table < (space_in space.now).table_count }
    ensures { HandsOut L.hears (IsAccessOf (space_in space.now) (certificate_of certificate.now) table) listener.old
        (option_map comparison_of result) listener.new }
{
    let tables = TableSet::only(table);
    'paths: for item in space.paths(TableSet::none(), table) {
        let order = space.fold(tables, item.order);
        let comparison = Comparison {
            step: PlanStep::Access(item.path),
            from: None,
            to: StateKey { tables, order },
            cost: item.cost,
            bound: certificate.bound(tables, order),
        };
        if !listener.hear(&comparison) {
            return Some(comparison);
        }
    }
    None
}
