//! The second rule: no join on top of a state leads to another for less than its bound.

ghost use Rattle.std.specs.Prelude.{◌≡◌, ◌<◌, ◌≤◌, option_map};
ghost use Rattle.definitions.specs.Limits.{most_from_tables};
ghost use Rattle.definitions.specs.Plans.Certificate.{IsCertificate};
ghost use Rattle.definitions.specs.Plans.Checking.{Joins};
ghost use Rattle.plan_tree.specs.Sets.{set_of};
ghost use Rattle.plan_tree.specs.Certificates.{certificate_of, state_of};
ghost use Rattle.cert_check.specs.Checks.{IsLoopOver, IsMergeWith, IsJoinWith, IsJoinFrom};
ghost use Rattle.cert_check.specs.Compared.{IsCompared};
ghost use Rattle.cert_check.specs.Comparisons.{comparison_of};
ghost use Rattle.cert_check.specs.Handing.{HandsOut};
ghost use Rattle.plan_space.specs.Planned.{space_in};
ghost use Rattle.plan_space.specs.Relation.{IsRelation};

use crate::comparison::{Comparison, PlanStep, cost_from};
use crate::listener::Listener;
use crate::verdict::StateKey;
use plan_space::{JoinRelation, Space};
use plan_tree::{Certificate, State, TableSet};

/// Hands out the comparisons of the joins from listed states, each once, until the listener wants no more, and gives the one at which it
/// stopped (own). It takes no memory.
pub fn compare_joins<'a, L: Listener>(
    space: &'a Space<'_>,
    certificate: &Certificate,
    listener: &mut L,
) -> Option<Comparison<'a>>
    requires { IsCertificate (space_in space.now) (certificate_of certificate.now) }
    ensures { HandsOut L.hears (IsCompared (space_in space.now) (certificate_of certificate.now) Joins) listener.old
        (option_map comparison_of result) listener.new }
{
    let mut outer = space.relation(TableSet::none());
    'states: for state in &certificate.states {
        outer = relation_of(space, outer, state.tables);
        if let Some(last) = compare_joins_from(space, certificate, &outer, *state, listener) {
            return Some(last);
        }
    }
    None
}

/// The relation of a set of tables, which is the one that is known where that is of the same set: listed states of one set stand side
/// by side.
fn relation_of<'a>(
    space: &'a Space<'_>,
    known: JoinRelation<'a>,
    tables: TableSet,
) -> JoinRelation<'a>
    requires { IsRelation (space_in space.now) known }
    ensures tables { set_of result.tables ≡ set_of tables }
    ensures exact { IsRelation (space_in space.now) result }
{
    if known.tables.place() == tables.place() {
        known
    } else {
        space.relation(tables)
    }
}

/// Hands out those from a state.
fn compare_joins_from<'a, L: Listener>(
    space: &'a Space<'_>,
    certificate: &Certificate,
    outer: &JoinRelation<'_>,
    from: State,
    listener: &mut L,
) -> Option<Comparison<'a>>
    requires outer { IsRelation (space_in space.now) outer.now }
    requires from { set_of outer.now.tables ≡ set_of from.tables }
    requires form { IsCertificate (space_in space.now) (certificate_of certificate.now) }
    ensures { HandsOut L.hears (IsJoinFrom (space_in space.now) (certificate_of certificate.now) (state_of from))
        listener.old (option_map comparison_of result) listener.new }
{
    'tables: for table in 0..space.table_count() {
        if let Some(last) = compare_joins_with(space, certificate, outer, from, table, listener) {
            return Some(last);
        }
    }
    None
}

/// Hands out those from a state with a table.
fn compare_joins_with<'a, L: Listener>(
    space: &'a Space<'_>,
    certificate: &Certificate,
    outer: &JoinRelation<'_>,
    from: State,
    table: usize,
    listener: &mut L,
) -> Option<Comparison<'a>>
    requires outer { IsRelation (space_in space.now) outer.now }
    requires from { set_of outer.now.tables ≡ set_of from.tables }
    requires form { IsCertificate (space_in space.now) (certificate_of certificate.now) }
    requires few { (space_in space.now).table_count ≤ most_from_tables }
    requires table { table < (space_in space.now).table_count }
    ensures { HandsOut L.hears (IsJoinWith (space_in space.now) (certificate_of certificate.now) (state_of from) table)
        listener.old (option_map comparison_of result) listener.new }
{
    if !outer.can_join_next(table) {
        return None;
    }
    let tables = from.tables.with(table);
    let order = space.fold(tables, from.order);
    let to = StateKey { tables, order };
    let bound = certificate.bound(tables, order);
    if let Some(last) = compare_loops(space, outer, from, table, to, bound, listener) {
        return Some(last);
    }
    compare_merges(space, outer, from, table, to, bound, listener)
}

/// Hands out the loops over a table, which lead from a state to another of a bound.
fn compare_loops<'a, L: Listener>(
    space: &'a Space<'_>,
    outer: &JoinRelation<'_>,
    from: State,
    table: usize,
    to: StateKey,
    bound: u64,
    listener: &mut L,
) -> Option<Comparison<'a>>
    requires outer { IsRelation (space_in space.now) outer.now }
    requires from { set_of outer.now.tables ≡ set_of from.tables }
    requires table { table < (space_in space.now).table_count }
    ensures { HandsOut L.hears (IsLoopOver (space_in space.now) (state_of from) table (set_of to.tables) to.order bound)
        listener.old (option_map comparison_of result) listener.new }
{
    'loops: for item in space.loops(outer, table) {
        let comparison = Comparison {
            step: PlanStep::Loop(item.path),
            from: Some(from),
            to,
            cost: cost_from(from, item.cost),
            bound,
        };
        if !listener.hear(&comparison) {
            return Some(comparison);
        }
    }
    None
}

/// Hands out the merges with a table that the state's order allows.
fn compare_merges<'a, L: Listener>(
    space: &'a Space<'_>,
    outer: &JoinRelation<'_>,
    from: State,
    table: usize,
    to: StateKey,
    bound: u64,
    listener: &mut L,
) -> Option<Comparison<'a>>
    requires outer { IsRelation (space_in space.now) outer.now }
    requires from { set_of outer.now.tables ≡ set_of from.tables }
    requires table { table < (space_in space.now).table_count }
    ensures { HandsOut L.hears (IsMergeWith (space_in space.now) (state_of from) table (set_of to.tables) to.order bound)
        listener.old (option_map comparison_of result) listener.new }
{
    'merges: for item in space.merges(outer, table) {
        if !outer.goes_by(from.order, item.conjunct, table) {
            continue;
        }
        let comparison = Comparison {
            step: PlanStep::Merge {
                conjunct: item.conjunct,
                path: item.path,
                sorted: item.sorted,
            },
            from: Some(from),
            to,
            cost: cost_from(from, item.cost),
            bound,
        };
        if !listener.hear(&comparison) {
            return Some(comparison);
        }
    }
    None
}
