//! EXPLAIN: a query is bound and planned, and its least plans are spelled.

ghost use Rattle.std.specs.Prelude.{◌≡◌, IfOk, IfErr};
ghost use Rattle.parse_tree.specs.Trees.{select_of};
ghost use Rattle.sqlr.specs.declared.outcome.StepFault.TheVariants as fault;
ghost use Rattle.sqlr.specs.Explaining.{Explains};

use crate::outcome::{Printed, StepFault, done, refusal_line};
use crate::progress::WatchedQuery;
use crate::sink::Sink;
use binder::{BindFault, bind};
use catalog::Database;
use diagnostics::{Cause, QueryCause};
use planner::{explain_text, plan_query, planned_notes};
use std::alloc::Global;
use syntax::Select;

/// Tells the least plans of a query's blocks, or refuses the query. A sink is told what the plans rest on.
pub(crate) fn explain<'q, S: Sink>(
    alloc: Global,
    database: &Database,
    query: &'q Select,
    sink: &S,
) -> Result<Printed<'q>, StepFault>
    ensures explains { IfOk result (Explains database.now (select_of query.now)) }
    ensures memory { IfErr result (λ f. f ≡ fault.Memory) }
{
    // A look at the tables tells what holds of a database.
    let _tables = database.tables();
    let blocks = match bind(alloc, database, query) {
        Ok(blocks) => blocks,
        Err(BindFault::Refused(fault)) => {
            let cause = QueryCause { query, fault };
            return refusal_line(alloc, fault.refusal(), Cause::Query(cause));
        }
        Err(BindFault::Memory) => return Err(StepFault::Memory),
    };
    let planned = plan_query(alloc, database, &blocks)?;
    let watch = WatchedQuery { sink, query };
    watch.tell_plans(&planned_notes(alloc, &planned), &blocks, database);
    let text = explain_text(alloc, &planned)?;
    Ok(done(text))
}
