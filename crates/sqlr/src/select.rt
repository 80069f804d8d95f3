//! SELECT: a query is bound, planned and answered.

ghost use Rattle.std.specs.Prelude.{◌≡◌, IfOk, IfErr};
ghost use Rattle.parse_tree.specs.Trees.{select_of};
ghost use Rattle.sqlr.specs.declared.outcome.StepFault.TheVariants as fault;
ghost use Rattle.sqlr.specs.Selecting.{Answers};

use crate::outcome::{Printed, StepFault, done, exception_line, refusal_line};
use crate::progress::WatchedQuery;
use crate::sink::Sink;
use binder::{BindFault, bind};
use catalog::Database;
use diagnostics::{Cause, QueryCause};
use executor::{AnswerFault, answer_text};
use planner::{least_plans, plan_notes};
use std::alloc::Global;
use syntax::Select;

/// Answers a query by least plans of its blocks, or refuses it. A sink is told of the plans and how far it is.
pub(crate) fn select<'q, S: Sink>(
    alloc: Global,
    database: &Database,
    query: &'q Select,
    sink: &S,
) -> Result<Printed<'q>, StepFault>
    ensures answers { IfOk result (Answers database.now (select_of query.now)) }
    ensures memory { IfErr result (λ f. f ≡ fault.Memory) }
{
    // A look at the tables tells what holds of a database.
    let _tables = database.tables();
    let blocks = match bind(alloc, database, query) {
        Ok(blocks) => blocks,
        Err(BindFault::Refused(fault)) => {
            let cause = QueryCause { query, fault };
            return refusal_line(alloc, fault.refusal(), Cause::Query(cause));
        }
        Err(BindFault::Memory) => return Err(StepFault::Memory),
    };
    let plans = least_plans(alloc, database, &blocks)?;
    let watch = WatchedQuery { sink, query };
    watch.tell_plans(&plan_notes(alloc, &plans), &blocks, database);
    match answer_text(alloc, database, &blocks, plans, &watch) {
        Ok((text, work)) => Ok(Printed {
            work: Some(work),
            ..done(text)
        }),
        Err(AnswerFault::Raised(raise)) => exception_line(alloc, raise),
        Err(AnswerFault::Memory) => Err(StepFault::Memory),
    }
}
