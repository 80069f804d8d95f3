//! Checks the certificates of a query's blocks.

ghost use Rattle.std.specs.Prelude.{◌≡◌, IfOk, map, option_map};
ghost use Rattle.definitions.specs.Binding.Faults.{Binds};
ghost use Rattle.definitions_execution.specs.CheckingRun as run;
ghost use Rattle.parse_tree.specs.Trees.{select_of, statement_of};
ghost use Rattle.query_tree.specs.Bound.{block_of};
ghost use Rattle.sqlr.specs.Checking.{IsBound, IsChecked, end_of_file};

use crate::ended::Ended;
use crate::outcome::{Printed, StepFault, refusal_line};
use binder::{BindFault, bind};
use catalog::Database;
use certificate_files::{FileEnded, check_file};
use diagnostics::{Cause, CheckedFile, QueryCause};
use query_tree::Block;
use std::alloc::{AllocError, Global};
use syntax::{Select, Statement};

/// What comes of a query whose certificates are to be checked.
pub(crate) enum Bound<'a> {
    /// The query is refused.
    Refused(Printed<'a>),
    Blocks(Vec<Block>),
}

/// The blocks of a query, or what it is refused for.
pub(crate) fn bind_query<'a>(
    alloc: Global,
    database: &Database,
    query: &'a Select,
) -> Result<Bound<'a>, StepFault>
    ensures bound { IfOk result (IsBound database.now (select_of query.entry.now)) }
{
    // A look at the tables tells what holds of a database.
    let _tables = database.tables();
    match bind(alloc, database, query) {
        Ok(blocks) => Ok(Bound::Blocks(blocks)),
        Err(BindFault::Refused(fault)) => {
            let cause = QueryCause { query, fault };
            let printed = refusal_line(alloc, fault.refusal(), Cause::Query(cause))?;
            Ok(Bound::Refused(printed))
        }
        Err(BindFault::Memory) => Err(StepFault::Memory),
    }
}

/// Checks a file of certificates against the blocks of a query.
pub(crate) fn check_blocks<'a>(
    alloc: Global,
    database: &'a Database,
    query: &'a Select,
    blocks: &'a [Block],
    file: &'a [u8],
) -> Result<CheckedFile<'a>, AllocError>
    requires { Binds database.now (select_of query.now) (map block_of blocks.now) }
    ensures { IfOk result (IsChecked database.now (select_of query.now) file.now) }
{
    // A look at the tables tells what holds of a database.
    let _tables = database.tables();
    let told = check_file(alloc, database, blocks, file)?;
    Ok(CheckedFile {
        file,
        query,
        blocks,
        told,
    })
}

/// The query of a SELECT or of an EXPLAIN, whose blocks can be checked (own).
pub(crate) fn query_of(statement: &Statement) -> Option<&Select>
    ensures { option_map (λ q. select_of q.now) result ≡ run.asked (statement_of statement.now) }
{
    match statement {
        Statement::Query(query) | Statement::Explain(query) => Some(query),
        _ => None,
    }
}

/// How a run ends whose last query's certificates are checked.
pub(crate) fn end_of(ended: FileEnded) -> Ended
    ensures { result ≡ end_of_file ended }
{
    match ended {
        FileEnded::Well => Ended::Well,
        FileEnded::Refused => Ended::Refused,
    }
}
