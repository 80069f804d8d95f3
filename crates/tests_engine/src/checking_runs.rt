//! What a checking run leaves in its session.

use crate::runs::{Part, check, run};
use crate::shelf::Shelf;
use sqlr::{Ended, Session};
use std::alloc::Global;

/// A checking run that is refused at its second statement.
const REFUSED: &str =
    "CREATE TABLE U (X INTEGER); CREATE TABLE U (X INTEGER); CREATE TABLE V (X INTEGER); SELECT X FROM U;";

/// Whether a checking run that ends at a refusal leaves what the statements before it made, and nothing of those behind it.
pub(crate) fn refused_checking_run_keeps_what_was_made(alloc: Global) -> bool {
    let files = &[];
    let mut session = Session::new(alloc, Shelf { alloc, files });
    let refused = check(&mut session, Vec::new(alloc), Part::whole(REFUSED), b"");
    let look = run(
        &mut session,
        Vec::new(alloc),
        Part::whole("SELECT X FROM U; SELECT X FROM V;"),
    );
    refused.is(Ok(Ended::Faulted), "error E07 42000\n")
        && look.is(Ok(Ended::Faulted), "X\n0 rows\nerror E08 42000\n")
}
