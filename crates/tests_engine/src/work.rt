//! The work of a session: how many rows the last SELECT that printed rows has opened.

use crate::runs::{Part, Ran, check, run};
use crate::shelf::{File, Shelf};
use sqlr::{Ended, Session};
use std::alloc::Global;

static FILES: [File; 5] = [
    File {
        name: "pairs.csv",
        bytes: b"1,10\n\\N,20\n1,30\n",
    },
    File {
        name: "others.csv",
        bytes: b"1,5\n\\N,6\n",
    },
    File {
        name: "one.csv",
        bytes: b"1\n",
    },
    File {
        name: "three.csv",
        bytes: b"1\n2\n3\n",
    },
    File {
        name: "quotients.csv",
        bytes: b"1,0\n",
    },
];

/// Two tables of three and two rows.
const PAIRS: &str = "CREATE TABLE T1 (X INTEGER, P INTEGER); CREATE TABLE T2 (Y INTEGER, Q INTEGER);
    LOAD T1 FROM 'pairs.csv'; LOAD T2 FROM 'others.csv'; ";

/// Two tables of one and three rows that are taken to be of ten each, so that both loops cost the same.
const TIE: &str = "CREATE TABLE T1 (X INTEGER); CREATE TABLE T2 (Y INTEGER);
    LOAD T1 FROM 'one.csv'; LOAD T2 FROM 'three.csv';
    SET STATISTICS T1 ROWS 10 PAGES 1; SET STATISTICS T2 ROWS 10 PAGES 1; ";

/// A table on whose row a division by zero stands.
const QUOTIENTS: &str = "CREATE TABLE R (A INTEGER, B INTEGER); LOAD R FROM 'quotients.csv'; ";

fn session<'a>(alloc: Global) -> Session<Shelf<'a>> {
    let files = &FILES;
    Session::new(alloc, Shelf { alloc, files })
}

fn ran<'a>(alloc: Global, session: &mut Session<Shelf<'a>>, script: &str) -> Ran {
    run(session, Vec::new(alloc), Part::whole(script))
}

/// What a session's work is behind a script.
pub(crate) fn work_behind<'a>(
    alloc: Global,
    session: &mut Session<Shelf<'a>>,
    script: &str,
) -> u64 {
    let _printed = ran(alloc, session, script);
    session.work()
}

/// Whether the join of the pairs prints its two rows, in either order.
fn joins_pairs<'a>(alloc: Global, session: &mut Session<Shelf<'a>>) -> bool {
    let printed = ran(alloc, session, "SELECT P, Q FROM T1, T2 WHERE X = Y;");
    printed.is(Ok(Ended::Well), "P|Q\n10|5\n30|5\n2 rows\n")
        || printed.is(Ok(Ended::Well), "P|Q\n30|5\n10|5\n2 rows\n")
}

/// Whether the rows that a join opens are counted. The loop that begins with T2 costs 34, that from T1 46 and each merge 71: two rows of T2
/// are opened, and for each the three of T1.
pub(crate) fn joined_rows_are_counted(alloc: Global) -> bool {
    let mut session = session(alloc);
    counts_joined_rows(alloc, &mut session)
}

fn counts_joined_rows<'a>(alloc: Global, session: &mut Session<Shelf<'a>>) -> bool {
    session.work() == 0
        && work_behind(alloc, session, PAIRS) == 0
        && joins_pairs(alloc, session)
        && session.work() == 8
}

/// Whether the plan that EXPLAIN prints of the tie begins with its first table.
fn begins_with_first<'a>(alloc: Global, session: &mut Session<Shelf<'a>>) -> Option<bool> {
    let told = ran(alloc, session, "EXPLAIN SELECT X, Y FROM T1, T2;");
    let text = str::from_utf8(&told.printed).ok()?;
    if text.contains("\nTARGET 220\n") {
        Some(text.contains("\nPLAN LOOP(ACCESS(SEG 1)"))
    } else {
        None
    }
}

/// Whether the work is that of the plan that EXPLAIN prints: one row of T1 and for it three of T2, or three of T2 and for each the one of T1.
pub(crate) fn work_is_that_of_the_plan_that_explain_prints(alloc: Global) -> bool {
    let mut session = session(alloc);
    works_as_explained(alloc, &mut session)
}

fn works_as_explained<'a>(alloc: Global, session: &mut Session<Shelf<'a>>) -> bool {
    let made = work_behind(alloc, session, TIE);
    let opened = match begins_with_first(alloc, session) {
        Some(true) => 4,
        Some(false) => 6,
        None => return false,
    };
    made == 0 && work_behind(alloc, session, "SELECT X, Y FROM T1, T2;") == opened
}

/// Whether what prints no rows leaves a work of 8 as it is: an exception, a refusal, EXPLAIN and a check.
fn leaves_work<'a>(alloc: Global, session: &mut Session<Shelf<'a>>) -> bool {
    let raised = ran(alloc, session, "SELECT A / B FROM R;");
    let behind_raise = session.work();
    let behind_refusal = work_behind(alloc, session, "SELECT Z FROM R;");
    let behind_explain = work_behind(alloc, session, "EXPLAIN SELECT A FROM R;");
    let last = Part::whole("SELECT A FROM R;");
    let _checked = check(session, Vec::new(alloc), last, b"");
    raised.end == Ok(Ended::Faulted)
        && behind_raise == 8
        && behind_refusal == 8
        && behind_explain == 8
        && session.work() == 8
}

pub(crate) fn work_stays_where_no_rows_are_printed(alloc: Global) -> bool {
    let mut session = session(alloc);
    keeps_work(alloc, &mut session)
}

fn keeps_work<'a>(alloc: Global, session: &mut Session<Shelf<'a>>) -> bool {
    work_behind(alloc, session, PAIRS) == 0
        && work_behind(alloc, session, QUOTIENTS) == 0
        && joins_pairs(alloc, session)
        && leaves_work(alloc, session)
        && work_behind(alloc, session, "SELECT A FROM R WHERE A > B;") == 1
}
