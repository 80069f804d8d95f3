//! The work of SELECTs with subqueries: the rows that the plans of all blocks open, an inner block's as often as the definition evaluates
//! it, whether a result is kept or not. By hand: a scan opens all rows of its table, 4 of each here; a match those of its key; and
//! subqueries are evaluated on each row that passes the other conjuncts.

use crate::shelf::{File, Shelf};
use crate::work::work_behind;
use sqlr::Session;
use std::alloc::Global;

static FILES: [File; 4] = [
    File {
        name: "clubs.csv",
        bytes: b"1,chess\n2,golf\n3,judo\n4,polo\n",
    },
    File {
        name: "members.csv",
        bytes: b"1,10,ann\n1,20,bob\n2,15,cy\n3,\\N,di\n",
    },
    File {
        name: "outer.csv",
        bytes: b"1,2\n2,2\n3,4\n4,9\n",
    },
    File {
        name: "inner.csv",
        bytes: b"1\n1\n2\n3\n",
    },
];

/// A script, and the session's work behind it.
struct Row {
    script: &'static str,
    work: u64,
}

static CLUBS: [Row; 12] = [
    Row {
        script: "CREATE TABLE CLUBS (ID INTEGER, NAME CHAR(8)); CREATE TABLE MEMBERS (CLUB INTEGER, AGE INTEGER, NAME CHAR(4));
            LOAD CLUBS FROM 'clubs.csv'; LOAD MEMBERS FROM 'members.csv';",
        work: 0,
    },
    Row {
        script: "SELECT ID FROM CLUBS;",
        work: 4,
    },
    Row {
        script: "SELECT ID FROM CLUBS WHERE EXISTS (SELECT * FROM MEMBERS WHERE CLUB = ID);",
        work: 20,
    },
    Row {
        script: "SELECT ID FROM CLUBS WHERE ID > 2 AND EXISTS (SELECT * FROM MEMBERS WHERE CLUB = ID);",
        work: 12,
    },
    Row {
        script: "SELECT ID FROM CLUBS WHERE ID > 9 AND EXISTS (SELECT * FROM MEMBERS WHERE CLUB = ID);",
        work: 4,
    },
    Row {
        script: "SELECT ID FROM CLUBS WHERE ID IN (SELECT CLUB FROM MEMBERS);",
        work: 20,
    },
    Row {
        script: "SELECT NAME FROM MEMBERS WHERE EXISTS (SELECT * FROM CLUBS WHERE ID = CLUB AND ID > 1);",
        work: 20,
    },
    Row {
        script: "SELECT ID FROM CLUBS WHERE ID = (SELECT MIN(CLUB) FROM MEMBERS) OR ID = (SELECT MAX(CLUB) FROM MEMBERS);",
        work: 36,
    },
    Row {
        script: "SELECT ID FROM CLUBS C WHERE EXISTS (SELECT 1 FROM MEMBERS M WHERE M.CLUB = C.ID
            AND M.AGE > ALL (SELECT N.AGE FROM MEMBERS N WHERE N.CLUB = C.ID AND N.NAME <> M.NAME));",
        work: 36,
    },
    // It raises 21000, and so it leaves the work as it was.
    Row {
        script: "SELECT ID FROM CLUBS WHERE ID = (SELECT CLUB FROM MEMBERS WHERE CLUB = ID);",
        work: 36,
    },
    Row {
        script: "SELECT ID FROM CLUBS WHERE ID IN (SELECT CLUB FROM MEMBERS WHERE CLUB IN (SELECT ID FROM CLUBS));",
        work: 84,
    },
    Row {
        script: "CREATE INDEX ON MEMBERS (CLUB); SET STATISTICS MEMBERS ROWS 1000 PAGES 50; SET STATISTICS MEMBERS (CLUB) KEYS 1000 PAGES 5;
            SELECT ID FROM CLUBS WHERE EXISTS (SELECT * FROM MEMBERS WHERE CLUB = ID);",
        work: 8,
    },
];

/// An index that a parameter matches by =, < and BETWEEN: 4 rows of O, and for each the rows of T with such keys.
static MATCHES: [Row; 4] = [
    Row {
        script: "CREATE TABLE O (X INTEGER, Y INTEGER); CREATE TABLE T (A INTEGER); CREATE INDEX ON T (A);
            LOAD O FROM 'outer.csv'; LOAD T FROM 'inner.csv'; SET STATISTICS T ROWS 1000 PAGES 50; SET STATISTICS T (A) KEYS 100 PAGES 5;",
        work: 0,
    },
    Row {
        script: "SELECT X FROM O WHERE EXISTS (SELECT * FROM T WHERE A = X);",
        work: 8,
    },
    Row {
        script: "SELECT X FROM O WHERE EXISTS (SELECT * FROM T WHERE A < X);",
        work: 13,
    },
    Row {
        script: "SELECT X FROM O WHERE EXISTS (SELECT * FROM T WHERE A BETWEEN X AND Y);",
        work: 9,
    },
];

/// Whether a session's work is each row's behind its script.
fn are_worked(alloc: Global, rows: &[Row]) -> bool {
    let files = &FILES;
    let mut session = Session::new(alloc, Shelf { alloc, files });
    are_worked_in(alloc, &mut session, rows)
}

fn are_worked_in<'a>(alloc: Global, session: &mut Session<Shelf<'a>>, rows: &[Row]) -> bool {
    for row in rows {
        if work_behind(alloc, session, row.script) != row.work {
            return false;
        }
    }
    true
}

pub(crate) fn inner_blocks_count_as_often_as_they_are_evaluated(alloc: Global) -> bool {
    are_worked(alloc, &CLUBS)
}

pub(crate) fn matches_open_the_rows_of_their_keys(alloc: Global) -> bool {
    are_worked(alloc, &MATCHES)
}
