//! A script in steps: what each prints, and what it leaves.

use crate::shelf::File;
use std::alloc::{AllocError, Global};

/// The files that the script loads.
pub(crate) static FILES: [File; 2] = [
    File {
        name: "t.csv",
        bytes: b"5,ab\n\\N,cd\n7,x\n",
    },
    File {
        name: "two.csv",
        bytes: b"1,a\n2,b\n",
    },
];

/// A statement of the script.
pub(crate) struct Step {
    pub statement: &'static str,
    pub printed: &'static str,
    /// What `LOOK` prints behind it.
    pub seen: &'static str,
}

/// A script that shows what the steps have left.
pub(crate) const LOOK: &str = "SELECT A FROM T;";

pub(crate) static STEPS: [Step; 11] = [
    Step {
        statement: "CREATE TABLE T (A INTEGER, B CHAR(3)); ",
        printed: "OK\n",
        seen: "A\n0 rows\n",
    },
    Step {
        statement: "CREATE UNIQUE INDEX ON T (A, B); ",
        printed: "OK\n",
        seen: "A\n0 rows\n",
    },
    Step {
        statement: "LOAD T FROM 'two.csv'; ",
        printed: "2 rows loaded\n",
        seen: "A\n1\n2\n2 rows\n",
    },
    Step {
        statement: "SET STATISTICS T (A, B) KEYS 9 PAGES 1; ",
        printed: "OK\n",
        seen: "A\n1\n2\n2 rows\n",
    },
    Step {
        statement: "LOAD T FROM 'two.csv'; ",
        printed: "error E12 23000 record 1\n",
        seen: "A\n1\n2\n2 rows\n",
    },
    Step {
        statement: "SELECT C FROM T; ",
        printed: "error E14 42000\n",
        seen: "A\n1\n2\n2 rows\n",
    },
    Step {
        statement: "SELECT B, A FROM T WHERE A > 1; ",
        printed: "B|A\n'b  '|2\n1 rows\n",
        seen: "A\n1\n2\n2 rows\n",
    },
    Step {
        statement: "SELECT A, COUNT(DISTINCT B) FROM T GROUP BY A; ",
        printed: "A|COL2\n1|1\n2|1\n2 rows\n",
        seen: "A\n1\n2\n2 rows\n",
    },
    Step {
        statement: "SELECT DISTINCT B FROM T; ",
        printed: "B\n'a  '\n'b  '\n2 rows\n",
        seen: "A\n1\n2\n2 rows\n",
    },
    Step {
        statement: "SELECT DISTINCT 0 - A FROM T ORDER BY 1; ",
        printed: "COL1\n-2\n-1\n2 rows\n",
        seen: "A\n1\n2\n2 rows\n",
    },
    Step {
        statement: "LOAD T FROM 't.csv';",
        printed: "3 rows loaded\n",
        seen: "A\n1\n2\n5\nNULL\n7\n5 rows\n",
    },
];

/// What `LOOK` prints behind so many steps.
pub(crate) fn seen_behind(steps: usize) -> &'static str {
    match steps.checked_sub(1) {
        Some(last) if last < STEPS.len() => STEPS[last].seen,
        _ => "error E08 42000\n",
    }
}

/// The statements of all steps.
pub(crate) fn script(alloc: Global) -> Result<String, AllocError> {
    let mut script = String::with_capacity(alloc, 256)?;
    for step in &STEPS {
        script.push_str(step.statement)?;
    }
    Ok(script)
}

/// What all steps print.
pub(crate) fn text(alloc: Global) -> Result<String, AllocError> {
    let mut text = String::with_capacity(alloc, 256)?;
    for step in &STEPS {
        text.push_str(step.printed)?;
    }
    Ok(text)
}

/// How many steps are run where the sink takes so many bytes, which is less than the text of them
/// all.
pub(crate) fn steps_run(room: usize) -> usize {
    let mut rest = room;
    for (before, step) in STEPS.iter().enumerate() {
        if rest < step.printed.len() {
            return before + 1;
        }
        rest -= step.printed.len();
    }
    STEPS.len()
}

/// How many steps have printed these bytes, if they are the whole texts of the first steps.
pub(crate) fn steps_printed(bytes: &[u8]) -> Option<usize> {
    let mut rest = bytes;
    for (before, step) in STEPS.iter().enumerate() {
        if rest.is_empty() {
            return Some(before);
        }
        rest = rest.strip_prefix(step.printed.as_bytes())?;
    }
    if rest.is_empty() {
        Some(STEPS.len())
    } else {
        None
    }
}
