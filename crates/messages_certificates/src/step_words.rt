//! Steps that lead below a bound, in words.

use crate::reason::{LowStep, Step, WrongStep};
use crate::spelling::from_one;
use std::fmt::{self, Formatter};

/// `a loop over SEG 2 leads from table 1 in order 0 for 200 to tables 1 and 2 in order 0 for 110200, less than its bound 120000`.
pub(crate) fn write_step<W: fmt::Write>(f: &mut Formatter<W>, low: &LowStep) -> fmt::Result {
    if let Some((state, cost)) = &low.from {
        write!(f, "from {state} for {cost} ")?;
    }
    write_kind(f, &low.step)?;
    let (than, behind) = if low.bound == low.target {
        ("the target", ", which is its bound as it isn't listed")
    } else {
        ("its bound", "")
    };
    write!(
        f,
        " leads to {} for {}, less than {than} {}{behind}",
        low.to, low.cost, low.bound
    )
}

/// `: a sort into order 2 can't stand on table 1 in order 0`.
pub(crate) fn write_wrong<W: fmt::Write>(f: &mut Formatter<W>, wrong: &WrongStep) -> fmt::Result {
    f.write_str(": ")?;
    write_kind(f, &wrong.step)?;
    match wrong.on {
        Some(below) => write!(f, " can't stand on {below}"),
        None => f.write_str(" is none of the block"),
    }
}

/// `a loop over SEG 2`.
fn write_kind<W: fmt::Write>(f: &mut Formatter<W>, step: &Step) -> fmt::Result {
    match step {
        Step::Access(path) => write!(f, "the access {path}"),
        Step::Loop(path) => write!(f, "a loop over {path}"),
        Step::Merge {
            conjunct,
            sorted,
            path,
        } => {
            let sorted = if *sorted { "SORTED " } else { "" };
            let conjunct = from_one(*conjunct);
            write!(f, "a merge by conjunct {conjunct} with {sorted}{path}")
        }
        Step::Sort { order } => write!(f, "a sort into order {order}"),
    }
}
