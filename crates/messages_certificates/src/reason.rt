//! Why texts are refused, with the numbers that messages tell.

use crate::spelling::{SpelledPath, StateName};
use crate::words::write_reason;
use certificate_files::{Expected, Missing, Told, Version};
use std::fmt::{self, Display, Formatter};

/// Why the text of a block is refused.
#[derive(Drop)]
pub enum Reason {
    /// Reading didn't go on in a line.
    Form { expected: Expected, ending: Ending },
    Missing(Lack),
    /// A state stands behind one that it doesn't follow.
    Unordered { before: StateName, state: StateName },
    /// A state costs no less than the target.
    Great { cost: u64, target: u64 },
    /// A step leads below the bound of the state that it reaches.
    Step(LowStep),
    /// A listed state has all tables and the required order.
    Final(StateName),
    Plan(PlanFault),
    /// No more is known than what is printed.
    Plain(Told),
}

impl Display for Reason {
    /// Why the text is refused, as one line without its end.
    fn fmt<W: fmt::Write>(&self, f: &mut Formatter<W>) -> fmt::Result {
        write_reason(f, self)
    }
}

impl Reason {
    /// A hint on what no editor shows, or on whose text it is, as a line, or nothing.
    pub fn hint(&self) -> &'static str {
        match self {
            Reason::Form { ending, .. } => ending.hint(),
            Reason::Missing(lack) => match lack.missing {
                Missing::Block(_) => "",
                _ => {
                    "hint: this text names what the query doesn't have: EXPLAIN of this query prints its own text\n"
                }
            },
            _ => "",
        }
    }
}

/// What there is to say of the end of a line in which reading didn't go on.
#[derive(Clone, Copy)]
pub enum Ending {
    /// Something else than what was wanted stands there, however the line ends.
    Unremarkable,
    /// What was wanted stands there, with a carriage return before the line feed.
    CarriageReturn,
    /// What was wanted stands there, without a line feed: the text ends with it.
    Open,
    /// Nothing is left of the text.
    Nothing,
    /// The line has the number of a version that there isn't.
    OtherVersion,
}

impl Ending {
    /// A hint on the line, as a line, or nothing.
    fn hint(self) -> &'static str {
        match self {
            Ending::CarriageReturn => {
                "hint: lines end with a line feed alone, and this one with a carriage return before it\n"
            }
            Ending::Open => "hint: each line ends with a line feed, and this one has none\n",
            Ending::OtherVersion => "hint: the versions of certificates are 1, 2 and 3\n",
            Ending::Unremarkable | Ending::Nothing => "",
        }
    }
}

/// A number that isn't there.
#[derive(Clone, Copy)]
pub struct Lack {
    pub missing: Missing,
    pub version: Version,
    /// How many there are, where that is known; of sets of tables the greatest.
    pub count: Option<usize>,
}

/// A step that leads to a state for less than its bound.
#[derive(Drop)]
pub struct LowStep {
    pub step: Step,
    /// The listed state that the step begins with, and its cost.
    pub from: Option<(StateName, u64)>,
    pub to: StateName,
    pub cost: u64,
    pub bound: u64,
    pub target: u64,
}

/// A step of a plan.
#[derive(Drop)]
pub enum Step {
    Access(SpelledPath),
    Loop(SpelledPath),
    Merge {
        conjunct: usize,
        sorted: bool,
        path: SpelledPath,
    },
    Sort {
        order: usize,
    },
}

/// Why a plan doesn't meet the target.
#[derive(Drop)]
pub enum PlanFault {
    /// It is none of the plan space, since of a step that can't stand where it does, if that is known.
    Outside(Option<WrongStep>),
    /// It matches an index by more conjuncts than an index has columns.
    Long,
    /// It has not all tables.
    Partial { tables: u64, count: usize },
    /// Its rows don't come in the required order.
    Order { order: usize },
    Cost { cost: u64, target: u64 },
}

/// A step that can't stand on the plan below it, which has the tables and the order of a state.
#[derive(Drop)]
pub struct WrongStep {
    pub step: Step,
    pub on: Option<StateName>,
}
