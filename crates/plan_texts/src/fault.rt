//! Why a text is no plan.

use crate::form_words::form_problem;
use certificate::{Missing, TextFault};
use std::alloc::{AllocError, AllocFailed};
use std::fmt::{self, Display, Formatter};

/// Why a text is no plan of a block.
#[derive(Clone, Copy)]
pub enum PlanTextFault {
    /// Of a plan by names.
    Names(NameProblem),
    /// In EXPLAIN's spelling. A place that it tells is of the text of a whole certificate.
    Spelling(TextFault),
    /// In EXPLAIN's spelling an index is matched by more conjuncts than an index has columns.
    LongMatch,
    /// Out of memory.
    Memory,
}

/// What is wrong with a plan by names.
#[derive(Clone, Copy)]
pub enum NameProblem {
    /// This was looked for.
    Expected(Expectation),
    /// No table of the block is called so.
    NoTable,
    /// No column of the table, or of the tables of the block, is called so.
    NoColumn,
    /// More than one table of the block has a column that is called so.
    AmbiguousColumn,
    /// No index of the table is on these columns.
    NoIndex,
    /// The block has so many conjuncts, and none of this number.
    NoConjunct { count: usize },
    /// A match has more conjuncts than an index has columns.
    ManyConjuncts,
    /// No numbered order of the block goes by these columns.
    NoOrder,
    /// No path of the table that fits is in the plan space.
    NoPath,
    /// No merge that fits brings the table.
    NoMerge,
}

/// What a plan by names was to go on with.
#[derive(Clone, Copy)]
pub enum Expectation {
    Access,
    Table,
    Of,
    Column,
    ColumnOfTable,
    List,
    ListEnd,
    ConjunctNumber,
    By,
    /// A join, or the end of the text.
    JoinOrEnd,
    /// A join, or the parenthesis that closes a sort.
    JoinOrClose,
}

impl From<AllocError> for PlanTextFault {
    fn from(_error: AllocError) -> PlanTextFault {
        PlanTextFault::Memory
    }
}

impl<T: Drop> From<AllocFailed<T>> for PlanTextFault {
    fn from(_error: AllocFailed<T>) -> PlanTextFault {
        PlanTextFault::Memory
    }
}

impl Display for PlanTextFault {
    /// The fault as one line without its end.
    fn fmt<W: fmt::Write>(&self, f: &mut Formatter<W>) -> fmt::Result {
        match self {
            PlanTextFault::Names(problem) => write_problem(f, *problem),
            PlanTextFault::Spelling(fault) => write_spelling_fault(f, *fault),
            PlanTextFault::LongMatch => f.write_str(MANY_CONJUNCTS),
            PlanTextFault::Memory => f.write_str("out of memory"),
        }
    }
}

const MANY_CONJUNCTS: &str = "an index has at most 4 columns, and more conjuncts are to match one";

/// What is wrong with a plan in EXPLAIN's spelling.
fn write_spelling_fault<W: fmt::Write>(f: &mut Formatter<W>, fault: TextFault) -> fmt::Result {
    match fault {
        TextFault::Form { expected, .. } => f.write_str(form_problem(expected)),
        TextFault::Missing(missing) => write_missing(f, missing),
        TextFault::States(_) | TextFault::Memory => f.write_str(NO_SPELLING),
    }
}

const NO_SPELLING: &str = "this is no plan in EXPLAIN's spelling";

fn write_missing<W: fmt::Write>(f: &mut Formatter<W>, missing: Missing) -> fmt::Result {
    match missing {
        Missing::Table(table) => write!(f, "there is no table {table}"),
        Missing::Index { table, index } => write!(f, "table {table} has no index {index}"),
        Missing::Conjunct(number) => write!(f, "there is no conjunct {number}"),
        Missing::Order(order) => write!(f, "there is no order {order}"),
        Missing::Block(_) | Missing::StateTables { .. } | Missing::StateOrder { .. } => {
            f.write_str(NO_SPELLING)
        }
    }
}

fn write_problem<W: fmt::Write>(f: &mut Formatter<W>, problem: NameProblem) -> fmt::Result {
    match problem {
        NameProblem::Expected(expectation) => write!(f, "expected {}", words_of(expectation)),
        NameProblem::NoConjunct { count } => write!(f, "the block has {count} conjuncts"),
        plain => f.write_str(plain_words(plain)),
    }
}

fn plain_words(problem: NameProblem) -> &'static str {
    match problem {
        NameProblem::Expected(_) => "expected something else",
        NameProblem::NoTable => "no table of the block is called so",
        NameProblem::NoColumn => "there is no such column",
        NameProblem::AmbiguousColumn => {
            "more than one table has a column of that name: write it behind its table and a point"
        }
        NameProblem::NoIndex => "the table has no index on these columns",
        NameProblem::NoConjunct { .. } => "there is no such conjunct",
        NameProblem::ManyConjuncts => MANY_CONJUNCTS,
        NameProblem::NoOrder => {
            "no plan of the block sorts so: a sort goes by the order asked for, by the columns of an index or by a column of a merge"
        }
        NameProblem::NoPath => "the plan space has no such path of the table here",
        NameProblem::NoMerge => {
            "the plan space has no such merge here: it goes by a conjunct column = column of the table and of one before"
        }
    }
}

fn words_of(expectation: Expectation) -> &'static str {
    match expectation {
        Expectation::Access => "a table, or sort (",
        Expectation::Table => "a table",
        Expectation::Of => "of and a table",
        Expectation::Column => "a column",
        Expectation::ColumnOfTable => "a column of the table",
        Expectation::List => "\"(\" and the columns of an index",
        Expectation::ListEnd => "\",\" or \")\"",
        Expectation::ConjunctNumber => "the number of a conjunct",
        Expectation::By => "by and the columns of an order",
        Expectation::JoinOrEnd => "loop, merge or the end of the plan",
        Expectation::JoinOrClose => "loop, merge or \")\"",
    }
}
