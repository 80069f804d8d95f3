//! Why a query is refused.

ghost use Rattle.std.specs.Prelude.{◌≡◌};
ghost use Rattle.sqlvalue.specs.RefusalMeaning.{refusal_of};
ghost use Rattle.query_rules.specs.Meaning.{query_refusal};

use crate::scope_fault::SourceFault;
use parse_tree::{Block, ColumnReference, Expr, Key, Name, Numeral, Operand};
use sqlvalue::Refusal;
use std::alloc::{AllocError, AllocFailed};

/// A fault of a query, with the place where it is told (the sections are of ISO/IEC 9075:1992).
#[derive(Clone, Copy)]
pub enum QueryFault<'q> {
    /// The first table of FROM that is one too many (own).
    ManyTables(&'q Name),
    /// No table has the name (6.3).
    NoTable(&'q Name),
    /// Two tables of FROM have one name (6.3, syntax rule 2).
    NameTwice(&'q Name),
    /// No column in sight has the name, or several of one FROM (6.4, syntax rules 2 to 4).
    NoColumn(&'q ColumnReference),
    AmbiguousColumn(&'q ColumnReference),
    /// GROUP BY names no column of the block's own tables (7.7, syntax rule 1).
    GroupNotOwn(&'q ColumnReference),
    /// A column of a block around stands in the argument of a set function (own).
    OuterInFunction(&'q ColumnReference),
    /// A grouped block names a column outside its set functions that GROUP BY does not name (7.9, syntax rule 7).
    Ungrouped(&'q ColumnReference),
    /// A number, or a product, has more than 18 digits behind the point (own).
    GreatScale(&'q Numeral),
    GreatProduct(&'q Operand),
    /// A text stands where a number is wanted (6.5, 6.12), or a number before LIKE (8.5).
    TextForNumber(&'q Expr),
    NumberForText(&'q Expr),
    /// A number is compared with the text that stands there, or a text with the number (8.2, syntax rule 2).
    NumberWithText(&'q Expr),
    TextWithNumber(&'q Expr),
    /// A subquery that stands for values has not exactly one column (7.11, syntax rule 1).
    NotOneColumn(&'q Block),
    /// A condition stands where a value is wanted, or a value where a condition is (6.11, 8.12).
    ConditionForValue(&'q Expr),
    ValueForCondition(&'q Expr),
    /// A set function stands in WHERE or in a set function (7.6, syntax rule 1; 6.5, syntax rule 3).
    MisplacedFunction(&'q Expr),
    /// An asterisk stands in a grouped block (own).
    StarOfGroups(&'q Block),
    /// A key of ORDER BY names no result column, or several (13.1, syntax rules 3 to 5).
    UnknownKey(&'q Key),
    /// Limits (own): the first block that is one too many, and a subquery outside WHERE.
    ManyBlocks(&'q Block),
    MisplacedQuery(&'q Block),
    ManyConjuncts(&'q Expr),
    ManyMembers(&'q Expr),
    ManyItems(&'q Block),
    ManyGroups(&'q Block),
    ManyKeys(&'q Key),
}

impl QueryFault<'_> {
    /// The refusal that it is.
    pub fn refusal(self) -> Refusal
        ensures { refusal_of result ≡ query_refusal self.entry }
    {
        match self {
            QueryFault::ManyTables(_) => Refusal::ManyTables,
            QueryFault::NoTable(_) => Refusal::NotFound,
            QueryFault::NameTwice(_) => Refusal::NameTaken,
            QueryFault::NoColumn(_) | QueryFault::AmbiguousColumn(_) | QueryFault::GroupNotOwn(_) =>
                Refusal::UnknownColumn,
            QueryFault::OuterInFunction(_) | QueryFault::MisplacedFunction(_) => {
                Refusal::MisplacedFunction
            }
            QueryFault::Ungrouped(_) | QueryFault::StarOfGroups(_) => Refusal::UngroupedColumn,
            QueryFault::GreatScale(_) | QueryFault::GreatProduct(_) => Refusal::ScaleTooGreat,
            QueryFault::TextForNumber(_)
            | QueryFault::NumberForText(_)
            | QueryFault::NumberWithText(_)
            | QueryFault::TextWithNumber(_)
            | QueryFault::NotOneColumn(_) => Refusal::MixedKinds,
            QueryFault::ConditionForValue(_) | QueryFault::ValueForCondition(_) => {
                Refusal::MisplacedCondition
            }
            QueryFault::UnknownKey(_) => Refusal::UnknownKey,
            QueryFault::ManyBlocks(_)
            | QueryFault::MisplacedQuery(_)
            | QueryFault::ManyConjuncts(_)
            | QueryFault::ManyMembers(_)
            | QueryFault::ManyItems(_)
            | QueryFault::ManyGroups(_)
            | QueryFault::ManyKeys(_) => Refusal::OverQueryLimit,
        }
    }
}

/// Why a query is not bound.
#[derive(Clone, Copy)]
pub enum BindFault<'q> {
    Refused(QueryFault<'q>),
    /// Want of memory.
    Memory,
}

impl<'q> From<QueryFault<'q>> for BindFault<'q> {
    ghost use Rattle.std.specs.Prelude.{◌≡◌};
    ghost use Rattle.query_rules.specs.declared.fault.BindFault.TheVariants as bind_fault;

    ghost from_gives = { λ fault f. f ≡ bind_fault.Refused fault };

    fn from(fault: QueryFault<'q>) -> BindFault<'q> {
        BindFault::Refused(fault)
    }
}

impl<'q> From<AllocError> for BindFault<'q> {
    ghost use Rattle.std.specs.Prelude.{◌≡◌};
    ghost use Rattle.query_rules.specs.declared.fault.BindFault.TheVariants as bind_fault;

    ghost from_gives = { λ _ f. f ≡ bind_fault.Memory };

    fn from(_error: AllocError) -> BindFault<'q> {
        BindFault::Memory
    }
}

impl<'q, T: Drop> From<AllocFailed<T>> for BindFault<'q> {
    ghost use Rattle.std.specs.Prelude.{◌≡◌};
    ghost use Rattle.query_rules.specs.declared.fault.BindFault.TheVariants as bind_fault;

    ghost from_gives = { λ _ f. f ≡ bind_fault.Memory };

    fn from(_error: AllocFailed<T>) -> BindFault<'q> {
        BindFault::Memory
    }
}

impl<'q> From<SourceFault<'q>> for BindFault<'q> {
    ghost use Rattle.std.specs.Prelude.{◌≡◌};
    ghost use Rattle.query_rules.specs.SourceFaults.{source_refusal};
    ghost use Rattle.query_rules.specs.Meaning.{bind_refusal};

    ghost from_gives = { λ fault f. bind_refusal f ≡ source_refusal fault };

    fn from(fault: SourceFault<'q>) -> BindFault<'q> {
        match fault {
            SourceFault::ManyTables { beyond, .. } => {
                BindFault::Refused(QueryFault::ManyTables(beyond))
            }
            SourceFault::NoTable(name) => BindFault::Refused(QueryFault::NoTable(name)),
            SourceFault::NameTwice(name) => BindFault::Refused(QueryFault::NameTwice(name)),
            SourceFault::Memory => BindFault::Memory,
        }
    }
}
