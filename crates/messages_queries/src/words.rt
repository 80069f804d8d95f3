//! Why a query is refused, in words.

use crate::column_words::{
    write_ambiguous, write_ambiguous_hint, write_no_column, write_no_column_hint,
    write_unknown_value_hint,
};
use crate::limit_words::write_limit;
use crate::list_lengths::ListLengths;
use crate::result_columns::{is_alias, write_alias_hint, write_key_hint};
use crate::suggestions::write_near_table;
use crate::tables_in_sight::TablesInSight;
use binder::QueryFault;
use catalog::Database;
use std::alloc::Global;
use std::fmt::{self, Display, Formatter};
use syntax::{ColumnReference, Expr, Key, KeyName, Name, Select};

/// A query over a database.
#[derive(Clone, Copy)]
pub struct QueryWords<'q> {
    pub alloc: Global,
    pub database: &'q Database,
    pub query: &'q Select,
    pub lengths: ListLengths<'q>,
}

impl<'q> QueryWords<'q> {
    /// The tables in sight of a column; none where memory is wanting.
    fn sight(&self, column: &ColumnReference) -> Option<TablesInSight<'q>> {
        TablesInSight::of(self.alloc, self.database, self.query, column).ok()
    }
}

/// The name of the table that a fault finds missing, if that is what it says.
pub fn missing_table<'q>(fault: QueryFault<'q>) -> Option<&'q Name> {
    match fault {
        QueryFault::NoTable(name) => Some(name),
        _ => None,
    }
}

/// A column as it is written: `T.A`.
#[derive(Clone, Copy)]
struct Written<'a>(&'a ColumnReference);

impl Display for Written<'_> {
    fn fmt<W: fmt::Write>(&self, f: &mut Formatter<W>) -> fmt::Result {
        if let Some(qualifier) = &self.0.qualifier {
            write!(f, "{}.", qualifier.text)?;
        }
        f.write_str(self.0.name.text.as_str())
    }
}

impl QueryWords<'_> {
    /// Writes why the query is refused, as one line without its end.
    pub fn write_fault<W: fmt::Write>(
        &self,
        f: &mut Formatter<W>,
        fault: QueryFault,
    ) -> fmt::Result {
        match fault {
            QueryFault::NoTable(name) => write!(f, "there is no table {}", name.text),
            QueryFault::NameTwice(name) => {
                write!(f, "two tables of this FROM are called {}", name.text)
            }
            QueryFault::NoColumn(column) => match self.sight(column) {
                Some(sight) => write_no_column(f, &sight, column),
                None => write!(f, "there is no column {}", Written(column)),
            },
            QueryFault::AmbiguousColumn(column) => match self.sight(column) {
                Some(sight) => write_ambiguous(f, &sight, column.name.text.as_str()),
                None => write!(f, "more than one table has a column {}", Written(column)),
            },
            QueryFault::GroupNotOwn(column)
            | QueryFault::OuterInFunction(column)
            | QueryFault::Ungrouped(column) => write_misplaced(f, fault, Written(column)),
            QueryFault::UnknownKey(key) => write_unknown_key(f, key),
            fault => match unfit(fault) {
                Some(words) => f.write_str(words),
                None => write_limit(f, self.alloc, self.query, self.lengths, fault),
            },
        }
    }

    /// Writes a hint as a line, where one is sure: the name that may have been meant.
    pub fn write_hint<W: fmt::Write>(
        &self,
        f: &mut Formatter<W>,
        fault: QueryFault,
    ) -> fmt::Result {
        match fault {
            QueryFault::NoTable(name) => {
                write_near_table(f, self.alloc, self.database, name.text.as_str())
            }
            QueryFault::NoColumn(column) => self.write_column_hint(f, column),
            QueryFault::GroupNotOwn(column) => match self.sight(column) {
                Some(sight) if sight.has_column(column.name.text.as_str()) => Ok(()),
                _ => self.write_column_hint(f, column),
            },
            QueryFault::UnknownKey(key) => write_key_hint(f, self, key),
            QueryFault::AmbiguousColumn(column) => match self.sight(column) {
                Some(sight) => write_ambiguous_hint(f, &sight, column.name.text.as_str()),
                None => Ok(()),
            },
            QueryFault::ValueForCondition(Expr::Column(column)) => match self.sight(column) {
                Some(sight) => write_unknown_value_hint(f, &sight, column),
                None => Ok(()),
            },
            _ => Ok(()),
        }
    }

    /// Writes what may have been meant by a name that is no column's as a line, where one is sure.
    fn write_column_hint<W: fmt::Write>(
        &self,
        f: &mut Formatter<W>,
        column: &ColumnReference,
    ) -> fmt::Result {
        if is_alias(self, column) {
            return write_alias_hint(f, column);
        }
        match self.sight(column) {
            Some(sight) => write_no_column_hint(f, &sight, column),
            None => Ok(()),
        }
    }
}

/// That a column can't stand where it does.
fn write_misplaced<W: fmt::Write>(
    f: &mut Formatter<W>,
    fault: QueryFault,
    column: Written,
) -> fmt::Result {
    let (before, behind) = match fault {
        QueryFault::GroupNotOwn(_) => {
            ("GROUP BY takes columns of its own FROM, and ", " is none")
        }
        QueryFault::OuterInFunction(_) => {
            (
                "a set function can't take ",
                ", a column of the query around",
            )
        }
        _ => ("", " stands neither in GROUP BY nor in a set function"),
    };
    write!(f, "{before}{column}{behind}")
}

/// That a key of ORDER BY stands for no result column.
fn write_unknown_key<W: fmt::Write>(f: &mut Formatter<W>, key: &Key) -> fmt::Result {
    match &key.name {
        KeyName::Name(name) => { write!(f, "{} is not the name of one result column", name.text) }
        KeyName::Position(position) => {
            write!(f, "there is no result column number {}", position.units)
        }
    }
}

/// That something of another kind is wanted at a place.
fn unfit(fault: QueryFault) -> Option<&'static str> {
    let words = match fault {
        QueryFault::TextForNumber(_) => "a number is wanted here, and this is a string",
        QueryFault::NumberWithText(_) => "a number is compared with a string",
        QueryFault::TextWithNumber(_) => "a string is compared with a number",
        QueryFault::NumberForText(_) => "LIKE takes strings, and this is a number",
        QueryFault::NotOneColumn(_) => "a subquery that stands for values has one column",
        QueryFault::ConditionForValue(_) => "a value is wanted here, and this is a condition",
        QueryFault::ValueForCondition(_) => "a condition is wanted here, and this is a value",
        QueryFault::MisplacedFunction(_) => {
            "a set function can't stand in WHERE or in another set function"
        }
        QueryFault::StarOfGroups(_) => "a query of groups has no *",
        QueryFault::MisplacedQuery(_) => "a subquery can stand in WHERE alone",
        _ => return None,
    };
    Some(words)
}
