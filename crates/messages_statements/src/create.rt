//! Why a table is not made.

use catalog::{CreateFault, MAX_COLUMNS, MAX_INDEXES, MAX_TABLES};
use messages_queries::ListLengths;
use sqlvalue::{MAX_LENGTH, MAX_PRECISION, TypeFault};
use std::fmt::{self, Formatter};
use syntax::{ColumnDefinition, Constraint, ListKind, Name};

/// The name that a fault of CREATE TABLE is about.
pub(crate) fn name_at_fault<'a>(
    name: &'a Name,
    columns: &'a [ColumnDefinition],
    fault: CreateFault,
) -> &'a Name {
    match fault {
        CreateFault::ColumnTwice { column }
        | CreateFault::TwoPrimaryKeys { column }
        | CreateFault::Type { column, .. } => match columns.get(column) {
            Some(definition) => &definition.name,
            None => name,
        },
        _ => name,
    }
}

pub(crate) fn write_create<W: fmt::Write>(
    f: &mut Formatter<W>,
    name: &Name,
    columns: &[ColumnDefinition],
    lengths: ListLengths,
    fault: CreateFault,
) -> fmt::Result {
    let at_fault = name_at_fault(name, columns, fault).text.as_str();
    match fault {
        CreateFault::TableTaken => write!(f, "there is a table {at_fault} already"),
        CreateFault::ColumnTwice { .. } => write!(f, "there are two columns {at_fault}"),
        CreateFault::ManyTables => write!(f, "a database has at most {MAX_TABLES} tables"),
        CreateFault::ManyColumns => write!(
            f,
            "a table has at most {MAX_COLUMNS} columns, and this one has {}",
            lengths.written(ListKind::Columns, name.start, columns.len())
        ),
        CreateFault::ManyKeys => write!(
            f,
            "a table has at most {MAX_INDEXES} indexes, and this one has {} columns that are UNIQUE or PRIMARY KEY",
            count_keys(columns)
        ),
        CreateFault::TwoPrimaryKeys { .. } => {
            write!(f, "{at_fault} can't be PRIMARY KEY: ")?;
            write_first_primary(f, columns)
        }
        CreateFault::Type { column, fault } => match columns.get(column) {
            Some(definition) => write_type(f, definition, fault),
            None => Ok(()),
        },
        CreateFault::Memory => Ok(()),
    }
}

/// `A is it already`.
fn write_first_primary<W: fmt::Write>(
    f: &mut Formatter<W>,
    columns: &[ColumnDefinition],
) -> fmt::Result {
    for column in columns {
        if matches!(column.constraint, Constraint::PrimaryKey) {
            return write!(f, "{} is it already", column.name.text);
        }
    }
    Ok(())
}

/// How many columns are UNIQUE or PRIMARY KEY.
fn count_keys(columns: &[ColumnDefinition]) -> usize {
    let mut count: usize = 0;
    for column in columns {
        if matches!(
            column.constraint,
            Constraint::Unique | Constraint::PrimaryKey
        ) {
            count = count.saturating_add(1);
        }
    }
    count
}

fn write_type<W: fmt::Write>(
    f: &mut Formatter<W>,
    definition: &ColumnDefinition,
    fault: TypeFault,
) -> fmt::Result {
    let (name, declared) = (definition.name.text.as_str(), definition.declared);
    write!(f, "{name} can't be {declared}: ")?;
    match fault {
        TypeFault::Precision => write!(f, "a precision is 1 to {MAX_PRECISION}"),
        TypeFault::Scale => f.write_str("a scale is at most the precision"),
        TypeFault::Length => write!(f, "a length is 1 to {MAX_LENGTH}"),
    }
}
