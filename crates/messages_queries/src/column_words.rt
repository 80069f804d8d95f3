//! Why a name is no column, in words.

use crate::tables_in_sight::{SeenTable, TablesInSight};
use std::fmt::{self, Formatter};
use syntax::{ColumnReference, Name};

/// Writes that no column in sight is meant, as one line without its end.
pub(crate) fn write_no_column<W: fmt::Write>(
    f: &mut Formatter<W>,
    sight: &TablesInSight,
    column: &ColumnReference,
) -> fmt::Result {
    let name = column.name.text.as_str();
    match &column.qualifier {
        Some(qualifier) => match sight.called(qualifier.text.as_str()) {
            Some(table) => write_lacking(f, sight, table, name),
            None => write_not_called(f, sight, qualifier, name),
        },
        None => match sight.only() {
            Some(table) => write!(f, "table {} has no column {name}", table.name()),
            None => write!(f, "there is no column {name}"),
        },
    }
}

/// `table CLUBS (called C) has no column NUMBER: PUPILS has it`.
fn write_lacking<W: fmt::Write>(
    f: &mut Formatter<W>,
    sight: &TablesInSight,
    table: SeenTable,
    name: &str,
) -> fmt::Result {
    write!(f, "table {table} has no column {name}")?;
    match sight.with_column(name) {
        Some(others) => write_having(f, &others),
        None => Ok(()),
    }
}

/// `: PUPILS has it`.
fn write_having<W: fmt::Write>(f: &mut Formatter<W>, others: &TablesInSight) -> fmt::Result {
    write_list(f, others)?;
    f.write_str(if others.only().is_some() {
        " has it"
    } else {
        " have it"
    })
}

/// That no table is called by a column's qualifier.
fn write_not_called<W: fmt::Write>(
    f: &mut Formatter<W>,
    sight: &TablesInSight,
    qualifier: &Name,
    name: &str,
) -> fmt::Result {
    let wanted = qualifier.text.as_str();
    write!(f, "there is no column {wanted}.{name}: ")?;
    if let Ok(named) = sight.of_table(wanted)
        && !named.is_empty()
    {
        return write_called(f, &named, wanted);
    }
    if sight.is_one_block() {
        write!(f, "this FROM has no table {wanted}")
    } else {
        write!(f, "no FROM around it has a table {wanted}")
    }
}

/// `table PUPILS is called P here`.
fn write_called<W: fmt::Write>(
    f: &mut Formatter<W>,
    named: &TablesInSight,
    wanted: &str,
) -> fmt::Result {
    write!(f, "table {wanted} is called ")?;
    named.write_called(f)?;
    f.write_str(" here")
}

/// Writes which column may have been meant as a line, where one is sure.
pub(crate) fn write_no_column_hint<W: fmt::Write>(
    f: &mut Formatter<W>,
    sight: &TablesInSight,
    column: &ColumnReference,
) -> fmt::Result {
    let name = column.name.text.as_str();
    let Some(qualifier) = &column.qualifier else {
        return write_nearest(f, sight, name);
    };
    let wanted = qualifier.text.as_str();
    if let Some(table) = sight.called(wanted) {
        return match sight.with_column(name) {
            Some(others) => write_to_write(f, &others, name),
            None => write_near_in(f, sight, table, name),
        };
    }
    let Ok(named) = sight.of_table(wanted) else {
        return Ok(());
    };
    if named.is_empty() {
        write_near_table(f, sight, wanted, name)
    } else {
        write_renamed(f, &named, name)
    }
}

/// That a name alone is no column either, where a condition is wanted: TRUE, say.
pub(crate) fn write_unknown_value_hint<W: fmt::Write>(
    f: &mut Formatter<W>,
    sight: &TablesInSight,
    column: &ColumnReference,
) -> fmt::Result {
    let name = column.name.text.as_str();
    if column.qualifier.is_some() || sight.has_column(name) {
        return Ok(());
    }
    writeln!(f, "hint: there is no column {name}")
}

/// The column of a table that isn't called by its own name here.
fn write_renamed<W: fmt::Write>(
    f: &mut Formatter<W>,
    named: &TablesInSight,
    name: &str,
) -> fmt::Result {
    match named.with_column(name) {
        Some(those) => write_to_write(f, &those, name),
        None => write_nearest_of(f, named, name),
    }
}

/// The column of the nearest name, alone where only one table is in sight.
fn write_nearest<W: fmt::Write>(
    f: &mut Formatter<W>,
    sight: &TablesInSight,
    wanted: &str,
) -> fmt::Result {
    match (sight.only(), sight.nearest_column(wanted)) {
        (Some(_), Some(near)) => writeln!(f, "hint: did you mean {near}?"),
        _ => write_nearest_of(f, sight, wanted),
    }
}

/// The column of the nearest name, behind what its table is called by.
fn write_nearest_of<W: fmt::Write>(
    f: &mut Formatter<W>,
    sight: &TablesInSight,
    wanted: &str,
) -> fmt::Result {
    let Some(near) = sight.nearest_column(wanted) else {
        return Ok(());
    };
    match sight.with_column(near) {
        Some(those) => write_columns_hint(f, "hint: did you mean ", &those, near, "?\n"),
        None => Ok(()),
    }
}

/// The column of a table whose name is nearest.
fn write_near_in<W: fmt::Write>(
    f: &mut Formatter<W>,
    sight: &TablesInSight,
    table: SeenTable,
    wanted: &str,
) -> fmt::Result {
    match sight.nearest_column_of(table, wanted) {
        Some(near) => writeln!(f, "hint: did you mean {}.{near}?", table.called()),
        None => Ok(()),
    }
}

/// The table that is called nearest to a name, if it has the column.
fn write_near_table<W: fmt::Write>(
    f: &mut Formatter<W>,
    sight: &TablesInSight,
    wanted: &str,
    name: &str,
) -> fmt::Result {
    match sight.nearest_called(wanted) {
        Some(table) if table.has_column(name) => {
            writeln!(f, "hint: did you mean {}.{name}?", table.called())
        }
        _ => Ok(()),
    }
}

fn write_to_write<W: fmt::Write>(
    f: &mut Formatter<W>,
    those: &TablesInSight,
    name: &str,
) -> fmt::Result {
    write_columns_hint(f, "hint: write ", those, name, "\n")
}

/// A hint of the columns of a name, between words.
fn write_columns_hint<W: fmt::Write>(
    f: &mut Formatter<W>,
    before: &str,
    those: &TablesInSight,
    name: &str,
    behind: &str,
) -> fmt::Result {
    f.write_str(before)?;
    those.write_columns(f, name)?;
    f.write_str(behind)
}

/// Writes that several tables have a column, as one line without its end.
pub(crate) fn write_ambiguous<W: fmt::Write>(
    f: &mut Formatter<W>,
    sight: &TablesInSight,
    name: &str,
) -> fmt::Result {
    write!(f, "more than one table has a column {name}")?;
    match sight.with_column(name) {
        Some(those) => write_list(f, &those),
        None => Ok(()),
    }
}

/// `: A and B`.
fn write_list<W: fmt::Write>(f: &mut Formatter<W>, those: &TablesInSight) -> fmt::Result {
    f.write_str(": ")?;
    those.write_tables(f)
}

/// Writes the ways to name such a column as a line.
pub(crate) fn write_ambiguous_hint<W: fmt::Write>(
    f: &mut Formatter<W>,
    sight: &TablesInSight,
    name: &str,
) -> fmt::Result {
    match sight.with_column(name) {
        Some(those) => write_to_write(f, &those, name),
        None => Ok(()),
    }
}
