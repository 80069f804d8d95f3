//! The columns of one table.

ghost use Rattle.std.specs.Prelude.{◌≡◌, ◌<◌, ◌++◌, Some, OnOk, length, map, slice_get};
ghost use Rattle.definitions.specs.Binding.Scopes.{table_columns, with_name};
ghost use Rattle.query_rules.specs.ScopeRules.{found_of, resolution_of};
ghost use Rattle.query_rules.specs.Search.{with_all};

use crate::resolution::{Found, Resolution};
use catalog::Table;
use query_tree::BlockColumn;
use std::alloc::AllocError;

/// Adds the columns of the table at a place of a FROM.
pub(crate) fn push_columns<'a>(
    columns: &mut Vec<Found<'a>>,
    place: usize,
    table: &'a Table,
) -> Result<(), AllocError>
    ensures { OnOk result (map found_of columns.new.items
        ≡ map found_of columns.old.items ++ table_columns place 0 table.now.columns) }
{
    'columns: for number in 0..table.width() {
        columns.push(column_at(place, table, number))?;
    }
    Ok(())
}

/// What a name stands for, with the columns of that name in the table at a place of a FROM.
pub(crate) fn with_columns<'a>(
    mut resolution: Resolution<'a>,
    level: usize,
    place: usize,
    table: &'a Table,
    name: &str,
) -> Resolution<'a>
    ensures { resolution_of result ≡ with_all level (resolution_of resolution.entry)
        (with_name name.now (table_columns place 0 table.now.columns)) }
{
    'columns: for number in 0..table.width() {
        let column = column_at(place, table, number);
        if column.name == name {
            resolution = resolution.with(level, column);
        }
    }
    resolution
}

/// A column of the table at a place of a FROM.
fn column_at<'a>(place: usize, table: &'a Table, number: usize) -> Found<'a>
    requires { number < length table.now.columns }
    ensures { slice_get (table_columns place 0 table.now.columns) number ≡ Some (found_of result) }
{
    Found {
        column: BlockColumn {
            table: place,
            number,
        },
        sql_type: table.sql_type(number),
        name: table.column_name(number),
    }
}
