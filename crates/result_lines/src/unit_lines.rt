//! Lines of rows that have only the number of a column.

ghost use Rattle.std.specs.Prelude.{◌≡◌, ◌≤◌, ◌^◌, ◌∷◌, [], ◌++◌, OnOk, flat_map, length, map};
ghost use Rattle.definitions.specs.Printing.{row_line};
ghost use Rattle.definitions.specs.Value.{IsType, scale_of};
ghost use Rattle.sqlvalue.specs.Meaning.{type_of};
ghost use Rattle.columns.specs.Cells.{number_or_null};
ghost use Rattle.columns.specs.Starts.{value_in};
ghost use Rattle.result_lines.specs.Batches.{rows_of_column, rows_of_units};

use crate::printed_field::write_number;
use columns::NumberColumn;
use sqlvalue::SqlType;
use std::alloc::AllocError;

/// How many rows' numbers are read before the first of them is printed: so many reads wait for memory side by side (own).
const PART_ROWS: usize = 64;

/// A line for each of some rows of a column.
pub(crate) fn write_column(
    out: &mut Vec<u8>,
    numbers: &NumberColumn,
    rows: &[u32],
) -> Result<(), AllocError>
    ensures { OnOk result (out.new.items ≡ out.old.items ++ flat_map row_line (rows_of_column numbers.now rows.now)) }
{
    let mut rest = rows;
    'parts: while !rest.is_empty() {
        let (part, behind) = rest.split_at(rest.len().min(PART_ROWS));
        write_part(out, numbers, part)?;
        rest = behind;
    }
    Ok(())
}

/// The same for no more rows than are read at a time.
fn write_part(out: &mut Vec<u8>, numbers: &NumberColumn, rows: &[u32]) -> Result<(), AllocError>
    requires { length rows.now ≤ 64 }
    ensures { OnOk result (out.new.items ≡ out.old.items ++ flat_map row_line (rows_of_column numbers.now rows.now)) }
{
    let mut room = [None; PART_ROWS];
    let units = &mut room[..rows.len()];
    read_units(units, numbers, rows);
    write_lines(out, units, numbers.sql_type())
}

/// Reads the units in some rows of a column.
fn read_units(units: &mut [Option<i64>], numbers: &NumberColumn, rows: &[u32])
    requires { length units.old ≡ length rows.now }
    ensures { map (number_or_null numbers.now.type) units.new ≡ map (value_in numbers.now) rows.now }
{
    'rows: for i in 0..rows.len() {
        units[i] = numbers.units_in(rows[i] as usize);
    }
}

/// A line for each of some units of a type.
fn write_lines(
    out: &mut Vec<u8>,
    units: &[Option<i64>],
    sql_type: SqlType,
) -> Result<(), AllocError>
    requires { IsType (type_of sql_type) }
    ensures { OnOk result (out.new.items
        ≡ out.old.items ++ flat_map row_line (rows_of_units (type_of sql_type) units.now)) }
{
    let one = 10u64.pow(u32::from(sql_type.scale()));
    'units: for unit in units {
        write_line(out, *unit, sql_type, one)?;
    }
    Ok(())
}

/// The line of units of a type, of which so many are one, or of null.
fn write_line(
    out: &mut Vec<u8>,
    units: Option<i64>,
    sql_type: SqlType,
    one: u64,
) -> Result<(), AllocError>
    requires { one ≡ 10 ^ scale_of (type_of sql_type) }
    ensures { OnOk result (out.new.items ≡ out.old.items ++ row_line (number_or_null (type_of sql_type) units ∷ [])) }
{
    match units {
        Some(units) => write_number(out, units, sql_type.scale(), one)?,
        None => out.extend_from_slice(b"NULL")?,
    }
    out.push(b'\n')?;
    Ok(())
}
