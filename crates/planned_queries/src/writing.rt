//! What a query is planned over, written as a script.

ghost use Rattle.std.specs.Prelude.{◌<◌};

use crate::planning_script::{PlannedColumn, PlannedIndex, PlannedTable, PlanningScript};
use catalog::KeyRange;
use sqlvalue::SqlType;
use std::fmt::{self, Display, Formatter};

/// The greatest scale of a column.
const MAX_SCALE: u8 = 18;

impl Display for PlanningScript {
    fn fmt<W: fmt::Write>(&self, f: &mut Formatter<W>) -> fmt::Result {
        for table in &self.tables {
            table.fmt(f)?;
        }
        writeln!(f, "{};", self.query)
    }
}

/// Its CREATE TABLE, CREATE INDEX and SET STATISTICS, a line each.
impl Display for PlannedTable {
    fn fmt<W: fmt::Write>(&self, f: &mut Formatter<W>) -> fmt::Result {
        write!(f, "CREATE TABLE {} (", self.name)?;
        let mut separator = "";
        for column in &self.columns {
            write!(f, "{separator}{column}")?;
            separator = ", ";
        }
        f.write_str(");\n")?;
        for index in &self.indexes {
            if !index.is_left_out {
                let unique = if index.is_unique { "UNIQUE " } else { "" };
                let list = self.columns_of(&index.columns);
                writeln!(f, "CREATE {unique}INDEX ON {} {list};", self.name)?;
            }
        }
        self.write_statistics(f)
    }
}

impl PlannedTable {
    fn write_statistics<W: fmt::Write>(&self, f: &mut Formatter<W>) -> fmt::Result {
        let (name, own) = (self.name.as_str(), self.statistics);
        writeln!(
            f,
            "SET STATISTICS {name} ROWS {} PAGES {};",
            own.rows, own.pages
        )?;
        for index in &self.indexes {
            if !index.is_left_out {
                let list = self.columns_of(&index.columns);
                write!(f, "SET STATISTICS {name} {list} ")?;
                self.write_index_statistics(f, index)?;
            }
        }
        Ok(())
    }

    fn write_index_statistics<W: fmt::Write>(
        &self,
        f: &mut Formatter<W>,
        index: &PlannedIndex,
    ) -> fmt::Result {
        let own = index.statistics;
        write!(f, "KEYS {} PAGES {}", own.keys, own.pages)?;
        if own.clustered {
            f.write_str(" CLUSTERED")?;
        }
        if let (Some(range), Some(scale)) = (own.range, self.scale_of(index)) {
            write_range(f, range, scale)?;
        }
        f.write_str(";\n")
    }

    /// How many digits the keys of an index's first column have behind the point; none of texts.
    pub fn scale_of(&self, index: &PlannedIndex) -> Option<u8> {
        match self.columns.get(*index.columns.first()?)?.sql_type {
            SqlType::Smallint | SqlType::Integer => Some(0),
            SqlType::Numeric { scale, .. } => Some(scale.min(MAX_SCALE)),
            SqlType::Char { .. } => None,
        }
    }

    /// A list of columns, by their numbers, as `(ONO, QTY)`.
    pub fn columns_of<'a>(&'a self, numbers: &'a [usize]) -> ColumnNames<'a> {
        ColumnNames {
            columns: self.columns.as_slice(),
            numbers,
        }
    }
}

/// The names of some columns of a table, in parentheses.
#[derive(Clone, Copy)]
pub struct ColumnNames<'a> {
    columns: &'a [PlannedColumn],
    numbers: &'a [usize],
}

impl Display for ColumnNames<'_> {
    fn fmt<W: fmt::Write>(&self, f: &mut Formatter<W>) -> fmt::Result {
        let mut separator = "(";
        for number in self.numbers {
            if let Some(column) = self.columns.get(*number) {
                write!(f, "{separator}{}", column.name)?;
            }
            separator = ", ";
        }
        f.write_str(")")
    }
}

impl Display for PlannedColumn {
    fn fmt<W: fmt::Write>(&self, f: &mut Formatter<W>) -> fmt::Result {
        write!(f, "{} {}", self.name, self.sql_type)?;
        if self.is_nullable {
            Ok(())
        } else {
            f.write_str(" NOT NULL")
        }
    }
}

fn write_range<W: fmt::Write>(f: &mut Formatter<W>, range: KeyRange, scale: u8) -> fmt::Result {
    f.write_str(" LOW ")?;
    write_units(f, range.low, scale)?;
    f.write_str(" HIGH ")?;
    write_units(f, range.high, scale)
}

/// A number of so many units at a scale, of at most 18 digits behind the point.
fn write_units<W: fmt::Write>(f: &mut Formatter<W>, units: i128, scale: u8) -> fmt::Result {
    if units < 0 {
        f.write_str("-")?;
    }
    let (size, one) = (units.unsigned_abs(), units_of_one(scale));
    write!(f, "{}", size / one)?;
    if scale == 0 {
        return Ok(());
    }
    write!(f, ".{:0width$}", size % one, width = usize::from(scale))
}

/// How many units of a scale make one.
fn units_of_one(scale: u8) -> u128
    ensures { 0 < result }
{
    match 10_u128.checked_pow(u32::from(scale)) {
        Some(units) if units > 0 => units,
        _ => 1,
    }
}
