//! Why the statistics of a table or of an index are not set.

use crate::list::{Listed, name_at, name_in_list, write_list};
use catalog::{Database, MAX_STATISTIC, RangeEnd, StatisticsFault, TableStatisticsFault};
use diagnostics::{ColumnList, StatisticsCause, TableStatisticsCause};
use messages_queries::ListLengths;
use std::fmt::{self, Display, Formatter};
use syntax::{Bound, Count, Range};

/// The byte of the script that a fault of a table's statistics is about.
pub(crate) fn offset_of_table_statistics(cause: TableStatisticsCause) -> usize {
    match cause.fault {
        TableStatisticsFault::NoTable => cause.table.start,
        TableStatisticsFault::Rows => cause.rows.start,
        TableStatisticsFault::Pages => cause.pages.start,
    }
}

pub(crate) fn write_table_statistics<W: fmt::Write>(
    f: &mut Formatter<W>,
    cause: TableStatisticsCause,
) -> fmt::Result {
    match cause.fault {
        TableStatisticsFault::NoTable => write!(f, "there is no table {}", cause.table.text),
        TableStatisticsFault::Rows => write_out_of_range(f, "ROWS", cause.rows, 0),
        TableStatisticsFault::Pages => write_out_of_range(f, "PAGES", cause.pages, 1),
    }
}

fn write_out_of_range<W: fmt::Write>(
    f: &mut Formatter<W>,
    statistic: &str,
    given: Count,
    least: u8,
) -> fmt::Result {
    let units = given.units;
    write!(
        f,
        "{statistic} can't be {units}: it is {least} to {MAX_STATISTIC}"
    )
}

/// The byte of the script that a fault of an index's statistics is about.
pub(crate) fn offset_of_statistics(cause: StatisticsCause) -> usize {
    match (cause.fault, cause.statistics.range) {
        (StatisticsFault::List(fault), _) => name_in_list(cause.list, fault).start,
        (StatisticsFault::Keys, _) => cause.statistics.keys.start,
        (StatisticsFault::Pages, _) => cause.statistics.pages.start,
        (StatisticsFault::Unfit { end }, Some(range)) => bound_at(range, end).number.start,
        (StatisticsFault::Texts | StatisticsFault::Falls, Some(range)) => range.low.number.start,
        _ => name_at(cause.list, 0).start,
    }
}

fn bound_at(range: Range, end: RangeEnd) -> Bound {
    match end {
        RangeEnd::Low => range.low,
        RangeEnd::High => range.high,
    }
}

pub(crate) fn write_statistics<W: fmt::Write>(
    f: &mut Formatter<W>,
    script: &str,
    database: &Database,
    lengths: ListLengths,
    cause: StatisticsCause,
) -> fmt::Result {
    let (list, statistics) = (cause.list, cause.statistics);
    match (cause.fault, statistics.range) {
        (StatisticsFault::List(fault), _) => write_list(f, list, lengths, fault),
        (StatisticsFault::NoIndex, _) => {
            let columns = Listed(list.columns);
            write!(f, "table {} has no index on {columns}", list.table.text)
        }
        (StatisticsFault::Keys, _) => write_out_of_range(f, "KEYS", statistics.keys, 0),
        (StatisticsFault::Pages, _) => write_out_of_range(f, "PAGES", statistics.pages, 1),
        (StatisticsFault::Texts, _) => {
            f.write_str("LOW and HIGH are numbers")?;
            write_first_type(f, database, list)
        }
        (StatisticsFault::Unfit { end }, Some(range)) => {
            let word = if end == RangeEnd::Low { "LOW" } else { "HIGH" };
            write!(
                f,
                "{word} can't be {}",
                Written(script, bound_at(range, end))
            )?;
            write_first_type(f, database, list)
        }
        (StatisticsFault::Falls, Some(Range { low, high })) => {
            let (low, high) = (Written(script, low), Written(script, high));
            write!(f, "LOW {low} is above HIGH {high}")
        }
        (StatisticsFault::Unfit { .. } | StatisticsFault::Falls, None) => Ok(()),
    }
}

/// `: A is INTEGER`, of the first column of a list.
fn write_first_type<W: fmt::Write>(
    f: &mut Formatter<W>,
    database: &Database,
    list: ColumnList,
) -> fmt::Result {
    let name = name_at(list, 0).text.as_str();
    if let Some(table) = database.table(list.table.text.as_str())
        && let Some(column) = table.column(name)
    {
        write!(f, ": {name} is {}", table.sql_type(column))?;
    }
    Ok(())
}

/// A bound as a script has it.
#[derive(Clone, Copy)]
struct Written<'a>(&'a str, Bound);

impl Display for Written<'_> {
    fn fmt<W: fmt::Write>(&self, f: &mut Formatter<W>) -> fmt::Result {
        if self.1.minus {
            f.write_str("-")?;
        }
        let behind = self.0.get(self.1.number.start..).unwrap_or("");
        f.write_str(behind.get(..number_length(behind)).unwrap_or(""))
    }
}

/// How many digits and points a text begins with.
fn number_length(text: &str) -> usize {
    for (length, byte) in text.as_bytes().iter().enumerate() {
        if !matches!(*byte, b'0'..=b'9' | b'.') {
            return length;
        }
    }
    text.len()
}
