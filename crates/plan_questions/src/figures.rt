//! Statistics by name, and their values.

use catalog::{IndexStatistics, KeyRange};
use plan_views::{PlannedIndex, PlannedTable, PlanningScript, ViewFault};
use std::alloc::{AllocError, Global};
use std::mem;

/// A statistic of a table or of one of its indexes, by their numbers.
#[derive(Clone, Copy)]
pub(crate) struct Figure {
    table: usize,
    /// None of the table's own.
    index: Option<usize>,
    kind: FigureKind,
    /// How many digits its values have behind their point.
    scale: u8,
}

#[derive(Clone, Copy, PartialEq)]
enum FigureKind {
    Rows,
    Pages,
    Keys,
    Low,
    High,
}

impl FigureKind {
    fn of_table(word: &str) -> Option<FigureKind> {
        match word {
            "ROWS" => Some(FigureKind::Rows),
            "PAGES" => Some(FigureKind::Pages),
            _ => None,
        }
    }

    fn of_index(word: &str) -> Option<FigureKind> {
        match word {
            "KEYS" => Some(FigureKind::Keys),
            "PAGES" => Some(FigureKind::Pages),
            "LOW" => Some(FigureKind::Low),
            "HIGH" => Some(FigureKind::High),
            _ => None,
        }
    }

    /// Whether it is a bound of keys, which has the scale of their column.
    fn is_bound(self) -> bool {
        matches!(self, FigureKind::Low | FigureKind::High)
    }
}

impl Figure {
    /// Sets the statistic to a value in units of its scale, and gives what it was.
    pub fn exchange(self, script: &mut PlanningScript, value: i128) -> i128 {
        let Some(table) = script.tables.get_mut(self.table) else {
            return value;
        };
        match self.index {
            Some(index) => match table.indexes.get_mut(index) {
                Some(index) => exchange_of_index(&mut index.statistics, self.kind, value),
                None => value,
            },
            None => {
                let own = &mut table.statistics;
                match self.kind {
                    FigureKind::Rows => exchange_count(&mut own.rows, value),
                    _ => exchange_count(&mut own.pages, value),
                }
            }
        }
    }
}

fn exchange_of_index(own: &mut IndexStatistics, kind: FigureKind, value: i128) -> i128 {
    match kind {
        FigureKind::Keys => exchange_count(&mut own.keys, value),
        FigureKind::Pages | FigureKind::Rows => exchange_count(&mut own.pages, value),
        FigureKind::Low | FigureKind::High => match &mut own.range {
            Some(KeyRange { low, .. }) if kind == FigureKind::Low => mem::replace(low, value),
            Some(KeyRange { high, .. }) => mem::replace(high, value),
            None => value,
        },
    }
}

/// Sets a count, which no value below zero is read for.
fn exchange_count(count: &mut u64, value: i128) -> i128 {
    let before = *count;
    *count = u64::try_from(value).unwrap_or(before);
    i128::from(before)
}

/// The value of a statistic as it is written, in units of its scale.
///
/// # Errors
/// It is no such value.
pub(crate) fn read_value(
    alloc: Global,
    script: &PlanningScript,
    figure: Figure,
    text: &str,
) -> Result<i128, ViewFault> {
    match units_of(text, figure.scale) {
        Some(units) if units >= 0 || figure.kind.is_bound() => Ok(units),
        _ => Err(ViewFault::Refused(value_words(alloc, script, figure, text)?)),
    }
}

/// What a value of a statistic has to be, in place of a text that is none.
fn value_words(
    alloc: Global,
    script: &PlanningScript,
    figure: Figure,
    text: &str,
) -> Result<String, AllocError> {
    let name = match script.tables.get(figure.table) {
        Some(table) => table.name.as_str(),
        None => "",
    };
    match (figure.kind.is_bound(), figure.scale) {
        (false, _) => {
            format!(in alloc; "{text}: of {name} this statistic is a whole number from 0 on")
        }
        (true, 0) => format!(in alloc; "{text}: of {name} this statistic is a whole number"),
        (true, digits) => format!(in alloc;
            "{text}: of {name} this statistic is a number with at most {digits} digits behind its point"
        ),
    }
}

/// The units of a number as it is written, at a scale: `-2.5` has -250 at scale 2. None where it is no number, or has more digits behind
/// its point.
fn units_of(text: &str, scale: u8) -> Option<i128> {
    let digits = text.strip_prefix("-").unwrap_or(text);
    let (whole, part) = digits.split_once(".").unwrap_or((digits, "0"));
    let behind = u32::try_from(part.trim_end_matches('0').len()).ok()?;
    let missing = u32::from(scale).checked_sub(behind)?;
    let whole = i128::from(whole.parse::<u64>().ok()?);
    let rest = match part.trim_end_matches('0') {
        "" => 0,
        digits => i128::from(digits.parse::<u64>().ok()?),
    };
    let units = whole.checked_mul(10_i128.checked_pow(u32::from(scale))?)?;
    let units = units.checked_add(rest.checked_mul(10_i128.checked_pow(missing)?)?)?;
    if digits.len() < text.len() {
        units.checked_neg()
    } else {
        Some(units)
    }
}

/// Reads `CUSTOMER ROWS`, `CUSTOMER (CITY, NAME) KEYS` or `CUSTOMER (CNO) LOW`.
pub(crate) fn read_figure(
    alloc: Global,
    script: &PlanningScript,
    named: &str,
) -> Result<Figure, ViewFault> {
    let upper = named.to_ascii_uppercase(alloc)?;
    let text = upper.as_str();
    let found = match text.split_once('(') {
        Some((table, rest)) => index_figure(alloc, script, table.trim(), rest)?,
        None => table_figure(script, text.trim()),
    };
    match found {
        Some(figure) => Ok(figure),
        None => Err(ViewFault::Refused(format!(in alloc;
            "{named}: a statistic is TABLE ROWS or PAGES, or TABLE (COLUMN, ..) KEYS, PAGES, LOW or HIGH, of a table of the query or an index that it has (LOW and HIGH: that has them)"
        )?)),
    }
}

fn table_figure(script: &PlanningScript, text: &str) -> Option<Figure> {
    let (name, word) = text.split_once(' ')?;
    Some(Figure {
        table: place_of(script, name)?,
        index: None,
        kind: FigureKind::of_table(word.trim())?,
        scale: 0,
    })
}

fn index_figure(
    alloc: Global,
    script: &PlanningScript,
    name: &str,
    rest: &str,
) -> Result<Option<Figure>, AllocError> {
    let Some((list, word)) = rest.split_once(')') else {
        return Ok(None);
    };
    let Some(place) = place_of(script, name) else {
        return Ok(None);
    };
    let Some(planned) = script.tables.get(place) else {
        return Ok(None);
    };
    let mut columns = Vec::new(alloc);
    for column in list.split(',') {
        match planned.column(column.trim()) {
            Some(number) => columns.push(number)?,
            None => return Ok(None),
        }
    }
    Ok(figure_of_index(planned, place, &columns, word.trim()))
}

/// A statistic of the index of a table on some columns, if there is one that has it.
fn figure_of_index(
    planned: &PlannedTable,
    place: usize,
    columns: &[usize],
    word: &str,
) -> Option<Figure> {
    let kind = FigureKind::of_index(word)?;
    let number = planned.index_on(columns)?;
    let index: &PlannedIndex = planned.indexes.get(number)?;
    let scale = if kind.is_bound() {
        let _range = index.statistics.range?;
        planned.scale_of(index)?
    } else {
        0
    };
    Some(Figure {
        table: place,
        index: Some(number),
        kind,
        scale,
    })
}

fn place_of(script: &PlanningScript, name: &str) -> Option<usize> {
    for (place, table) in script.tables.iter().enumerate() {
        if table.name.as_str() == name {
            return Some(place);
        }
    }
    None
}
