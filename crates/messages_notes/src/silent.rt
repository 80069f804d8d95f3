//! What a query does without a word, and hardly as it is meant: conditions that no row meets, and columns of a query around that a subquery gives.

use catalog::Database;
use query_tree::{Block, BlockColumn, Condition, Item, ValueExpr};
use sqlvalue::{ComparisonOperator, SqlType};
use std::fmt::{self, Formatter};
use std::slice;
use syntax::{Block as WrittenBlock, ColumnReference, Expr, SelectList};

/// A condition that no row meets, on a column of so many characters.
#[derive(Clone, Copy)]
pub(crate) struct NeverMet<'b> {
    column: BlockColumn,
    length: u8,
    text: &'b str,
    is_pattern: bool,
}

/// The conjuncts of a block's WHERE.
pub(crate) fn conjuncts(block: &Block) -> &[Condition] {
    match &block.condition {
        Some(Condition::And(parts)) => parts.as_slice(),
        Some(condition) => slice::from_ref(condition),
        None => &[],
    }
}

/// Whether no row meets a conjunct of a block's WHERE.
pub(crate) fn has_never_met(block: &Block) -> bool {
    for condition in conjuncts(block) {
        if never_met(condition).is_some() {
            return true;
        }
    }
    false
}

/// Why no row meets a condition, where it is sure by the length of a column.
pub(crate) fn never_met(condition: &Condition) -> Option<NeverMet<'_>> {
    match condition {
        Condition::Compare {
            op: ComparisonOperator::Equals,
            left,
            right,
        } => match long_text(left, right) {
            Some(found) => Some(found),
            None => long_text(right, left),
        },
        Condition::Like {
            negated: false,
            value,
            pattern,
        } => short_pattern(value, pattern.as_str()),
        _ => None,
    }
}

/// A text that is longer than the column that it is compared with, blanks at its end aside (ISO/IEC 9075:1992, 8.2).
fn long_text<'b>(value: &'b ValueExpr, other: &'b ValueExpr) -> Option<NeverMet<'b>> {
    let (
        ValueExpr::Column {
            column,
            sql_type: SqlType::Char { length },
        },
        ValueExpr::Text(text),
    ) = (value, other)
    else {
        return None;
    };
    let text = text.as_str().trim_end();
    (text.len() > usize::from(*length)).then_some(NeverMet {
        column: *column,
        length: *length,
        text,
        is_pattern: false,
    })
}

/// A pattern without % that stands for more or fewer characters than the column always has (ISO/IEC 9075:1992, 8.5).
fn short_pattern<'b>(value: &'b ValueExpr, pattern: &'b str) -> Option<NeverMet<'b>> {
    let ValueExpr::Column {
        column,
        sql_type: SqlType::Char { length },
    } = value
    else {
        return None;
    };
    let is_fixed = !pattern.as_bytes().contains(&b'%');
    (is_fixed && pattern.len() != usize::from(*length)).then_some(NeverMet {
        column: *column,
        length: *length,
        text: pattern,
        is_pattern: true,
    })
}

/// `no row meets NAME = '..': NAME has 10 characters, and the text 15`; of a pattern, that a column's blanks count.
pub(crate) fn write_never_met<W: fmt::Write>(
    f: &mut Formatter<W>,
    database: &Database,
    block: &Block,
    never: NeverMet,
) -> fmt::Result {
    let Some(name) = column_name(database, block, never.column) else {
        return Ok(());
    };
    let (length, text, characters) = (never.length, never.text, never.text.len());
    if never.is_pattern {
        writeln!(
            f,
            "no row meets {name} LIKE '{text}': {name} always has {length} characters, blanks at its end among them, and the pattern {characters}"
        )
    } else {
        writeln!(
            f,
            "no row meets {name} = '{text}': {name} has {length} characters, and the text {characters}"
        )
    }
}

/// The name of a column of a block.
fn column_name<'d>(database: &'d Database, block: &Block, column: BlockColumn) -> Option<&'d str> {
    let place = block.tables.get(column.table)?;
    let table = database.tables().get(*place)?;
    (column.number < table.width()).then(|| table.column_name(column.number))
}

/// Whether a result column of a block is a column of a block around it.
pub(crate) fn gives_outer_column(block: &Block) -> bool {
    for item in &block.items {
        if is_outer(item) {
            return true;
        }
    }
    false
}

fn is_outer(item: &Item) -> bool {
    matches!(item.value, ValueExpr::Parameter { .. })
}

/// The first result column of a subquery that is a column of a query around it, and is written without the name of a table.
pub(crate) fn outer_column<'w>(
    block: &Block,
    written: &'w WrittenBlock,
) -> Option<&'w ColumnReference> {
    let SelectList::Items(items) = &written.list else {
        return None;
    };
    for (bound, item) in block.items.iter().zip(items) {
        if is_outer(bound)
            && let Expr::Column(reference) = &item.value
            && reference.qualifier.is_none()
        {
            return Some(reference);
        }
    }
    None
}
