//! The names of result columns, which ORDER BY takes alone.

use crate::blocks_around::blocks_around;
use crate::query_places::start_of_column;
use crate::words::QueryWords;
use messages_syntax::Nearest;
use std::fmt::{self, Formatter};
use syntax::{Block, ColumnReference, Expr, Item, Key, KeyName, SelectList};

/// The items of a block's list; none where it is an asterisk.
fn items_of(block: &Block) -> &[Item] {
    match &block.list {
        SelectList::Items(items) => items.as_slice(),
        SelectList::Asterisk { .. } => &[],
    }
}

/// What a result column is called by its item, if it has a name there.
fn name_of(item: &Item) -> Option<&str> {
    match (&item.alias, &item.value) {
        (Some(alias), _) => Some(alias.text.as_str()),
        (None, Expr::Column(column)) => Some(column.name.text.as_str()),
        _ => None,
    }
}

/// The numbers, from 1, of the first two result columns of a name; 0 where there is none.
fn numbers_of(items: &[Item], name: &str) -> (usize, usize) {
    let mut first = 0;
    for (place, item) in items.iter().enumerate() {
        if name_of(item) != Some(name) {
            continue;
        }
        let number = place.saturating_add(1);
        if first != 0 {
            return (first, number);
        }
        first = number;
    }
    (first, 0)
}

/// Writes how a key of ORDER BY may name what was meant, as a line, where one way is sure.
pub(crate) fn write_key_hint<W: fmt::Write>(
    f: &mut Formatter<W>,
    words: &QueryWords,
    key: &Key,
) -> fmt::Result {
    let KeyName::Name(name) = &key.name else {
        return Ok(());
    };
    let wanted = name.text.as_str();
    let block = &words.query.block;
    let items = items_of(block);
    let (first, second) = numbers_of(items, wanted);
    if second != 0 {
        return writeln!(f, "hint: write its number: {first} or {second}");
    }
    let mut nearest = Nearest::new(words.alloc, wanted);
    for item in items {
        if let Some(own) = name_of(item) {
            nearest.offer(own);
        }
    }
    if nearest.name().is_none() && can_be_added(words, block, wanted) {
        return writeln!(
            f,
            "hint: ORDER BY takes result columns: put {wanted} into the list of SELECT"
        );
    }
    nearest.write_hint(f)
}

/// Whether a column of a block's tables can be a result column too, and nothing else changes.
fn can_be_added(words: &QueryWords, block: &Block, name: &str) -> bool {
    if block.distinct || !block.groups.is_empty() || items_of(block).is_empty() {
        return false;
    }
    for source in &block.sources.tables {
        if let Some(table) = words.database.table(source.table.text.as_str())
            && table.column(name).is_some()
        {
            return true;
        }
    }
    false
}

/// Whether a name that is no column is what a result column of its block is called.
pub(crate) fn is_alias(words: &QueryWords, column: &ColumnReference) -> bool {
    if column.qualifier.is_some() {
        return false;
    }
    let Ok(blocks) = blocks_around(words.alloc, words.query, start_of_column(column)) else {
        return false;
    };
    let Some(block) = blocks.last() else {
        return false;
    };
    for item in items_of(*block) {
        if let Some(alias) = &item.alias
            && alias.text.as_str() == column.name.text.as_str()
        {
            return true;
        }
    }
    false
}

/// Writes that what a result column is called stands in ORDER BY alone, as a line.
pub(crate) fn write_alias_hint<W: fmt::Write>(
    f: &mut Formatter<W>,
    column: &ColumnReference,
) -> fmt::Result {
    writeln!(
        f,
        "hint: {} names a result column, which ORDER BY alone may do: write out what it stands for",
        column.name.text
    )
}
