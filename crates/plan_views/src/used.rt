//! The columns that a block's conjuncts and orders go by.

use crate::conjunct_rows::columns_of;
use planned_queries::BlockView;
use query_tree::BlockColumn;
use std::alloc::{AllocError, Global};

/// A column that a conjunct, an order or a group of a block goes by, by the names of its table and its own.
#[derive(Drop)]
pub struct UsedColumn {
    pub table: String,
    pub column: String,
}

/// The columns that a block's conjuncts and numbered orders go by.
pub fn used_columns(alloc: Global, block: &BlockView<'_>) -> Result<Vec<UsedColumn>, AllocError> {
    let mut used = Vec::new(alloc);
    for conjunct in block.estimate.conjuncts() {
        let (left, right) = columns_of(conjunct);
        for column in [left, right] {
            if let Some(column) = column {
                add_column(alloc, &mut used, block, column)?;
            }
        }
    }
    for keys in block.space().orders() {
        for key in keys {
            add_column(alloc, &mut used, block, key.column)?;
        }
    }
    Ok(used)
}

fn add_column(
    alloc: Global,
    used: &mut Vec<UsedColumn>,
    block: &BlockView<'_>,
    column: BlockColumn,
) -> Result<(), AllocError> {
    let Some(stored) = block.names.stored_table(column.table) else {
        return Ok(());
    };
    if column.number >= stored.width() {
        return Ok(());
    }
    used.push(UsedColumn {
        table: String::from_str(alloc, stored.name())?,
        column: String::from_str(alloc, stored.column_name(column.number))?,
    })?;
    Ok(())
}
