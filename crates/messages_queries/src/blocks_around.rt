//! The query blocks that a place of a query stands in.

use crate::query_places::{start_of, start_of_column};
use std::alloc::{AllocError, Global};
use syntax::{Block, Expr, Select, SelectList};

/// The query blocks that a name of a query stands in, the outermost first. The name is told by the byte that it begins with.
/// An `Err` is want of memory.
pub(crate) fn blocks_around<'q>(
    alloc: Global,
    query: &'q Select,
    offset: usize,
) -> Result<Vec<&'q Block>, AllocError> {
    let path = walk(alloc, query, offset, usize::MAX)?;
    Ok(path.blocks)
}

/// How many query blocks a query has. An `Err` is want of memory.
pub(crate) fn count_blocks(alloc: Global, query: &Select) -> Result<usize, AllocError> {
    let path = walk(alloc, query, usize::MAX, usize::MAX)?;
    Ok(path.begun)
}

/// The query block of a number, from 0, if there is one: blocks are numbered as they begin. An `Err` is want of memory.
pub fn block_of_number<'q>(
    alloc: Global,
    query: &'q Select,
    number: usize,
) -> Result<Option<&'q Block>, AllocError> {
    let path = walk(alloc, query, usize::MAX, number)?;
    Ok(path.found)
}

/// The way to a byte of a query, which looks for the block of a number.
fn walk<'q>(
    alloc: Global,
    query: &'q Select,
    offset: usize,
    wanted: usize,
) -> Result<Path<'q>, AllocError> {
    let mut path = Path {
        offset,
        blocks: Vec::new(alloc),
        begun: 0,
        wanted,
        found: None,
    };
    path.enter_block(&query.block)?;
    Ok(path)
}

/// A way from the outermost block to a place.
#[derive(Drop)]
struct Path<'q> {
    offset: usize,
    /// The blocks that the place may stand in, as far as what was passed tells.
    blocks: Vec<&'q Block>,
    /// How many blocks begin before the place.
    begun: usize,
    /// The number of a block that is looked for, and that block.
    wanted: usize,
    found: Option<&'q Block>,
}

impl<'q> Path<'q> {
    #[cycle(blocks)]
    fn enter_block(&mut self, block: &'q Block) -> Result<(), AllocError> {
        self.blocks.extend_from_slice(&[block])?;
        if self.begun == self.wanted {
            self.found = Some(block);
        }
        self.begun = self.begun.saturating_add(1);
        let depth = self.blocks.len();
        if let SelectList::Items(items) = &block.list {
            for item in items {
                self.enter_part(depth, &item.value)?;
            }
        }
        if let Some(source) = block.sources.tables.first() {
            self.pass(depth, source.table.start);
        }
        if let Some(condition) = &block.condition {
            self.enter_part(depth, condition)?;
        }
        if let Some(column) = block.groups.first() {
            self.pass(depth, start_of_column(column));
        }
        match &block.having {
            Some(condition) => self.enter_part(depth, condition),
            None => Ok(()),
        }
    }

    /// Leaves the inner blocks that were entered, if the place stands at a byte or behind it.
    fn pass(&mut self, depth: usize, start: usize) {
        if start <= self.offset {
            self.blocks.truncate(depth);
        }
    }

    /// Enters an expression that the place may stand in or behind, and leaves the inner blocks before it.
    #[cycle(blocks)]
    fn enter_part(&mut self, depth: usize, expr: &'q Expr) -> Result<(), AllocError> {
        if start_of(expr) > self.offset {
            return Ok(());
        }
        self.blocks.truncate(depth);
        self.enter(expr)
    }

    #[cycle(blocks)]
    fn enter(&mut self, expr: &'q Expr) -> Result<(), AllocError> {
        let depth = self.blocks.len();
        match expr {
            Expr::Exists { query, .. } | Expr::Scalar { query, .. } => self.enter_block(query),
            Expr::CompareAll { left, query, .. }
            | Expr::InQuery {
                value: left,
                query,
                ..
            } => {
                self.enter(left)?;
                if query.start > self.offset {
                    return Ok(());
                }
                self.blocks.truncate(depth);
                self.enter_block(query)
            }
            Expr::Signed { operand: only, .. }
            | Expr::Not { operand: only, .. }
            | Expr::IsNull { value: only, .. }
            | Expr::Like { value: only, .. }
            | Expr::Function { argument: only, .. } => self.enter(only),
            Expr::Compare { left, right, .. } => {
                self.enter(left)?;
                self.enter_part(depth, right)
            }
            Expr::Between {
                value,
                low,
                high,
                ..
            } => {
                self.enter(value)?;
                self.enter_part(depth, low)?;
                self.enter_part(depth, high)
            }
            Expr::InList { value, members, .. } => {
                self.enter(value)?;
                self.enter_members(depth, members)
            }
            Expr::Line { first, others } => {
                self.enter(first)?;
                for operand in others {
                    self.enter_part(depth, &operand.value)?;
                }
                Ok(())
            }
            Expr::Column(_) | Expr::Numeral(_) | Expr::String(_) | Expr::CountRows { .. } => Ok(()),
        }
    }

    #[cycle(blocks)]
    fn enter_members(
        &mut self,
        depth: usize,
        members: &'q [Option<Expr>],
    ) -> Result<(), AllocError> {
        for member in members {
            if let Some(value) = member {
                self.enter_part(depth, value)?;
            }
        }
        Ok(())
    }
}
