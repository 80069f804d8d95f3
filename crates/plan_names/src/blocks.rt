//! The query blocks of a query as it is written, by their numbers.

use parse_tree::{Block, Expr, Select, SelectList};
use std::alloc::{AllocError, Global};

/// A query block as it is written, and its number, from 0: blocks are numbered as they begin.
#[derive(Clone, Copy)]
pub(crate) struct NumberedBlock<'q> {
    pub number: usize,
    pub block: &'q Block,
}

/// The query block of a number behind those around it, the outermost first; none where there is no such block.
pub(crate) fn blocks_down_to<'q>(
    alloc: Global,
    query: &'q Select,
    wanted: usize,
) -> Result<Vec<NumberedBlock<'q>>, AllocError> {
    let mut walk = Walk {
        open: Vec::new(alloc),
        begun: 0,
        wanted,
        found: Vec::new(alloc),
    };
    walk.enter_block(&query.block)?;
    Ok(walk.found)
}

/// A walk over all blocks of a query.
#[derive(Drop)]
struct Walk<'q> {
    /// The blocks around the place, the outermost first.
    open: Vec<NumberedBlock<'q>>,
    begun: usize,
    wanted: usize,
    found: Vec<NumberedBlock<'q>>,
}

impl<'q> Walk<'q> {
    #[cycle(blocks)]
    fn enter_block(&mut self, block: &'q Block) -> Result<(), AllocError> {
        self.begin(block)?;
        if let SelectList::Items(items) = &block.list {
            for item in items {
                self.enter(&item.value)?;
            }
        }
        self.enter_condition(&block.condition)?;
        self.enter_condition(&block.having)?;
        let _ = self.open.pop();
        Ok(())
    }

    /// Numbers a block that begins.
    fn begin(&mut self, block: &'q Block) -> Result<(), AllocError> {
        let number = self.begun;
        self.open
            .extend_from_slice(&[NumberedBlock { number, block }])?;
        self.begun = number.saturating_add(1);
        if number == self.wanted {
            self.found.extend_from_slice(&self.open)?;
        }
        Ok(())
    }

    #[cycle(blocks)]
    fn enter_condition(&mut self, condition: &'q Option<Expr>) -> Result<(), AllocError> {
        match condition {
            Some(expr) => self.enter(expr),
            None => Ok(()),
        }
    }

    #[cycle(blocks)]
    fn enter(&mut self, expr: &'q Expr) -> Result<(), AllocError> {
        match expr {
            Expr::Exists { query, .. } | Expr::Scalar { query, .. } => self.enter_block(query),
            Expr::CompareAll { left, query, .. }
            | Expr::InQuery {
                value: left,
                query,
                ..
            } => {
                self.enter(left)?;
                self.enter_block(query)
            }
            Expr::Signed { operand: only, .. }
            | Expr::Not { operand: only, .. }
            | Expr::IsNull { value: only, .. }
            | Expr::Like { value: only, .. }
            | Expr::Function { argument: only, .. } => self.enter(only),
            Expr::Compare { left, right, .. } => {
                self.enter(left)?;
                self.enter(right)
            }
            Expr::Between {
                value,
                low,
                high,
                ..
            } => {
                self.enter(value)?;
                self.enter(low)?;
                self.enter(high)
            }
            Expr::InList { value, members, .. } => {
                self.enter(value)?;
                self.enter_members(members)
            }
            Expr::Line { first, others } => {
                self.enter(first)?;
                for operand in others {
                    self.enter(&operand.value)?;
                }
                Ok(())
            }
            Expr::Column(_) | Expr::Numeral(_) | Expr::String(_) | Expr::CountRows { .. } => Ok(()),
        }
    }

    #[cycle(blocks)]
    fn enter_members(&mut self, members: &'q [Option<Expr>]) -> Result<(), AllocError> {
        for member in members {
            if let Some(value) = member {
                self.enter(value)?;
            }
        }
        Ok(())
    }
}
