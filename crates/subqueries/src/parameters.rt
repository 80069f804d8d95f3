//! The parameters of blocks: columns of the rows around them.

ghost use Rattle.std.specs.Prelude.{◌≡◌, ◌++◌, [], ℕ, IfOk, OnOk, length, map};
ghost use Rattle.definitions_answers.specs.Parameters.{asked_blocks, lowered, own_parameters, parameters, parameters_in};
ghost use Rattle.query_tree.specs.Bound.{block_of, value_of};
ghost use Rattle.subqueries.specs.OuterColumns.{inner_parameters, outer_columns_of, parameters_at};

use crate::block_text::{asked_blocks, block_values};
use query_tree::{Block, BlockColumn, ValueExpr};
use std::alloc::{AllocError, Global};

/// A column of a block around: how many blocks lie between, and which column of that block (ISO/IEC 9075:1992, 6.4, an outer
/// reference).
#[derive(Clone, Copy, PartialEq, Eq)]
pub struct OuterColumn {
    pub between: usize,
    pub column: BlockColumn,
}

/// The parameters of each block of a statement, by its number: the outer columns in its text, and those in the blocks inside it, as
/// it has them, each as often as it stands there (own; the references of correlation subqueries in Selinger et al. 1979, section 6).
pub fn block_parameters(
    alloc: Global,
    blocks: &[Block],
) -> Result<Vec<Vec<OuterColumn>>, AllocError>
    ensures count { IfOk result (λ all. length all.items ≡ length blocks.now) }
    ensures exact { IfOk result (λ all. (number : ℕ) → parameters_at all.items number
        ≡ parameters (map block_of blocks.now) number) }
{
    let mut all = empty_lists(alloc, blocks.len())?;
    'numbers: for number in (0..blocks.len()).rev() {
        let own = parameters_of(alloc, &blocks[number], &all)?;
        all[number] = own;
    }
    Ok(all)
}

fn empty_lists(alloc: Global, count: usize) -> Result<Vec<Vec<OuterColumn>>, AllocError>
    ensures count { IfOk result (λ all. length all.items ≡ count) }
    ensures empty { IfOk result (λ all. (number : ℕ) → parameters_at all.items number ≡ []) }
{
    let mut all = Vec::new(alloc);
    'lists: for _number in 0..count {
        all.push(Vec::new(alloc))?;
    }
    Ok(all)
}

/// The parameters of a block, from those of the blocks inside it.
fn parameters_of(
    alloc: Global,
    block: &Block,
    inner: &[Vec<OuterColumn>],
) -> Result<Vec<OuterColumn>, AllocError>
    ensures { IfOk result (λ own. outer_columns_of own.items ≡ own_parameters (block_of block.now) ++ inner_parameters
        inner.now (asked_blocks (block_of block.now))) }
{
    let values = block_values(alloc, block)?;
    let asked = asked_blocks(alloc, block, &values)?;
    let mut columns = Vec::new(alloc);
    'values: for value in &values {
        push_parameters(&mut columns, value)?;
    }
    'numbers: for number in &asked {
        push_inner(&mut columns, inner, *number)?;
    }
    Ok(columns)
}

/// The outer columns in a value.
fn push_parameters(columns: &mut Vec<OuterColumn>, expr: &ValueExpr) -> Result<(), AllocError>
    ensures { OnOk result (outer_columns_of columns.new.items ≡ outer_columns_of columns.old.items ++ parameters_in
        (value_of expr.now)) }
{
    match expr {
        ValueExpr::Parameter {
            between,
            column,
            ..
        } => columns.extend_from_slice(&[OuterColumn {
            between: *between,
            column: *column,
        }]),
        ValueExpr::Signed { operand, .. } => push_parameters(columns, operand),
        ValueExpr::Chain { first, others } => {
            push_parameters(columns, first)?;
            for operand in others {
                push_parameters(columns, &operand.value)?;
            }
            Ok(())
        }
        _ => Ok(()),
    }
}

/// The parameters of an inner block, as the block around it has them.
fn push_inner(
    columns: &mut Vec<OuterColumn>,
    inner: &[Vec<OuterColumn>],
    number: usize,
) -> Result<(), AllocError>
    ensures { OnOk result (outer_columns_of columns.new.items ≡ outer_columns_of columns.old.items ++ lowered
        (parameters_at inner.now number)) }
{
    match inner.get(number) {
        Some(own) => push_lowered(columns, own),
        None => Ok(()),
    }
}

/// Outer columns of a block, as the block around it has them: its own columns are none of them.
fn push_lowered(columns: &mut Vec<OuterColumn>, inner: &[OuterColumn]) -> Result<(), AllocError>
    ensures { OnOk result (outer_columns_of columns.new.items ≡ outer_columns_of columns.old.items ++ lowered
        (outer_columns_of inner.now)) }
{
    'columns: for outer in inner {
        if outer.between > 0 {
            columns.push(OuterColumn {
                between: outer.between - 1,
                column: outer.column,
            })?;
        }
    }
    Ok(())
}
