//! The values in the text of a block, and the inner blocks that it asks for.

ghost use Rattle.std.specs.Prelude.{◌≡◌, ◌++◌, ◌∷◌, [], IfOk, IsPermutation, OnOk, flat_map, map, option_map};
ghost use Rattle.definitions.specs.Queries.Conjuncts.{blocks_in, blocks_of, values_of};
ghost use Rattle.definitions_answers.specs.Seen.{seen_blocks};
ghost use Rattle.definitions_answers.specs.Parameters.{arguments_of, asked_blocks, tested_of_option, values_in_block, values_of_option};
ghost use Rattle.query_tree.specs.Bound.{block_of, bound_function_of, condition_of};
ghost use Rattle.query_tree.specs.Walks.{conditions_in, trees_of};
ghost use Rattle.subqueries.specs.BlockText.{item_values, Rising};

use query_tree::{
    Aggregate, Block, Condition, Item, ValueExpr, push_blocks, push_compared, push_tested,
    push_values,
};
use std::alloc::{AllocError, Global};

/// All values in the text of a block: of its result columns, of WHERE and HAVING, and the arguments of its set functions (own).
pub(crate) fn block_values<'a>(
    alloc: Global,
    block: &'a Block,
) -> Result<Vec<&'a ValueExpr>, AllocError>
    ensures { IfOk result (λ values. trees_of values.items ≡ values_in_block (block_of block.now)) }
{
    let mut values = Vec::new(alloc);
    push_items(&mut values, &block.items)?;
    push_clause(&mut values, &block.condition)?;
    push_clause(&mut values, &block.having)?;
    push_arguments(&mut values, &block.functions)?;
    Ok(values)
}

/// The numbers of all inner blocks that the text of a block asks for: those in its values, and then those that its conditions test
/// (own). Its values are handed in.
pub(crate) fn asked_blocks(
    alloc: Global,
    block: &Block,
    values: &[&ValueExpr],
) -> Result<Vec<usize>, AllocError>
    requires { trees_of values.now ≡ values_in_block (block_of block.now) }
    ensures { IfOk result (λ asked. asked.items ≡ asked_blocks (block_of block.now)) }
{
    let mut asked = Vec::new(alloc);
    'values: for value in values {
        push_blocks(&mut asked, value)?;
    }
    push_clause_tested(&mut asked, &block.condition)?;
    push_clause_tested(&mut asked, &block.having)?;
    Ok(asked)
}

/// The numbers of the inner blocks that conditions ask for, rising (own).
pub fn blocks_asked(alloc: Global, conditions: &[&Condition]) -> Result<Vec<usize>, AllocError>
    ensures each { IfOk result (λ blocks. IsPermutation (flat_map blocks_of (conditions_in conditions.now))
        blocks.items) }
    ensures rising { IfOk result (λ blocks. Rising blocks.items) }
{
    let mut blocks = Vec::new(alloc);
    'conditions: for condition in conditions {
        push_asked(alloc, &mut blocks, condition)?;
    }
    blocks.sort_unstable();
    Ok(blocks)
}

/// The numbers of the inner blocks whose values conditions see: all that they ask for, but those that only EXISTS tests (own).
pub fn blocks_seen(alloc: Global, conditions: &[&Condition]) -> Result<Vec<usize>, AllocError>
    ensures { IfOk result (λ blocks. blocks.items ≡ flat_map seen_blocks (conditions_in conditions.now)) }
{
    let mut blocks = Vec::new(alloc);
    'conditions: for condition in conditions {
        push_compared(&mut blocks, condition)?;
        push_inner(alloc, &mut blocks, condition)?;
    }
    Ok(blocks)
}

/// The inner blocks that a condition asks for: those that it tests itself, and those in its values.
fn push_asked(
    alloc: Global,
    blocks: &mut Vec<usize>,
    condition: &Condition,
) -> Result<(), AllocError>
    ensures { OnOk result (blocks.new.items ≡ blocks.old.items ++ blocks_of (condition_of condition.now)) }
{
    push_tested(blocks, condition)?;
    push_inner(alloc, blocks, condition)
}

/// The inner blocks in the values of a condition.
fn push_inner(
    alloc: Global,
    blocks: &mut Vec<usize>,
    condition: &Condition,
) -> Result<(), AllocError>
    ensures { OnOk result (blocks.new.items ≡ blocks.old.items ++ flat_map blocks_in
        (values_of (condition_of condition.now))) }
{
    let mut values = Vec::new(alloc);
    push_values(&mut values, condition)?;
    'values: for value in &values {
        push_blocks(blocks, value)?;
    }
    Ok(())
}

fn push_items<'a>(values: &mut Vec<&'a ValueExpr>, items: &'a [Item]) -> Result<(), AllocError>
    ensures { OnOk result (trees_of values.new.items ≡ trees_of values.old.items ++ item_values items.now) }
{
    'items: for item in items {
        values.push(&item.value)?;
    }
    Ok(())
}

fn push_arguments<'a>(
    values: &mut Vec<&'a ValueExpr>,
    functions: &'a [Aggregate],
) -> Result<(), AllocError>
    ensures { OnOk result (trees_of values.new.items ≡ trees_of values.old.items ++ arguments_of
        (map bound_function_of functions.now)) }
{
    'functions: for function in functions {
        push_argument(values, function)?;
    }
    Ok(())
}

/// COUNT(*) has no argument (ISO/IEC 9075:1992, 6.5).
fn push_argument<'a>(
    values: &mut Vec<&'a ValueExpr>,
    function: &'a Aggregate,
) -> Result<(), AllocError>
    ensures { OnOk result (trees_of values.new.items ≡ trees_of values.old.items ++ arguments_of
        (bound_function_of function.now ∷ [])) }
{
    match function {
        Aggregate::CountRows => Ok(()),
        Aggregate::OfValues { argument, .. } => values.extend_from_slice(&[argument]),
    }
}

/// The values of WHERE or HAVING, where the block has it.
fn push_clause<'a>(
    values: &mut Vec<&'a ValueExpr>,
    clause: &'a Option<Condition>,
) -> Result<(), AllocError>
    ensures { OnOk result (trees_of values.new.items ≡ trees_of values.old.items ++ values_of_option
        (option_map condition_of clause.now)) }
{
    match clause {
        Some(condition) => push_values(values, condition),
        None => Ok(()),
    }
}

/// The inner blocks that WHERE or HAVING itself tests, where the block has it.
fn push_clause_tested(blocks: &mut Vec<usize>, clause: &Option<Condition>) -> Result<(), AllocError>
    ensures { OnOk result (blocks.new.items ≡ blocks.old.items ++ tested_of_option
        (option_map condition_of clause.now)) }
{
    match clause {
        Some(condition) => push_tested(blocks, condition),
        None => Ok(()),
    }
}
