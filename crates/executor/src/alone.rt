//! Blocks that ask for no other block, evaluated a batch at a time.

ghost use Rattle.std.specs.Prelude.{ℕ, ◌≡◌, [], List, IfOk, OnOk, length, map};
ghost use Rattle.definitions.specs.Arithmetic.{Meaning};
ghost use Rattle.definitions.specs.Estimates.BlockSpace.{space_of};
ghost use Rattle.definitions.specs.Estimates.Version.{current_version};
ghost use Rattle.definitions.specs.Plans.Cost.{saturated};
ghost use Rattle.definitions.specs.Queries.Answer.{block_answer};
ghost use Rattle.definitions.specs.Queries.BoundBlock.{Blocks};
ghost use Rattle.definitions.specs.Queries.Conjuncts.{late_conjuncts};
ghost use Rattle.definitions.specs.Queries.Evaluation.{Combination};
ghost use Rattle.definitions.specs.Table.{Row};
ghost use Rattle.definitions_answers.specs.Told.{Tells};
ghost use Rattle.definitions_execution.specs.OfBlock.{combination_of};
ghost use Rattle.definitions_execution.specs.Running.{work};
ghost use Rattle.filters.specs.Sources.{block_in, stored_in, IsSurrounded};
ghost use Rattle.operators.specs.Running.{left_of, opened_of, opened_so_far, width_of, IsPipeline};
ghost use Rattle.plan_tree.specs.Plans.{plan_of};
ghost use Rattle.result_rows.specs.Stores.{kind_of};
ghost use Rattle.subqueries.specs.Telling.{told_in};
ghost use Rattle.block_answers.specs.BlockRows.{store_in, IsWellFor};
ghost use Rattle.block_answers.specs.KeptRows.{rows_in, TellsKept};
ghost use Rattle.block_answers.specs.Ready.{CanAnswer};
ghost use Rattle.block_answers.specs.Telling.{context_with};
ghost use Rattle.executor.specs.ReadyBlocks.{IsReadyIn};

use crate::ready_block::ReadyBlock;
use crate::running::run_block;
use block_answers::KeptRows;
use filters::OuterRows;
use operators::Pipeline;
use plan_tree::saturating_sum;
use scans::{Batch, BatchSource};
use std::alloc::{AllocError, Global};
use subqueries::Told;

/// What is told of a block without late conjuncts in the rows of the blocks around it, or whether it has a row, if that is all that is
/// asked; and how many rows its plan opens, up to the limit (Selinger et al. 1979, section 5). A batch pays where a block is evaluated once.
pub(crate) fn evaluate_alone<'s, A: OuterRows>(
    alloc: Global,
    ready: &'s ReadyBlock<'_>,
    existence: bool,
    around: &A,
) -> Result<(Told, u64), AllocError>
    requires ready { (blocks : Blocks) × (number : ℕ) × IsReadyIn ready.now.source.database blocks number ready.now }
    requires surrounded { IsSurrounded ready.now.source (A.combinations around.now) }
    requires none { late_conjuncts (block_in ready.now.source) ≡ [] }
    ensures told { IfOk result (λ r. (inner : ℕ → List Combination → Meaning (List Row)) → Tells existence (block_answer
        (context_with ready.now.source (A.combinations around.now) inner) (block_in ready.now.source)) (told_in r.0)) }
    ensures opened { IfOk result (λ r. r.1 ≡ saturated (work
        (space_of current_version ready.now.source.database (block_in ready.now.source))
        (stored_in ready.now.source (A.combinations around.now)) (plan_of ready.now.plan))) }
{
    let mut pipeline = run_block(
        alloc,
        &ready.source,
        ready.block,
        ready.space.orders(),
        &ready.plan,
        None,
        around,
    )?;
    let mut rows = KeptRows::new(alloc, ready.block, existence)?;
    keep_batches(alloc, ready, &mut pipeline, &mut rows, around)?;
    let told = rows.end(alloc, &ready.source, ready.block, around)?;
    Ok((told, saturating_sum(pipeline.opened_rows(), 0)))
}

/// Takes the combinations that a block's plan still gives, a batch at a time.
fn keep_batches<'s, A: OuterRows>(
    alloc: Global,
    ready: &'s ReadyBlock<'_>,
    pipeline: &mut Pipeline<'s>,
    rows: &mut KeptRows<'s>,
    around: &A,
) -> Result<(), AllocError>
    requires block { ready.now.block.now ≡ ready.now.source.block }
    requires can { CanAnswer ready.now.source (A.combinations around.now) }
    requires none { late_conjuncts (block_in ready.now.source) ≡ [] }
    requires pipeline { IsPipeline pipeline.old (A.combinations around.now) }
    requires width { width_of pipeline.old ≡ length (block_in ready.now.source).tables }
    requires well { IsWellFor ready.now.source (A.combinations around.now) (rows_in rows.old) }
    ensures told { OnOk result ((inner : ℕ → List Combination → Meaning (List Row)) →
        TellsKept ready.now.source (A.combinations around.now) inner [] rows.old →
        TellsKept ready.now.source (A.combinations around.now) inner (map (combination_of ready.now.source.database
        (block_in ready.now.source)) (left_of pipeline.old (A.combinations around.now))) rows.new) }
    ensures well { OnOk result (IsWellFor ready.now.source (A.combinations around.now) (rows_in rows.new)) }
    ensures kind { kind_of (store_in (rows_in rows.new)) ≡ kind_of (store_in (rows_in rows.old)) }
    ensures opened { OnOk result (opened_so_far pipeline.new ≡ opened_of pipeline.old (A.combinations around.now)) }
{
    let mut batch = Batch::new(alloc, ready.source.table_count())?;
    pipeline.next_batch(&mut batch, around);
    'batches: while batch.len() > 0 {
        rows.take_batch(alloc, &ready.source, ready.block, &batch, around)?;
        pipeline.next_batch(&mut batch, around);
    }
    Ok(())
}
