//! The answer of a query: the rows of its outermost block, with its inner blocks evaluated where they are asked for.

ghost use Rattle.std.specs.Prelude.{◌≡◌, ◌<◌, [], List, IfErr, IfOk, length, map};
ghost use Rattle.std.specs.List.{AllByRecursion};
ghost use Rattle.definitions.specs.Binding.Answerable.{IsAnswerable};
ghost use Rattle.definitions.specs.Binding.Formed.{AreFormed, IsFormedSomewhere};
ghost use Rattle.definitions.specs.Estimates.Version.{current_version};
ghost use Rattle.definitions.specs.Plans.Plan as spec;
ghost use Rattle.definitions.specs.Queries.Outcomes.{names_of, shown, AllowedOf, Exception, Rows};
ghost use Rattle.definitions.specs.Table.{Row};
ghost use Rattle.definitions_answers.specs.Standing.{Stands};
ghost use Rattle.definitions_execution.specs.Total.{AreCertified, IsTotal};
ghost use Rattle.result_lines.specs.Faults.{IfRaised};
ghost use Rattle.query_tree.specs.Bound.{block_of};
ghost use Rattle.plan_space.specs.BlockPlans.{AreLeastOf};
ghost use Rattle.executor.specs.ReadyBlocks.{blocks_in, database_in, total_at, AreReady, AreRight};

use crate::ready_block::{ReadyBlock, ready_blocks};
use crate::running::run_block;
use crate::taking::take_rows;
use crate::watch::{QueryWatch, WorkCount};
use block_answers::BlockRows;
use catalog::Database;
use plan_space::BlockPlan;
use plan_tree::saturating_sum;
use query_tree::Block;
use result_lines::AnswerFault;
use std::alloc::{AllocError, Global};
use subqueries::{Frames, KeptResults};

/// What a query prints, by least plans of its blocks; and its work, the total of these plans; a watch is told how far the query is. It
/// is the header, the rows and how many there are, or an exception that the query raises (ISO/IEC 9075:1992, 7.6 to 7.11; Selinger
/// et al. 1979, sections 4 to 6; the form is own).
pub fn answer_text<'a, W: QueryWatch>(
    alloc: Global,
    database: &'a Database,
    blocks: &'a [Block],
    plans: Vec<BlockPlan<'a>>,
    watch: &W,
) -> Result<(Vec<u8>, u64), AnswerFault>
    requires formed { AreFormed database.now (map block_of blocks.now) [] 0 }
    requires each { AllByRecursion (IsFormedSomewhere database.now) (map block_of blocks.now) }
    requires answerable { AllByRecursion IsAnswerable (map block_of blocks.now) }
    requires least { AreLeastOf database.now (map block_of blocks.now) plans.items }
    ensures rows { IfOk result (λ r. (rows : List Row) × AllowedOf database.now (map block_of blocks.now) (Rows rows)
        × (r.0.items ≡ shown (names_of (map block_of blocks.now)) (Rows rows))) }
    ensures work { IfOk result (λ r. IsTotal current_version database.now (map block_of blocks.now) r.1) }
    ensures raised { IfErr result (λ fault. IfRaised fault (λ raise.
        AllowedOf database.now (map block_of blocks.now) (Exception raise))) }
    ensures certified { IfErr result (λ fault. IfRaised fault (λ raise. (plans : List spec.Plan)
        × AreCertified current_version database.now (map block_of blocks.now) plans)) }
{
    let query = ready_blocks(alloc, database, blocks, plans)?;
    run_select(alloc, &query, watch)
}

/// What a query prints by plans of its blocks, whatever they cost, if each gives the order that its block asks for; and the
/// total of these plans; a watch is told how far it is (ISO/IEC 9075:1992, 7.6 to 7.11; Selinger et al. 1979, sections 5 and 6; the form
/// is own).
pub fn run_select<'s, W: QueryWatch>(
    alloc: Global,
    query: &'s [ReadyBlock<'_>],
    watch: &W,
) -> Result<(Vec<u8>, u64), AnswerFault>
    requires query { AreReady query.now }
    requires outermost { 0 < length query.now }
    requires stands { Stands (database_in query.now) (blocks_in query.now) 0 [] }
    ensures rows { IfOk result (λ r. (rows : List Row) × AllowedOf (database_in query.now) (blocks_in query.now) (Rows rows)
        × (r.0.items ≡ shown (names_of (blocks_in query.now)) (Rows rows))) }
    ensures total { IfOk result (λ r. r.1 ≡ total_at query.now [] 0) }
    ensures raised { IfErr result (λ fault. IfRaised fault (λ raise.
        AllowedOf (database_in query.now) (blocks_in query.now) (Exception raise))) }
{
    let first = &query[0];
    let mut frames = Frames::new(alloc, WorkCount::new(watch));
    let mut kept = no_results(alloc, query)?;
    let results = kept.as_mut_slice();
    let mut pipeline = run_block(
        alloc,
        &first.source,
        first.block,
        first.space.orders(),
        &first.plan,
        None,
        &frames,
    )?;
    let mut rows = BlockRows::to_print(alloc, first.block)?;
    let inner = take_rows(
        alloc,
        query,
        first,
        &mut pipeline,
        &mut rows,
        &mut frames,
        results,
    )?;
    let store = rows.finish(alloc, &first.source, first.block, &frames)?;
    let text = store.end(&first.block.order)?;
    Ok((text, saturating_sum(pipeline.opened_rows(), inner)))
}

/// How many results are kept of a block that has parameters (own).
const MOST_KEPT: usize = 256;

/// For each block places for results, and none is kept.
fn no_results(alloc: Global, query: &[ReadyBlock<'_>]) -> Result<Vec<KeptResults>, AllocError>
    ensures { IfOk result (λ results. AreRight query.now results.items) }
{
    let mut results = Vec::new(alloc);
    'blocks: for block in query {
        results.push(KeptResults::new(alloc, places_for(block))?)?;
    }
    Ok(results)
}

/// How many results of a block are kept: one of a block without parameters, as there is no other.
fn places_for(block: &ReadyBlock<'_>) -> usize {
    if block.parameters.is_empty() {
        1
    } else {
        MOST_KEPT
    }
}
