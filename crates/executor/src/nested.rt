//! Blocks within blocks, evaluated by their numbers over the rows of the blocks around them.

ghost use Rattle.std.specs.Prelude.{◌≡◌, ◌<◌, ◌+◌, ◌∷◌, [], Contains, IfErr, IfOk, OnOk, length, sum_by};
ghost use Rattle.std.specs.List.{AllByRecursion};
ghost use Rattle.definitions.specs.Plans.Cost.{saturated};
ghost use Rattle.definitions.specs.Queries.Answer.{meanings};
ghost use Rattle.definitions_answers.specs.Standing.{Stands, StandsInside};
ghost use Rattle.definitions_answers.specs.Steps.{context_among};
ghost use Rattle.definitions_answers.specs.Taking.{Says};
ghost use Rattle.definitions_answers.specs.Told.{Tells};
ghost use Rattle.definitions.specs.Queries.Combinations.{at};
ghost use Rattle.definitions_answers.specs.Told.{told_environment};
ghost use Rattle.filters.specs.Evaluable.{CanEvaluate};
ghost use Rattle.filters.specs.Sources.{block_in, context_in};
ghost use Rattle.sqlvalue.specs.Raises.{raise_of};
ghost use Rattle.subqueries.specs.Keeping.{told_by};
ghost use Rattle.block_answers.specs.OneComposite.{are_true_in, raised_in};
ghost use Rattle.block_answers.specs.Views.{conditions_of};
ghost use Rattle.subqueries.specs.Found.{said_in};
ghost use Rattle.subqueries.specs.Framed.{combination_in, combinations_in};
ghost use Rattle.subqueries.specs.Telling.{told_in};
ghost use Rattle.definitions_execution.specs.Total.{subqueries};
ghost use Rattle.executor.specs.ReadyBlocks.{blocks_in, database_in, seen_at, subqueries_at, total_at, AreLeft, AreReady, AreRight, IsToldLast, OfBlock};
ghost use Rattle.executor.specs.SortedColumns.{AreSorted};

use crate::alone::evaluate_alone;
use crate::ready_block::ReadyBlock;
use crate::running::run_block;
use crate::sorted_columns::sorted_column;
use automatic_indexes::SortedColumn;
use block_answers::{KeptRows, row_at, try_all};
use filters::{BlockSource, Composite, OuterRows};
use plan_tree::saturating_sum;
use query_tree::Condition;
use scans::TupleSource;
use sqlvalue::Raise;
use std::alloc::{AllocError, Global};
use subqueries::{Frames, KeptResults, Late, Told, WorkWatch, bound_memory, key_of};

/// Has a block told what it may tell in the rows of the blocks around it, or whether it has a row, if that is all that is asked, which
/// is then what it told last, and gives its total there. A result that is kept for the values of its parameters is told again
/// (Selinger et al. 1979, section 6).
#[cycle(nested)]
pub(crate) fn ask_block<'s, W: WorkWatch>(
    alloc: Global,
    query: &'s [ReadyBlock<'_>],
    number: usize,
    existence: bool,
    frames: &mut Frames<'s, W>,
    results: &mut [KeptResults],
    sorted: &[Option<SortedColumn>],
) -> Result<u64, AllocError>
    requires query { AreReady query.now }
    requires number { number < length query.now }
    requires stands { Stands (database_in query.now) (blocks_in query.now) number (combinations_in frames.old) }
    requires right { AreRight query.now results.old }
    requires sorted { AreSorted query.now sorted.now }
    ensures told { OnOk result (Tells existence (meanings (database_in query.now) 0 (blocks_in query.now) number
        (combinations_in frames.old)) (told_by results.new number)) }
    ensures total { IfOk result (λ total. total ≡ total_at query.now (combinations_in frames.old) number) }
    ensures right { OnOk result (AreRight query.now results.new) }
    ensures left { OnOk result (AreLeft query.now number results.old results.new) }
    ensures frames { OnOk result (combinations_in frames.new ≡ combinations_in frames.old) }
{
    let parameters = &query[number].parameters;
    if let Some(total) = results[number].find(existence, parameters, &*frames) {
        return Ok(total);
    }
    let (told, total) = evaluate_block(alloc, query, number, existence, frames, results, sorted)?;
    let key = key_of(alloc, parameters, &*frames, results);
    results[number].keep(key, existence, told, total);
    bound_memory(results);
    Ok(total)
}

/// What is told of a block in the rows of the blocks around it, and its total there: the rows that a plan of it opens, and
/// those of its subqueries at each composite, since all of them are evaluated there (own; Selinger et al. 1979, sections 5
/// and 6). What is told is told when all was counted. Late conjuncts are all evaluated on each composite, and what they
/// raise is told before what groups and result columns raise (own).
#[cycle(nested)]
fn evaluate_block<'s, W: WorkWatch>(
    alloc: Global,
    query: &'s [ReadyBlock<'_>],
    number: usize,
    existence: bool,
    frames: &mut Frames<'s, W>,
    results: &mut [KeptResults],
    sorted: &[Option<SortedColumn>],
) -> Result<(Told, u64), AllocError>
    requires query { AreReady query.now }
    requires number { number < length query.now }
    requires stands { Stands (database_in query.now) (blocks_in query.now) number (combinations_in frames.old) }
    requires right { AreRight query.now results.old }
    requires sorted { AreSorted query.now sorted.now }
    ensures told { IfOk result (λ r. Tells existence (meanings (database_in query.now) 0 (blocks_in query.now) number
        (combinations_in frames.old)) (told_in r.0)) }
    ensures total { IfOk result (λ r. r.1 ≡ total_at query.now (combinations_in frames.old) number) }
    ensures right { OnOk result (AreRight query.now results.new) }
    ensures left { OnOk result (AreLeft query.now (number + 1) results.old results.new) }
    ensures frames { OnOk result (combinations_in frames.new ≡ combinations_in frames.old) }
{
    let ready = &query[number];
    if ready.late.is_empty() && ready.parameters.is_empty() {
        return evaluate_alone(alloc, ready, existence, &*frames);
    }
    let mut pipeline = run_block(
        alloc,
        &ready.source,
        ready.block,
        ready.space.orders(),
        &ready.plan,
        sorted_column(sorted, number),
        &*frames,
    )?;
    let mut rows = KeptRows::new(alloc, ready.block, existence)?;
    let mut inner = 0;
    'composites: while let Some(composite) = pipeline.next(&*frames) {
        let (late, work) = try_late(alloc, query, number, &composite, frames, results, sorted)?;
        inner = saturating_sum(inner, work);
        rows.take(
            alloc,
            &ready.source,
            ready.block,
            late,
            &composite,
            &*frames,
        )?;
    }
    let told = rows.end(alloc, &ready.source, ready.block, &*frames)?;
    Ok((told, saturating_sum(pipeline.opened_rows(), inner)))
}

/// What the late conjuncts of a block say of a composite, and the sum of the totals of their subqueries there.
#[cycle(nested)]
pub(crate) fn try_late<'s, W: WorkWatch>(
    alloc: Global,
    query: &'s [ReadyBlock<'_>],
    number: usize,
    composite: &Composite,
    frames: &mut Frames<'s, W>,
    results: &mut [KeptResults],
    sorted: &[Option<SortedColumn>],
) -> Result<(Result<bool, Raise>, u64), AllocError>
    requires query { AreReady query.now }
    requires number { number < length query.now }
    requires stands { Stands (database_in query.now) (blocks_in query.now) number (combinations_in frames.old) }
    requires right { AreRight query.now results.old }
    requires sorted { AreSorted query.now sorted.now }
    ensures says { IfOk result (λ said. OfBlock query.now number (λ r. Says
        (context_among (database_in query.now) (blocks_in query.now) (combinations_in frames.old)) (block_in r.source)
        (combination_in r.source composite.now) (said_in said.0))) }
    ensures total { IfOk result (λ said. OfBlock query.now number (λ r. said.1 ≡ saturated (sum_by (total_at query.now
        (combination_in r.source composite.now ∷ combinations_in frames.old)) (subqueries (block_in r.source))))) }
    ensures right { OnOk result (AreRight query.now results.new) }
    ensures left { OnOk result (AreLeft query.now (number + 1) results.old results.new) }
    ensures frames { OnOk result (combinations_in frames.new ≡ combinations_in frames.old) }
{
    let ready = &query[number];
    if ready.late.is_empty() {
        return Ok((Ok(true), 0));
    }
    let work = ask_at(alloc, query, number, composite, frames, results, sorted)?;
    let late = try_conjuncts(&ready.late, &ready.source, composite, &*frames, &*results);
    Ok((late, work))
}

/// Asks each block that a block's late conjuncts ask for, at a composite of it, and gives the sum of their totals there.
#[cycle(nested)]
pub(crate) fn ask_at<'s, W: WorkWatch>(
    alloc: Global,
    query: &'s [ReadyBlock<'_>],
    number: usize,
    composite: &Composite,
    frames: &mut Frames<'s, W>,
    results: &mut [KeptResults],
    sorted: &[Option<SortedColumn>],
) -> Result<u64, AllocError>
    requires query { AreReady query.now }
    requires number { number < length query.now }
    requires stands { Stands (database_in query.now) (blocks_in query.now) number (combinations_in frames.old) }
    requires right { AreRight query.now results.old }
    requires sorted { AreSorted query.now sorted.now }
    ensures told { OnOk result (OfBlock query.now number (λ r. AllByRecursion (IsToldLast query.now r.seen.items
        (combination_in r.source composite.now ∷ combinations_in frames.old) results.new) r.subqueries.items)) }
    ensures total { IfOk result (λ work. OfBlock query.now number (λ r. work ≡ saturated (sum_by (total_at query.now
        (combination_in r.source composite.now ∷ combinations_in frames.old)) (subqueries (block_in r.source))))) }
    ensures right { OnOk result (AreRight query.now results.new) }
    ensures left { OnOk result (AreLeft query.now (number + 1) results.old results.new) }
    ensures frames { OnOk result (combinations_in frames.new ≡ combinations_in frames.old) }
{
    let ready = &query[number];
    // A look at the first table tells what holds of the database.
    let _table = ready.source.table(0);
    frames.enter(alloc, &ready.source, composite)?;
    let work = ask_subqueries(alloc, query, number, frames, results, sorted)?;
    frames.leave();
    Ok(work)
}

/// Asks each block that a block's late conjuncts ask for, at the combination of it that was entered last, and gives the
/// sum of their totals. Where they don't see its values, no more is asked than whether it has a row (ISO/IEC 9075:1992, 8.9).
#[cycle(nested)]
fn ask_subqueries<'s, W: WorkWatch>(
    alloc: Global,
    query: &'s [ReadyBlock<'_>],
    number: usize,
    frames: &mut Frames<'s, W>,
    results: &mut [KeptResults],
    sorted: &[Option<SortedColumn>],
) -> Result<u64, AllocError>
    requires query { AreReady query.now }
    requires number { number < length query.now }
    requires inside { AllByRecursion (StandsInside (database_in query.now) (blocks_in query.now) number
        (combinations_in frames.old)) (subqueries_at query.now number) }
    requires right { AreRight query.now results.old }
    requires sorted { AreSorted query.now sorted.now }
    ensures told { OnOk result (AllByRecursion (IsToldLast query.now (seen_at query.now number)
        (combinations_in frames.old) results.new) (subqueries_at query.now number)) }
    ensures total { IfOk result (λ work. work ≡ saturated (sum_by (total_at query.now (combinations_in frames.old))
        (subqueries_at query.now number))) }
    ensures right { OnOk result (AreRight query.now results.new) }
    ensures left { OnOk result (AreLeft query.now (number + 1) results.old results.new) }
    ensures frames { OnOk result (combinations_in frames.new ≡ combinations_in frames.old) }
{
    let ready = &query[number];
    let mut work = 0;
    'blocks: for block in &ready.subqueries {
        let existence = !ready.sees(*block);
        let own = ask_block(alloc, query, *block, existence, frames, results, sorted)?;
        work = saturating_sum(work, own);
    }
    Ok(work)
}

/// Tries late conjuncts on a composite, by what was told last of their subqueries.
pub(crate) fn try_conjuncts<A: OuterRows>(
    late: &[&Condition],
    source: &BlockSource<'_>,
    composite: &Composite,
    around: &A,
    results: &[KeptResults],
) -> Result<bool, Raise>
    requires { AllByRecursion (CanEvaluate (told_environment (at (context_in source.now (A.combinations around.now))
        (combination_in source.now composite.now)) (told_by results.now))) (conditions_of late.now) }
    ensures truth { IfOk result (λ all. all ≡ are_true_in (told_environment (at (context_in source.now
        (A.combinations around.now)) (combination_in source.now composite.now)) (told_by results.now))
        (conditions_of late.now)) }
    ensures quiet { OnOk result (raised_in (told_environment (at (context_in source.now (A.combinations around.now))
        (combination_in source.now composite.now)) (told_by results.now)) (conditions_of late.now) ≡ []) }
    ensures raised { IfErr result (λ raise. Contains (raised_in (told_environment (at (context_in source.now
        (A.combinations around.now)) (combination_in source.now composite.now)) (told_by results.now))
        (conditions_of late.now)) (raise_of raise)) }
{
    let row = row_at(source, composite, around);
    let env = Late {
        base: &row,
        results,
    };
    try_all(late, &env)
}
