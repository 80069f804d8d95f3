//! Blocks of a statement that are ready to be evaluated.

ghost use Rattle.std.specs.Prelude.{◌≡◌, ℕ, IfOk, IsPermutation, Some, flat_map, map, nat_eq, slice_get};
ghost use Rattle.std.specs.List.{list_any, AllByRecursion};
ghost use Rattle.definitions.specs.Binding.Answerable.{IsAnswerable};
ghost use Rattle.definitions.specs.Binding.Formed.{IsFormedSomewhere};
ghost use Rattle.definitions.specs.Estimates.BlockSpace.{space_of};
ghost use Rattle.definitions.specs.Estimates.Version.{current_version};
ghost use Rattle.definitions.specs.Plans.PlanSpace.{GivesRequired, InSpace};
ghost use Rattle.definitions.specs.Queries.BoundBlock.{Blocks, Block as BoundBlock};
ghost use Rattle.definitions.specs.Queries.Conjuncts.{blocks_of, late_conjuncts};
ghost use Rattle.definitions_answers.specs.Parameters.{parameters as parameters_of};
ghost use Rattle.definitions_answers.specs.Seen.{seen_blocks};
ghost use Rattle.query_tree.specs.Bound.{block_of};
ghost use Rattle.plan_space.specs.BlockPlans.{AreLeastOf};
ghost use Rattle.plan_space.specs.Parts.{AreConjunctsOf};
ghost use Rattle.plan_space.specs.Planned.{space_in};
ghost use Rattle.plan_tree.specs.Plans.{plan_of};
ghost use Rattle.filters.specs.Sources.{block_in};
ghost use Rattle.block_answers.specs.Views.{conditions_of};
ghost use Rattle.subqueries.specs.BlockText.{Rising};
ghost use Rattle.subqueries.specs.OuterColumns.{outer_columns_of};
ghost use Rattle.executor.specs.declared.ready_block.ReadyBlock.{ReadyBlock as Ready};
ghost use Rattle.executor.specs.ReadyBlocks.{blocks_in, HasLeast, IsReadyIn};

use block_answers::late_conditions;
use catalog::Database;
use filters::BlockSource;
use plan_space::{BlockPlan, Space};
use plan_tree::Plan;
use predicates::Conjunct;
use query_tree::{Block, Condition};
use std::alloc::{AllocError, Global};
use subqueries::{OuterColumn, block_parameters, blocks_asked, blocks_seen};

/// A block with a plan of its space, its late conjuncts, the blocks that these ask for, in rising order, those of which they see the
/// values, and its parameters: all that is made of it once, however often it is evaluated (own).
#[derive(Drop)]
pub struct ReadyBlock<'s> {
    pub source: BlockSource<'s>,
    pub block: &'s Block,
    pub space: Space<'s>,
    pub plan: Plan,
    pub late: Vec<&'s Condition>,
    pub subqueries: Vec<usize>,
    pub seen: Vec<usize>,
    pub parameters: Vec<OuterColumn>,
}

/// What a block asks of the blocks within it, and what it takes from those around it.
#[derive(Drop)]
struct BlockAsks<'s> {
    late: Vec<&'s Condition>,
    subqueries: Vec<usize>,
    seen: Vec<usize>,
    parameters: Vec<OuterColumn>,
}

/// What a block of these conjuncts asks, whose parameters are given. It fails where memory runs out.
fn asks_of<'s>(
    alloc: Global,
    conjuncts: &[Conjunct<'s>],
    parameters: &[OuterColumn],
) -> Result<BlockAsks<'s>, AllocError>
    ensures late { IfOk result (λ asks. (own : BoundBlock) → AreConjunctsOf own conjuncts.now →
        conditions_of asks.late.items ≡ late_conjuncts own) }
    ensures asked { IfOk result (λ asks. IsPermutation (flat_map blocks_of (conditions_of asks.late.items))
        asks.subqueries.items) }
    ensures rising { IfOk result (λ asks. Rising asks.subqueries.items) }
    ensures seen { IfOk result (λ asks. asks.seen.items ≡ flat_map seen_blocks (conditions_of asks.late.items)) }
    ensures parameters { IfOk result (λ asks. asks.parameters.items ≡ parameters.now) }
{
    let late = late_conditions(alloc, conjuncts)?;
    let subqueries = blocks_asked(alloc, &late)?;
    let seen = blocks_seen(alloc, &late)?;
    let mut own = Vec::new(alloc);
    own.extend_from_slice(parameters)?;
    Ok(BlockAsks {
        late,
        subqueries,
        seen,
        parameters: own,
    })
}

impl<'s> ReadyBlock<'s> {
    /// A block with a plan of its space that gives the order that the block asks for, whatever it costs, and the conjuncts of its WHERE. Its
    /// parameters are those that `block_parameters` tells of it (Selinger et al. 1979, sections 4 to 6).
    pub fn new(
        alloc: Global,
        database: &'s Database,
        block: &'s Block,
        chosen: BlockPlan<'s>,
        parameters: &[OuterColumn],
    ) -> Result<ReadyBlock<'s>, AllocError>
        requires formed { IsFormedSomewhere database.now (block_of block.now) }
        requires answerable { IsAnswerable (block_of block.now) }
        requires conjuncts { AreConjunctsOf (block_of block.now) chosen.conjuncts.items }
        requires space { space_in chosen.space ≡ space_of current_version database.now (block_of block.now) }
        requires within { InSpace (space_of current_version database.now (block_of block.now)) (plan_of chosen.plan) }
        requires required { GivesRequired (space_of current_version database.now (block_of block.now)) (plan_of chosen.plan) }
        ensures ready { IfOk result (λ r. (blocks : Blocks) (number : ℕ) →
            outer_columns_of parameters.now ≡ parameters_of blocks number → IsReadyIn database.now blocks number r) }
        ensures block { IfOk result (λ r. block_in r.source ≡ block_of block.now) }
        ensures plan { IfOk result (λ r. plan_of r.plan ≡ plan_of chosen.entry.plan) }
    {
        // A look at its tables tells what holds of a database.
        let _tables = database.tables();
        let BlockPlan {
            conjuncts,
            space,
            plan,
        } = chosen;
        let BlockAsks {
            late,
            subqueries,
            seen,
            parameters,
        } = asks_of(alloc, &conjuncts, parameters)?;
        let source = BlockSource::new(alloc, database, block, conjuncts)?;
        Ok(ReadyBlock {
            source,
            block,
            space,
            plan,
            late,
            subqueries,
            seen,
            parameters,
        })
    }
}

impl ReadyBlock<'_> {
    /// Whether its late conjuncts see the values of the block of a number.
    pub fn sees(&self, number: usize) -> bool
        ensures { result ≡ list_any (λ n. nat_eq n number) self.now.seen.items }
    {
        self.seen.contains(&number)
    }
}

/// The blocks of a statement, each with a least plan, which is given (Selinger et al. 1979, sections 4 to 6).
pub fn ready_blocks<'s>(
    alloc: Global,
    database: &'s Database,
    blocks: &'s [Block],
    plans: Vec<BlockPlan<'s>>,
) -> Result<Vec<ReadyBlock<'s>>, AllocError>
    requires formed { AllByRecursion (IsFormedSomewhere database.now) (map block_of blocks.now) }
    requires answerable { AllByRecursion IsAnswerable (map block_of blocks.now) }
    requires least { AreLeastOf database.now (map block_of blocks.now) plans.items }
    ensures ready { IfOk result (λ query. (number : ℕ) (r : Ready) → slice_get query.items number ≡ Some r →
        IsReadyIn database.now (map block_of blocks.now) number r) }
    ensures blocks { IfOk result (λ query. blocks_in query.items ≡ map block_of blocks.now) }
    ensures least { IfOk result (λ query. AllByRecursion (HasLeast database.now) query.items) }
{
    let parameters = block_parameters(alloc, blocks)?;
    let mut query = Vec::new(alloc);
    let mut rest = plans.into_iter();
    'taking: while let Some(chosen) = rest.next() {
        let number = query.len();
        let block = &blocks[number];
        let ready = ReadyBlock::new(alloc, database, block, chosen, &parameters[number])?;
        query.push(ready)?;
    }
    Ok(query)
}
