//! What is told of an inner block, as far as its composites have come.

ghost use Rattle.std.specs.Prelude.{ℕ, ◌≡◌, ◌++◌, ◌∷◌, [], List, IfOk, OnOk, length, map, true};
ghost use Rattle.definitions.specs.Arithmetic.{Meaning};
ghost use Rattle.definitions.specs.Table.{Row};
ghost use Rattle.definitions.specs.Queries.Answer.{block_answer};
ghost use Rattle.definitions.specs.Queries.Conjuncts.{late_conjuncts};
ghost use Rattle.definitions.specs.Queries.Evaluation.{Combination};
ghost use Rattle.definitions_execution.specs.OfBlock.{combination_of};
ghost use Rattle.definitions_execution.specs.Stored as stored;
ghost use Rattle.definitions_answers.specs.Taking.{Says};
ghost use Rattle.definitions_answers.specs.Told.{Tells};
ghost use Rattle.query_tree.specs.Bound.{block_of};
ghost use Rattle.filters.specs.Sources.{block_in, BlockSource as Source};
ghost use Rattle.subqueries.specs.Found.{said_in};
ghost use Rattle.subqueries.specs.Telling.{told_in};
ghost use Rattle.block_answers.specs.BlockRows.{store_in, IsWellFor};
ghost use Rattle.block_answers.specs.Groups.{seen, AreTyped};
ghost use Rattle.block_answers.specs.KeptRows.{asks_existence, rows_in, TellsKept};
ghost use Rattle.block_answers.specs.Ready.{AreReady, CanAnswer};
ghost use Rattle.result_rows.specs.Stores.{keeping, kind_of};
ghost use Rattle.block_answers.specs.Telling.{context_with};

use crate::block_rows::BlockRows;
use filters::{BlockSource, Composite, OuterRows};
use query_tree::Block;
use result_lines::AnswerFault;
use scans::Batch;
use sqlvalue::Raise;
use std::alloc::{AllocError, Global};
use subqueries::{FirstValues, Told};

/// The rows of an inner block. Once a late conjunct has raised, its exception is kept, and no composite is taken any more.
#[derive(Drop)]
pub struct KeptRows<'s> {
    rows: BlockRows<'s>,
    late: Option<Raise>,
}

impl<'s> KeptRows<'s> {
    /// The rows of an inner block, of which no composite has come; all that is asked may be whether it has a row.
    pub fn new(alloc: Global, block: &'s Block, existence: bool) -> Result<KeptRows<'s>, AllocError>
        ensures told { IfOk result (λ kept. (source : Source) (outer : List Combination)
            (inner : ℕ → List Combination → Meaning (List Row)) → source.block ≡ block.now →
            TellsKept source outer inner [] kept) }
        ensures well { IfOk result (λ kept. (source : Source) (outer : List Combination) →
            source.block ≡ block.now → IsWellFor source outer (rows_in kept)) }
        ensures kind { IfOk result (λ kept. kind_of (store_in (rows_in kept))
            ≡ keeping existence (block_of block.now).distinct) }
    {
        Ok(KeptRows {
            rows: BlockRows::to_keep(alloc, block, existence)?,
            late: None,
        })
    }

    /// Takes a composite of which the late conjuncts say this.
    pub fn take<A: OuterRows>(
        &mut self,
        alloc: Global,
        source: &BlockSource<'_>,
        block: &'s Block,
        late: Result<bool, Raise>,
        composite: &Composite,
        around: &A,
    ) -> Result<(), AllocError>
        requires block { block.now ≡ source.now.block }
        requires can { CanAnswer source.now (A.combinations around.now) }
        requires well { IsWellFor source.now (A.combinations around.now) (rows_in self.old) }
        ensures told { OnOk result ((inner : ℕ → List Combination → Meaning (List Row)) (cs : List Combination) →
            AreTyped source.now (A.combinations around.now) cs →
            Says (context_with source.now (A.combinations around.now) inner) (block_in source.now)
            (seen source.now (A.combinations around.now) composite.now) (said_in late) →
            TellsKept source.now (A.combinations around.now) inner cs self.old →
            TellsKept source.now (A.combinations around.now) inner (cs ++ seen source.now
            (A.combinations around.now) composite.now ∷ []) self.new) }
        ensures well { OnOk result (IsWellFor source.now (A.combinations around.now) (rows_in self.new)) }
        ensures kind { kind_of (store_in (rows_in self.new)) ≡ kind_of (store_in (rows_in self.old)) }
    {
        if self.late.is_some() {
            return Ok(());
        }
        match late {
            Err(raise) => {
                self.late = Some(raise);
                Ok(())
            }
            Ok(true) => self.rows.add(alloc, source, block, composite, around),
            Ok(false) => Ok(()),
        }
    }

    /// Takes the composites of a batch, where there is no late conjunct.
    pub fn take_batch<A: OuterRows>(
        &mut self,
        alloc: Global,
        source: &BlockSource<'_>,
        block: &'s Block,
        batch: &Batch,
        around: &A,
    ) -> Result<(), AllocError>
        requires block { block.now ≡ source.now.block }
        requires can { CanAnswer source.now (A.combinations around.now) }
        requires none { late_conjuncts (block_in source.now) ≡ [] }
        requires well { IsWellFor source.now (A.combinations around.now) (rows_in self.old) }
        requires wide { batch.now.width ≡ length (block_in source.now).tables }
        ensures told { OnOk result ((inner : ℕ → List Combination → Meaning (List Row)) (cs : List Combination) →
            AreTyped source.now (A.combinations around.now) cs →
            TellsKept source.now (A.combinations around.now) inner cs self.old →
            TellsKept source.now (A.combinations around.now) inner (cs ++ map (combination_of source.now.database
            (block_in source.now)) batch.now.items) self.new) }
        ensures well { OnOk result (IsWellFor source.now (A.combinations around.now) (rows_in self.new)) }
        ensures kind { kind_of (store_in (rows_in self.new)) ≡ kind_of (store_in (rows_in self.old)) }
    {
        if self.late.is_some() {
            return Ok(());
        }
        self.rows.add_batch(alloc, source, block, batch, around)
    }

    /// What is told of the block, once all composites have come.
    pub fn end<A: OuterRows>(
        self,
        alloc: Global,
        source: &BlockSource<'_>,
        block: &Block,
        around: &A,
    ) -> Result<Told, AllocError>
        requires block { block.now ≡ source.now.block }
        requires can { CanAnswer source.now (A.combinations around.now) }
        requires well { IsWellFor source.now (A.combinations around.now) (rows_in self) }
        requires kind { kind_of (store_in (rows_in self)) ≡ keeping (asks_existence self) (block_in source.now).distinct }
        ensures { IfOk result (λ told. (inner : ℕ → List Combination → Meaning (List Row))
            (all : List stored.Composite) → AreReady source.now (A.combinations around.now) all →
            TellsKept source.now (A.combinations around.now) inner
            (map (combination_of source.now.database (block_in source.now)) all) self.entry →
            Tells (asks_existence self.entry)
            (block_answer (context_with source.now (A.combinations around.now) inner) (block_in source.now))
            (told_in told)) }
    {
        let KeptRows { rows, late } = self;
        if let Some(raise) = late {
            return Ok(Told::Raised(raise));
        }
        match rows.finish(alloc, source, block, around) {
            Ok(store) => {
                let sorted = FirstValues::new(alloc, store.into_values())?;
                Ok(Told::Values(sorted))
            }
            Err(AnswerFault::Raised(raise)) => Ok(Told::Raised(raise)),
            Err(AnswerFault::Memory) => Err(AllocError),
        }
    }
}
