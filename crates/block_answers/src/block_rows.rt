//! The rows that a block makes of the combinations that its WHERE keeps.

ghost use Rattle.std.specs.Prelude.{◌≡◌, ◌++◌, ◌∷◌, [], List, IfErr, IfOk, OnOk, false, is_some, length, map, not, true};
ghost use Rattle.std.specs.List.{list_all};
ghost use Rattle.definitions.specs.Estimates.Orders.{sort_key};
ghost use Rattle.definitions.specs.Queries.Evaluation.{Combination};
ghost use Rattle.definitions_execution.specs.OfBlock.{combination_of};
ghost use Rattle.query_tree.specs.Bound.{block_of, key_of};
ghost use Rattle.result_lines.specs.Faults.{IfRaised};
ghost use Rattle.result_lines.specs.RowAt.{items_of};
ghost use Rattle.filters.specs.Sources.{block_in, BlockSource as Source};
ghost use Rattle.block_answers.specs.BlockRows.{comes_in_order, store_in, HasRowsOf, IsWellFor, MayRaiseOn, TellsOf};
ghost use Rattle.block_answers.specs.Groups.{seen, AreTyped};
ghost use Rattle.block_answers.specs.Ready.{CanAnswer};
ghost use Rattle.result_rows.specs.Stores.{keeping, kind_of, printing, Holds};
ghost use Rattle.block_answers.specs.Telling.{names_of};

use crate::batch_rows::BatchRows;
use crate::block_row::row_at;
use crate::column_functions::are_of_columns;
use crate::group_rows::GroupRows;
use filters::{BlockSource, Composite, OuterRows};
use interesting_orders::is_grouped;
use predicates::column_of;
use query_tree::{Block, Item, Key};
use result_lines::{AnswerFault, are_columns_of};
use result_rows::{ResultRows, RowStore};
use scans::Batch;
use std::alloc::{AllocError, Global};

/// The rows of a block, as far as its combinations have come: one of each, or one of each group of them.
#[derive(Drop)]
pub enum BlockRows<'s> {
    Plain(ResultRows),
    Grouped(Box<GroupRows<'s>>),
}

impl<'s> BlockRows<'s> {
    /// Rows that are printed: as they come where the plan gives them in order, and only the others are kept to be put in order.
    pub fn to_print(alloc: Global, block: &'s Block) -> Result<BlockRows<'s>, AllocError>
        ensures told { IfOk result (λ rows. (source : Source) (outer : List Combination) →
            source.block ≡ block.now → TellsOf source outer [] rows) }
        ensures well { IfOk result (λ rows. (source : Source) (outer : List Combination) →
            source.block ≡ block.now → IsWellFor source outer rows) }
        ensures kind { IfOk result (λ rows. kind_of (store_in rows)
            ≡ printing (not (comes_in_order (block_of block.now))) (block_of block.now).distinct) }
    {
        let store = RowStore::to_print(alloc, &block.items, !has_its_order(block), block.distinct)?;
        BlockRows::new(alloc, block, store)
    }

    /// Rows of which the first values are kept, or whether there is any, if that is all that is asked.
    pub fn to_keep(
        alloc: Global,
        block: &'s Block,
        existence: bool,
    ) -> Result<BlockRows<'s>, AllocError>
        ensures told { IfOk result (λ rows. (source : Source) (outer : List Combination) →
            source.block ≡ block.now → TellsOf source outer [] rows) }
        ensures well { IfOk result (λ rows. (source : Source) (outer : List Combination) →
            source.block ≡ block.now → IsWellFor source outer rows) }
        ensures kind { IfOk result (λ rows. kind_of (store_in rows)
            ≡ keeping existence (block_of block.now).distinct) }
    {
        let store = RowStore::to_keep(alloc, existence, block.distinct);
        BlockRows::new(alloc, block, store)
    }

    /// Rows that go to a store, of which none has come.
    fn new(alloc: Global, block: &'s Block, store: RowStore) -> Result<BlockRows<'s>, AllocError>
        ensures told { IfOk result (λ rows. (source : Source) (outer : List Combination) →
            source.block ≡ block.now → Holds store (names_of source) [] → TellsOf source outer [] rows) }
        ensures well { IfOk result (λ rows. (source : Source) (outer : List Combination) →
            source.block ≡ block.now → IsWellFor source outer rows) }
        ensures store { IfOk result (λ rows. store_in rows ≡ store) }
    {
        if is_grouped(block) {
            let rows = GroupRows::new(alloc, block, store)?;
            Ok(BlockRows::Grouped(Box::new(alloc, rows)?))
        } else {
            Ok(BlockRows::Plain(ResultRows::new(store)))
        }
    }

    /// Takes a combination that WHERE keeps, by its composite.
    pub fn add<A: OuterRows>(
        &mut self,
        alloc: Global,
        source: &BlockSource<'_>,
        block: &'s Block,
        composite: &Composite,
        around: &A,
    ) -> Result<(), AllocError>
        requires block { block.now ≡ source.now.block }
        requires can { CanAnswer source.now (A.combinations around.now) }
        requires well { IsWellFor source.now (A.combinations around.now) self.old }
        ensures well { OnOk result (IsWellFor source.now (A.combinations around.now) self.new) }
        ensures told { OnOk result ((cs : List Combination) → AreTyped source.now (A.combinations around.now) cs →
            TellsOf source.now (A.combinations around.now) cs self.old →
            TellsOf source.now (A.combinations around.now) (cs ++ seen source.now (A.combinations around.now)
            composite.now ∷ []) self.new) }
        ensures kind { kind_of (store_in self.new) ≡ kind_of (store_in self.old) }
    {
        match self {
            BlockRows::Plain(rows) => {
                rows.add(alloc, &block.items, &row_at(source, composite, around))
            }
            BlockRows::Grouped(groups) => groups.add(alloc, source, block, composite, around),
        }
    }

    /// Takes the combinations of a batch, which WHERE keeps.
    pub fn add_batch<A: OuterRows>(
        &mut self,
        alloc: Global,
        source: &BlockSource<'_>,
        block: &'s Block,
        batch: &Batch,
        around: &A,
    ) -> Result<(), AllocError>
        requires block { block.now ≡ source.now.block }
        requires can { CanAnswer source.now (A.combinations around.now) }
        requires well { IsWellFor source.now (A.combinations around.now) self.old }
        requires wide { batch.now.width ≡ length (block_in source.now).tables }
        ensures well { OnOk result (IsWellFor source.now (A.combinations around.now) self.new) }
        ensures told { OnOk result ((cs : List Combination) → AreTyped source.now (A.combinations around.now) cs →
            TellsOf source.now (A.combinations around.now) cs self.old →
            TellsOf source.now (A.combinations around.now) (cs ++ map (combination_of source.now.database
            (block_in source.now)) batch.now.items) self.new) }
        ensures kind { kind_of (store_in self.new) ≡ kind_of (store_in self.old) }
    {
        if self.add_columns(alloc, source, block, batch, around)? {
            return Ok(());
        }
        match self {
            BlockRows::Grouped(groups) if are_of_columns(&block.functions, batch.width()) => {
                groups.add_batch(alloc, source, block, batch, around)
            }
            _ => self.add_each(alloc, source, block, batch, around),
        }
    }

    /// Takes them at once where rows are printed as they come and their result columns are columns of tables; or tells that it takes none.
    fn add_columns<A: OuterRows>(
        &mut self,
        alloc: Global,
        source: &BlockSource<'_>,
        block: &'s Block,
        batch: &Batch,
        around: &A,
    ) -> Result<bool, AllocError>
        requires block { block.now ≡ source.now.block }
        requires well { IsWellFor source.now (A.combinations around.now) self.old }
        requires wide { batch.now.width ≡ length (block_in source.now).tables }
        ensures well { OnOk result (IsWellFor source.now (A.combinations around.now) self.new) }
        ensures told { IfOk result (λ taken. taken ≡ true → (cs : List Combination) →
            TellsOf source.now (A.combinations around.now) cs self.old →
            TellsOf source.now (A.combinations around.now) (cs ++ map (combination_of source.now.database
            (block_in source.now)) batch.now.items) self.new) }
        ensures left { IfOk result (λ taken. taken ≡ false → self.new ≡ self.old) }
        ensures kind { kind_of (store_in self.new) ≡ kind_of (store_in self.old) }
    {
        match self {
            BlockRows::Plain(rows) if are_columns_of(&block.items, batch.width()) => {
                let read = BatchRows {
                    source,
                    batch,
                    first: 0,
                    end: batch.len(),
                    around,
                };
                rows.add_batch(alloc, &block.items, &read)
            }
            _ => Ok(false),
        }
    }

    /// Takes them one after another.
    fn add_each<A: OuterRows>(
        &mut self,
        alloc: Global,
        source: &BlockSource<'_>,
        block: &'s Block,
        batch: &Batch,
        around: &A,
    ) -> Result<(), AllocError>
        requires block { block.now ≡ source.now.block }
        requires can { CanAnswer source.now (A.combinations around.now) }
        requires well { IsWellFor source.now (A.combinations around.now) self.old }
        requires wide { batch.now.width ≡ length (block_in source.now).tables }
        ensures well { OnOk result (IsWellFor source.now (A.combinations around.now) self.new) }
        ensures told { OnOk result ((cs : List Combination) → AreTyped source.now (A.combinations around.now) cs →
            TellsOf source.now (A.combinations around.now) cs self.old →
            TellsOf source.now (A.combinations around.now) (cs ++ map (combination_of source.now.database
            (block_in source.now)) batch.now.items) self.new) }
        ensures kind { kind_of (store_in self.new) ≡ kind_of (store_in self.old) }
    {
        'places: for place in 0..batch.len() {
            self.add(alloc, source, block, &batch.get(place), around)?;
        }
        Ok(())
    }

    /// All rows, once no combination comes any more; or an exception.
    pub fn finish<A: OuterRows>(
        self,
        alloc: Global,
        source: &BlockSource<'_>,
        block: &Block,
        around: &A,
    ) -> Result<RowStore, AnswerFault>
        requires block { block.now ≡ source.now.block }
        requires can { CanAnswer source.now (A.combinations around.now) }
        requires well { IsWellFor source.now (A.combinations around.now) self }
        ensures rows { IfOk result (λ store. (cs : List Combination) →
            AreTyped source.now (A.combinations around.now) cs →
            TellsOf source.now (A.combinations around.now) cs self.entry →
            HasRowsOf source.now (A.combinations around.now) cs store) }
        ensures raised { IfErr result (λ fault. IfRaised fault (λ raise. (cs : List Combination) →
            AreTyped source.now (A.combinations around.now) cs →
            TellsOf source.now (A.combinations around.now) cs self.entry →
            MayRaiseOn source.now (A.combinations around.now) cs raise)) }
        ensures kind { IfOk result (λ store. kind_of store ≡ kind_of (store_in self.entry)) }
    {
        match self {
            BlockRows::Plain(rows) => rows.finish(),
            BlockRows::Grouped(groups) => {
                Box::into_inner(groups).finish(alloc, source, block, around)
            }
        }
    }
}

/// Whether the rows of a block come in the order of ORDER BY: those of groups where there is none, and others where all
/// keys are columns of tables, since the plan gives that order.
fn has_its_order(block: &Block) -> bool
    ensures { result ≡ comes_in_order (block_of block.now) }
{
    if is_grouped(block) {
        block.order.is_empty()
    } else {
        are_columns(block)
    }
}

/// Whether all keys of ORDER BY are columns of tables.
fn are_columns(block: &Block) -> bool
    ensures { result
        ≡ list_all (λ key. is_some (sort_key (block_of block.now).items key)) (block_of block.now).order }
{
    'keys: for key in &block.order {
        if !is_column(&block.items, *key) {
            return false;
        }
    }
    true
}

/// Whether the result column of a key is a column of a table.
fn is_column(items: &[Item], key: Key) -> bool
    ensures { result ≡ is_some (sort_key (items_of items.now) (key_of key)) }
{
    match items.get(key.item) {
        Some(item) => column_of(&item.value).is_some(),
        None => false,
    }
}
