//! The rows of an answer, until one raises.

ghost use Rattle.std.specs.Prelude.{◌≡◌, [], List, ℕ, IfErr, IfOk, OnOk, false, true};
ghost use Rattle.std.specs.List.{AllByRecursion};
ghost use Rattle.definitions.specs.Table.{Row};
ghost use Rattle.definitions.specs.Arithmetic as arithmetic;
ghost use Rattle.result_lines.specs.Batches.{GivesColumnOf};
ghost use Rattle.result_lines.specs.Faults.{IfRaised};
ghost use Rattle.result_lines.specs.RowAt.{items_of, CanGive};
ghost use Rattle.result_rows.specs.Stores.{kind_of, Holds, IsRaiseOf, Tells, TellsMore, TellsOneMore};

use crate::row_store::RowStore;
use expr::Environment;
use query_tree::Item;
use result_lines::{AnswerFault, RowBatch};
use sqlvalue::Raise;
use std::alloc::{AllocError, Global};

/// The rows of an answer. Once a result column has raised, its exception is kept, and no row comes any more.
#[derive(Drop)]
pub struct ResultRows {
    store: RowStore,
    raised: Option<Raise>,
}

impl ResultRows {
    /// Rows that go to a store, of which none has come.
    pub fn new(store: RowStore) -> ResultRows
        ensures told { (names : List (List ℕ)) → Holds store names [] → Tells names [] [] result }
        ensures store { result.store ≡ store }
    {
        ResultRows {
            store,
            raised: None,
        }
    }

    /// Adds a row, unless a result column has raised.
    pub fn add<S: Environment>(
        &mut self,
        alloc: Global,
        items: &[Item],
        env: &S,
    ) -> Result<(), AllocError>
        requires { AllByRecursion (CanGive (S.environment env.now)) (items_of items.now) }
        ensures told { OnOk result (TellsOneMore (S.environment env.now) (items_of items.now) self.old self.new) }
        ensures kind { kind_of self.new.store ≡ kind_of self.old.store }
    {
        if self.raised.is_some() {
            return Ok(());
        }
        match self.store.add(alloc, items, env) {
            Ok(()) => Ok(()),
            Err(AnswerFault::Raised(raise)) => {
                self.raised = Some(raise);
                Ok(())
            }
            Err(AnswerFault::Memory) => Err(AllocError),
        }
    }

    /// Adds the rows of a batch, whose result columns are columns, unless a result column has raised; or tells that rows are taken one by one.
    pub fn add_batch<B: RowBatch>(
        &mut self,
        alloc: Global,
        items: &[Item],
        batch: &B,
    ) -> Result<bool, AllocError>
        requires { AllByRecursion (GivesColumnOf (B.width batch.now)) (items_of items.now) }
        ensures told { IfOk result (λ taken. taken ≡ true →
            TellsMore (B.environments batch.now) (items_of items.now) self.old self.new) }
        ensures left { IfOk result (λ taken. taken ≡ false → self.new ≡ self.old) }
        ensures kind { kind_of self.new.store ≡ kind_of self.old.store }
    {
        if self.raised.is_some() {
            return Ok(false);
        }
        self.store.add_batch(alloc, items, batch)
    }

    /// All rows, or the exception that was kept.
    pub fn finish(self) -> Result<RowStore, AnswerFault>
        ensures rows { IfOk result (λ store. (names : List (List ℕ)) (rows : List Row) (raises : List arithmetic.Raise) →
            Tells names rows raises self → (raises ≡ []) × Holds store names rows) }
        ensures raised { IfErr result (λ fault. IfRaised fault (IsRaiseOf self)) }
        ensures store { IfOk result (λ store. store ≡ self.store) }
    {
        let ResultRows { store, raised } = self;
        match raised {
            Some(raise) => Err(AnswerFault::Raised(raise)),
            None => Ok(store),
        }
    }
}
