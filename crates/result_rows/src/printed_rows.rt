//! Rows that are printed as they come.

ghost use Rattle.std.specs.Prelude.{◌≡◌, ◌++◌, ◌∷◌, [], Contains, List, ℕ, IfErr, IfOk, OnOk, map};
ghost use Rattle.std.specs.List.{AllByRecursion};
ghost use Rattle.definitions.specs.Table.{Row};
ghost use Rattle.definitions.specs.Printing.{table_text};
ghost use Rattle.definitions.specs.Queries.BoundBlock as b;
ghost use Rattle.result_lines.specs.Batches.{rows_in, GivesColumnOf};
ghost use Rattle.result_lines.specs.Faults.{IfRaised};
ghost use Rattle.result_rows.specs.ResultRows.{HasPrinted};
ghost use Rattle.result_lines.specs.RowAt.{items_of, row_in, row_raises_in, CanGive};

use expr::Environment;
use query_tree::Item;
use result_lines::{AnswerFault, RowBatch, write_count, write_header, write_row, write_rows};
use std::alloc::{AllocError, Global};

/// The header and a line for each row so far, in the order in which they came.
#[derive(Drop)]
pub struct PrintedRows {
    text: Vec<u8>,
    count: u64,
}

impl PrintedRows {
    /// The header, and no row behind it yet.
    pub fn new(alloc: Global, items: &[Item]) -> Result<PrintedRows, AllocError>
        ensures { IfOk result (HasPrinted (map (λ (i : b.Item). i.name) (items_of items.now)) []) }
    {
        let mut text = Vec::new(alloc);
        write_header(&mut text, items)?;
        Ok(PrintedRows { text, count: 0 })
    }

    /// Adds a row. There is no room for more than 2^64 - 1 of them.
    pub fn add<S: Environment>(&mut self, items: &[Item], env: &S) -> Result<(), AnswerFault>
        requires { AllByRecursion (CanGive (S.environment env.now)) (items_of items.now) }
        ensures added { OnOk result ((names : List (List ℕ)) (rows : List Row) → HasPrinted names rows self.old →
            HasPrinted names (rows ++ row_in (S.environment env.now) (items_of items.now) ∷ []) self.new) }
        ensures quiet { OnOk result (row_raises_in (S.environment env.now) (items_of items.now) ≡ []) }
        ensures raised { IfErr result (λ fault. IfRaised fault
            (Contains (row_raises_in (S.environment env.now) (items_of items.now)))) }
    {
        if self.count == u64::MAX {
            return Err(AnswerFault::Memory);
        }
        write_row(&mut self.text, items, env)?;
        self.count += 1;
        Ok(())
    }

    /// Adds the rows of a batch, whose result columns are columns. There is no room for more than 2^64 - 1 rows.
    pub fn add_batch<B: RowBatch>(&mut self, items: &[Item], batch: &B) -> Result<(), AllocError>
        requires { AllByRecursion (GivesColumnOf (B.width batch.now)) (items_of items.now) }
        ensures { OnOk result ((names : List (List ℕ)) (rows : List Row) → HasPrinted names rows self.old →
            HasPrinted names (rows ++ rows_in (items_of items.now) (B.environments batch.now)) self.new) }
    {
        let count = batch.len() as u64;
        if count > u64::MAX - self.count {
            return Err(AllocError);
        }
        write_rows(&mut self.text, items, batch)?;
        self.count += count;
        Ok(())
    }

    /// The text that is printed: the header, the rows and how many there are.
    pub fn end(self) -> Result<Vec<u8>, AllocError>
        ensures { IfOk result (λ text. (names : List (List ℕ)) (rows : List Row) → HasPrinted names rows self →
            text.items ≡ table_text names rows) }
    {
        let PrintedRows { mut text, count } = self;
        write_count(&mut text, count)?;
        Ok(text)
    }
}
