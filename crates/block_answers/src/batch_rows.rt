//! Rows of a batch, of which a column is read at a time.

ghost use Rattle.std.specs.Prelude.{◌≡◌, ◌≤◌, [], get_or, length, map};
ghost use Rattle.definitions.specs.Value.{Null};
ghost use Rattle.definitions_execution.specs.OfBlock.{rows_in};
ghost use Rattle.filters.specs.Sources.{block_in};
ghost use Rattle.block_answers.specs.Groups.{environments};
ghost use Rattle.block_answers.specs.Runs.{between, combinations_at};

use columns::NumberColumn;
use filters::{BlockSource, OuterRows};
use query_tree::BlockColumn;
use result_lines::RowBatch;
use scans::Batch;
use sqlvalue::Value;

/// The rows of a batch from one place up to another.
#[derive(Drop)]
pub(crate) struct BatchRows<'a, A: OuterRows> {
    pub source: &'a BlockSource<'a>,
    pub batch: &'a Batch,
    pub first: usize,
    pub end: usize,
    pub around: &'a A,
    pub ghost wide: { batch.now.width ≡ length (block_in source.now).tables },
    pub ghost forward: { first ≤ end },
    pub ghost within: { end ≤ length batch.now.items },
}

impl<'a, A: OuterRows> RowBatch for BatchRows<'a, A> {
    ghost width = { λ r. length (block_in r.source.now).tables };

    ghost environments = { λ r. environments r.source.now (A.combinations r.around.now)
        (combinations_at r.source.now (A.combinations r.around.now) (between r.first r.end r.batch.now.items)) };

    ghost value_in = { λ r column row. get_or (get_or (rows_in r.source.now.database (block_in r.source.now)
        column.table) row []) column.number Null };

    fn len(&self) -> usize {
        // A look at the length tells that it is small.
        let _len = self.batch.len();
        self.end - self.first
    }

    fn rows(&self, table: usize) -> &[u32] {
        let _len = self.batch.len();
        &self.batch.column(table)[self.first..self.end]
    }

    fn numbers(&self, column: BlockColumn) -> Option<&NumberColumn> {
        self.source.numbers(column)
    }

    fn cell(&self, column: BlockColumn, row: usize) -> Value<'_> {
        self.source.cell(column, row)
    }
}
