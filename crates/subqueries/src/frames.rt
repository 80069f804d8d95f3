//! The blocks around a block.

ghost use Rattle.std.specs.Prelude.{◌≡◌, ◌∷◌, [], List, OnErr, OnOk, get_or};
ghost use Rattle.definitions.specs.Queries.Evaluation.{Combination};
ghost use Rattle.subqueries.specs.Framed.{combination_in, combinations_in};

use filters::{BlockSource, Composite, OuterRows};
use query_tree::BlockColumn;
use smallvec::SmallVec;
use sqlvalue::Value;
use std::alloc::{AllocError, Global};

/// The tables of most blocks: a combination of so many rows takes no memory beside its frame.
const FEW_TABLES: usize = 4;

/// A block that is evaluated, and the combination of its rows that is at hand, by their numbers.
#[derive(Drop)]
struct Frame<'s> {
    source: &'s BlockSource<'s>,
    combination: SmallVec<u32, FEW_TABLES>,
}

/// Is told of the work on a query, for people who wait for it. Nothing is promised of it (own).
pub trait WorkWatch {
    /// A step more is done: some rows of a table are looked at, say.
    fn note_work(&self);
}

/// The blocks around a block, the outermost first, with a composite of rows of each (own; the candidate tuples of the blocks of
/// higher level in Selinger et al. 1979, section 6), and who is told of the work in them.
#[derive(Drop)]
pub struct Frames<'s, W: WorkWatch> {
    frames: Vec<Frame<'s>>,
    watch: W,
}

impl<'s, W: WorkWatch> OuterRows for Frames<'s, W> {
    ghost use Rattle.subqueries.specs.Framed.{combinations_in};

    ghost combinations = { combinations_in };

    fn cell(&self, between: usize, column: BlockColumn) -> Value<'_> {
        let count = self.frames.len();
        if between >= count {
            return Value::Null;
        }
        let frame = &self.frames[count - 1 - between];
        let row = row_number(frame.combination.as_slice(), column.table);
        frame.source.cell(column, row)
    }

    fn note_work(&self) {
        self.watch.note_work();
    }
}

impl<'s, W: WorkWatch> Frames<'s, W> {
    /// There is no block around.
    pub fn new(alloc: Global, watch: W) -> Frames<'s, W>
        ensures { combinations_in result ≡ [] }
    {
        Frames {
            frames: Vec::new(alloc),
            watch,
        }
    }

    /// Who is told of the work in them.
    pub fn watch(&self) -> &W {
        &self.watch
    }

    /// Goes into a block, at a composite of its rows.
    pub fn enter(
        &mut self,
        alloc: Global,
        source: &'s BlockSource<'s>,
        composite: &Composite,
    ) -> Result<(), AllocError>
        ensures entered { OnOk result (combinations_in self.new
            ≡ combination_in source.now composite.now ∷ combinations_in self.old) }
        ensures unchanged { OnErr result (combinations_in self.new ≡ combinations_in self.old) }
    {
        let rows = composite.numbers(source.table_count());
        let combination = SmallVec::from_slice(alloc, rows)?;
        self.frames.push(Frame {
            source,
            combination,
        })?;
        Ok(())
    }

    /// Leaves the block that was gone into last.
    pub fn leave(&mut self)
        ensures { (first : Combination) (others : List Combination) → combinations_in self.old ≡ first ∷ others →
            combinations_in self.new ≡ others }
    {
        let _frame = self.frames.pop();
    }
}

/// The number of a table's row in a composite.
fn row_number(rows: &[u32], table: usize) -> usize
    ensures { result ≡ get_or rows.now table 0 }
{
    match rows.get(table) {
        Some(row) => *row as usize,
        None => 0,
    }
}
