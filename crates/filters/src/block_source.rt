//! A block whose rows are read.

ghost use Rattle.std.specs.Prelude.{ℕ, ◌≡◌, ◌≤◌, ◌<◌, [], IfOk, IfSome, Some, get_or, length, map};
ghost use Rattle.std.specs.List.{AllByRecursion};
ghost use Rattle.definitions.specs.Limits.{most_from_tables};
ghost use Rattle.definitions.specs.Value.{Null};
ghost use Rattle.definitions.specs.Invariant.{IsDatabase};
ghost use Rattle.definitions.specs.Binding.Formed.{IsFormedSomewhere};
ghost use Rattle.definitions.specs.Estimates.BlockTables.{index_columns, table_at};
ghost use Rattle.definitions.specs.Queries.Conjuncts as queries;
ghost use Rattle.sqlvalue.specs.Meaning.{value_of};
ghost use Rattle.columns.specs.Starts.{value_in};
ghost use Rattle.query_tree.specs.Bound.{block_of};
ghost use Rattle.predicates.specs.Parts.{condition_in, AreConjunctsOf};
ghost use Rattle.definitions_execution.specs.OfBlock.{index_run, rows_in};
ghost use Rattle.filters.specs.Inside.{AreTablesOf, tables_of};
ghost use Rattle.filters.specs.Sources.{block_in, IsIndexOf};

use catalog::{Database, Index, Table};
use columns::{Column, NumberColumn};
use definitions::indexes::run_is_one;
use predicates::Conjunct;
use query_tree::{Block, BlockColumn};
use sqlvalue::Value;
use std::alloc::{AllocError, Global};
use std::marker::Model;

/// A block of a database, whose rows are read.
#[derive(Drop)]
pub struct BlockSource<'a> {
    database: &'a Database,
    block: &'a Block,
    tables: Vec<&'a Table>,
    conjuncts: Vec<Conjunct<'a>>,
}

impl<'a> Model for BlockSource<'a> {
    ghost use Rattle.std.specs.Coded.{codes};
    ghost use Rattle.query_tree.specs.contracts.block.Block as b;
    ghost use Rattle.filters.specs.Sources.{BlockSource};

    ghost Value = { BlockSource };

    ghost coded = { Prim.hlevel (codes, b.the_row.coded) };

    ghost use Rattle.filters.specs.Inside.{source_of, IsSource};

    ghost view = { source_of };

    ghost invariant = { IsSource };
}

impl<'a> BlockSource<'a> {
    /// The rows that a block of a database reads, with the conjuncts of its WHERE. It fails where memory runs out.
    pub fn new(
        alloc: Global,
        database: &'a Database,
        block: &'a Block,
        conjuncts: Vec<Conjunct<'a>>,
    ) -> Result<BlockSource<'a>, AllocError>
        requires formed { IsFormedSomewhere database.now (block_of block.now) }
        requires conjuncts { AreConjunctsOf (block_of block.now) conjuncts.items }
        ensures database { IfOk result (λ s. s.database ≡ database.now) }
        ensures block { IfOk result (λ s. s.block ≡ block.now) }
    {
        // A look at its tables tells what holds of a database.
        let _tables = database.tables();
        let tables = block_tables(alloc, database, block)?;
        Ok(BlockSource {
            database,
            block,
            tables,
            conjuncts,
        })
    }

    /// How many tables the block has.
    pub fn table_count(&self) -> usize
        ensures exact { result ≡ length (block_in self.now).tables }
        ensures few { result ≤ most_from_tables }
    {
        self.tables.len()
    }

    /// A table, by its number in the order of FROM.
    pub fn table(&self, number: usize) -> &Table
        requires { number < length (block_in self.now).tables }
        ensures exact { table_at self.now.database (block_in self.now) number ≡ Some result.now }
        ensures valid { IsDatabase self.now.database }
    {
        self.tables[number]
    }

    /// An index of a table, both by number.
    pub fn index(&self, table: usize, number: usize) -> &Index
        requires there { IsIndexOf self.now table number }
        ensures columns { result.now.index.columns ≡ index_columns self.now.database (block_in self.now) table number }
        ensures run { result.now.entries ≡ index_run self.now.database (block_in self.now) table number }
        ensures valid { IsDatabase self.now.database }
    {
        run_is_one();
        self.table(table).index(number)
    }

    /// The conjuncts, in text order.
    pub fn conjuncts(&self) -> &[Conjunct<'_>]
        ensures { map condition_in result.now ≡ queries.conjuncts (block_in self.now) }
    {
        self.conjuncts.as_slice()
    }

    /// A column of numbers, in which each row has its value at its own place.
    pub fn numbers(&self, column: BlockColumn) -> Option<&NumberColumn>
        ensures { IfSome result (λ numbers. (row : ℕ) → value_in numbers.now row ≡ get_or (get_or (rows_in
            self.now.database (block_in self.now) column.table) row []) column.number Null) }
    {
        if column.table >= self.table_count() {
            return None;
        }
        let table = self.table(column.table);
        if column.number >= table.width() {
            return None;
        }
        match table.cells(column.number) {
            Column::Numbers(numbers) => Some(numbers),
            Column::Texts(_) => None,
        }
    }

    /// The value of a row, by its number, in a column. Where there is none, it is null (own).
    pub fn cell(&self, column: BlockColumn, row: usize) -> Value<'_>
        ensures { value_of result ≡ get_or (get_or (rows_in self.now.database (block_in self.now) column.table) row
            []) column.number Null }
    {
        if column.table >= self.table_count() {
            return Value::Null;
        }
        let table = self.table(column.table);
        if row >= table.len() || column.number >= table.width() {
            return Value::Null;
        }
        table.cell(row, column.number)
    }
}

/// The tables of a block, in the order of FROM.
fn block_tables<'a>(
    alloc: Global,
    database: &'a Database,
    block: &Block,
) -> Result<Vec<&'a Table>, AllocError>
    requires there { AllByRecursion (λ number. number < length database.now) (block_of block.now).tables }
    ensures exact { IfOk result (λ tables. AreTablesOf database.now (block_of block.now) (tables_of tables.items)) }
    ensures count { IfOk result (λ tables. length tables.items ≡ length (block_of block.now).tables) }
{
    let mut tables = Vec::new(alloc);
    'numbers: for number in &block.tables {
        tables.push(&database.tables()[*number])?;
    }
    Ok(tables)
}
