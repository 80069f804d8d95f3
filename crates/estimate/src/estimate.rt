//! The estimates of a block.

ghost use Rattle.std.specs.Prelude.{◌≡◌, ◌≤◌, ◌<◌, IfOk, length, map, slice_get, Some};
ghost use Rattle.std.specs.List.{AllByRecursion};
ghost use Rattle.definitions.specs.Limits.{most_from_tables, most_conjuncts};
ghost use Rattle.definitions.specs.Plans.Cost.{limit, selectivity_of};
ghost use Rattle.definitions.specs.Queries.Conjuncts as queries;
ghost use Rattle.definitions.specs.Estimates.BlockTables.{table_at};
ghost use Rattle.definitions.specs.Estimates.Cardinality as spec;
ghost use Rattle.definitions.specs.Estimates.PlanConjuncts as plans;
ghost use Rattle.query_tree.specs.Bound.{block_of};
ghost use Rattle.predicates.specs.Parts.{AreConjunctsOf};
ghost use Rattle.plan_tree.specs.Sets.{set_of};
ghost use Rattle.estimate.specs.Tables.{tables_of, AreTablesOf};
ghost use Rattle.estimate.specs.Estimated.{IsFormed};
ghost use Rattle.estimate.specs.PlanConjuncts.{condition_of_conjunct, conjunct_of};

use crate::plan_conjunct::PlanConjunct;
use crate::planning::plan_conjuncts;
use crate::shares::{left_by_completed, left_by_known};
use crate::table_size::TableSize;
use catalog::{Database, Table};
use plan_tree::{TableSet, saturate, saturating_product};
use predicates::Conjunct;
use query_tree::Block;
use std::alloc::{AllocError, Global};
use std::marker::Model;

/// How many bytes a page has (own).
const PAGE_BYTES: u128 = 4096;

/// What the rows of a block of a database are taken to be. All statistics are at most 10^18.
#[derive(Drop)]
pub struct Estimate<'a> {
    database: &'a Database,
    block: &'a Block,
    tables: Vec<&'a Table>,
    sizes: Vec<TableSize>,
    conjuncts: Vec<PlanConjunct<'a>>,
}

impl<'a> Model for Estimate<'a> {
    ghost use Rattle.std.specs.Coded.{codes};
    ghost use Rattle.query_tree.specs.contracts.block.Block as b;
    ghost use Rattle.estimate.specs.Estimated.{Estimated};

    ghost Value = { Estimated };

    ghost coded = { Prim.hlevel (codes, b.the_row.coded) };

    ghost use Rattle.estimate.specs.Inside.{estimated, IsEstimate};

    ghost view = { estimated };

    ghost invariant = { IsEstimate };
}

impl<'a> Estimate<'a> {
    /// The estimates of a block with the conjuncts of its WHERE, whose statistics are those that the database has now. It fails where
    /// memory runs out.
    pub fn new(
        alloc: Global,
        database: &'a Database,
        block: &'a Block,
        conjuncts: &[Conjunct<'a>],
    ) -> Result<Estimate<'a>, AllocError>
        requires formed { IsFormed database.now (block_of block.now) }
        requires conjuncts { AreConjunctsOf (block_of block.now) conjuncts.now }
        ensures database { IfOk result (λ e. e.database ≡ database.now) }
        ensures block { IfOk result (λ e. e.block ≡ block.now) }
    {
        let tables = block_tables(alloc, database, block)?;
        let sizes = TableSize::all(alloc, &tables)?;
        let conjuncts = plan_conjuncts(alloc, &tables, conjuncts)?;
        Ok(Estimate {
            database,
            block,
            tables,
            sizes,
            conjuncts,
        })
    }

    /// The bound block whose rows and pages are estimated.
    pub fn block(&self) -> &Block
        ensures { result.now ≡ self.now.block }
    {
        self.block
    }

    /// How many tables the block has.
    pub fn table_count(&self) -> usize
        ensures exact { result ≡ length (block_of self.now.block).tables }
        ensures few { result ≤ most_from_tables }
    {
        self.tables.len()
    }

    /// The tables, in the order of FROM.
    pub fn tables(&self) -> &[&Table]
        ensures { AreTablesOf self.now.database (block_of self.now.block) (tables_of result.now) }
    {
        self.tables.as_slice()
    }

    /// A table, by its number in the order of FROM.
    pub fn table(&self, number: usize) -> &Table
        requires { number < length (block_of self.now.block).tables }
        ensures { table_at self.now.database (block_of self.now.block) number ≡ Some result.now }
    {
        self.tables[number]
    }

    /// The conjuncts, in text order.
    pub fn conjuncts(&self) -> &[PlanConjunct<'_>]
        ensures exact { map conjunct_of result.now ≡ plans.plan_conjuncts self.now.database (block_of self.now.block) }
        ensures conditions { map condition_of_conjunct result.now ≡ queries.conjuncts (block_of self.now.block) }
        ensures counted { length result.now ≤ most_conjuncts }
    {
        self.conjuncts.as_slice()
    }

    /// The share of rows on which a conjunct is taken to be true, in millionths.
    pub fn selectivity(&self, conjunct: usize) -> u64
        requires { conjunct < length (plans.plan_conjuncts self.now.database (block_of self.now.block)) }
        ensures { result ≡ selectivity_of (slice_get (plans.plan_conjuncts self.now.database
            (block_of self.now.block)) conjunct) }
    {
        u64::from(self.conjuncts[conjunct].selectivity)
    }

    /// How many rows a set of tables is taken to give (Selinger et al. 1979, section 5: QCARD). It looks at each conjunct for each of
    /// the tables.
    pub fn cardinality(&self, tables: TableSet) -> u64
        ensures exact { result ≡ spec.cardinality self.now.database (block_of self.now.block) (set_of tables) }
        ensures below { result ≤ limit }
    {
        let mut taken = TableSet::none();
        let mut rows = 1;
        'tables: for table in 0..self.table_count() {
            if tables.has(table) {
                rows = self.joined_with(taken, rows, table);
                taken = taken.with(table);
            }
        }
        rows
    }

    /// How many rows a join of some rows with one more table is taken to give: of their product, what the conjuncts leave that it
    /// completes (section 5: QCARD).
    pub fn joined_with(&self, taken: TableSet, rows: u64, table: usize) -> u64
        requires { table < length (block_of self.now.block).tables }
        ensures exact { result ≡ spec.joined_with self.now.database (block_of self.now.block) (set_of taken) rows
            table }
        ensures below { result ≤ limit }
    {
        let product = saturating_product(rows, self.sizes[table].rows);
        left_by_completed(&self.conjuncts, taken, table, product)
    }

    /// How many rows a scan of a table hands on, where the rows of a set of tables are known (section 5: RSICARD).
    pub fn path_rows(&self, tables: TableSet, table: usize) -> u64
        requires { table < length (block_of self.now.block).tables }
        ensures exact { result ≡ spec.path_rows self.now.database (block_of self.now.block) (set_of tables) table }
        ensures below { result ≤ limit }
    {
        left_by_known(&self.conjuncts, tables, table, self.sizes[table].rows)
    }

    /// What a row of a set of tables takes, in bytes.
    pub fn width(&self, tables: TableSet) -> u64
        ensures exact { result ≡ spec.width self.now.database (block_of self.now.block) (set_of tables) }
        ensures below { result ≤ limit }
    {
        let mut width = 0;
        'tables: for table in 0..self.sizes.len() {
            if tables.has(table) {
                width += self.sizes[table].width;
            }
        }
        width
    }

    /// How many pages the rows of a set of tables fill.
    pub fn pages(&self, tables: TableSet) -> u64
        ensures exact { result ≡ spec.pages self.now.database (block_of self.now.block) (set_of tables) }
        ensures below { result ≤ limit }
    {
        self.pages_of(tables, self.cardinality(tables))
    }

    /// How many pages the rows of a set of tables fill, where it is known how many they are.
    pub fn pages_of(&self, tables: TableSet, rows: u64) -> u64
        requires { rows ≡ spec.cardinality self.now.database (block_of self.now.block) (set_of tables) }
        ensures exact { result ≡ spec.pages self.now.database (block_of self.now.block) (set_of tables) }
        ensures below { result ≤ limit }
    {
        let bytes = u128::from(rows) * u128::from(self.width(tables));
        saturate(bytes.div_ceil(PAGE_BYTES))
    }
}

/// The tables of a block, in the order of FROM.
fn block_tables<'a>(
    alloc: Global,
    database: &'a Database,
    block: &Block,
) -> Result<Vec<&'a Table>, AllocError>
    requires there { AllByRecursion (λ number. number < length database.now) (block_of block.now).tables }
    ensures exact { IfOk result (λ tables. AreTablesOf database.now (block_of block.now) (tables_of tables.items)) }
    ensures count { IfOk result (λ tables. length tables.items ≡ length (block_of block.now).tables) }
{
    let mut tables = Vec::new(alloc);
    'numbers: for number in &block.tables {
        tables.push(&database.tables()[*number])?;
    }
    Ok(tables)
}
