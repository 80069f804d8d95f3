//! The names that a script gives to the tables and columns of a block.

use crate::blocks::blocks_down_to;
use crate::column_texts::{ColumnText, IndexText, OrderText, TablesText};
use crate::conditions::ConditionText;
use crate::plans::{PathText, PlanText};
use crate::steps::{ConjunctText, StateText, StepText};
use crate::values::ValueText;
use catalog::{Database, Table};
use cert_check::PlanStep;
use parse_tree::{Select, Source};
use plan_tree::{Path, Plan, SortKey, TableSet};
use query_tree::{Aggregate, Block, BlockColumn, Condition, ValueExpr, push_conjuncts};
use std::alloc::{AllocError, Global};

/// What is written for a name that isn't there.
const UNKNOWN: &str = "?";

/// The names of the tables of a block and of the blocks around it, and the conjuncts of its WHERE.
#[derive(Drop)]
pub struct BlockNames<'a> {
    /// The block and those around it, the nearest first.
    scopes: Vec<Scope<'a>>,
    conjuncts: Vec<&'a Condition>,
}

impl<'a> BlockNames<'a> {
    /// The names of the tables of a block of a query, by its number from 0, and of the blocks around it. Where there is no such block,
    /// all names are `?`. An `Err` is want of memory.
    pub fn new(
        alloc: Global,
        database: &'a Database,
        query: &'a Select,
        blocks: &'a [Block],
        number: usize,
    ) -> Result<BlockNames<'a>, AllocError> {
        let written = blocks_down_to(alloc, query, number)?;
        let mut scopes = Vec::new(alloc);
        for found in written.iter().rev() {
            if let Some(block) = blocks.get(found.number) {
                let sources = found.block.sources.tables.as_slice();
                scopes.extend_from_slice(&[Scope {
                    database,
                    block,
                    sources,
                }])?;
            }
        }
        let mut conjuncts = Vec::new(alloc);
        if let Some(scope) = scopes.first()
            && let Some(condition) = &scope.block.condition
        {
            push_conjuncts(&mut conjuncts, condition)?;
        }
        Ok(BlockNames { scopes, conjuncts })
    }

    /// The block itself, as names see it.
    fn own(&self) -> Option<Scope<'a>> {
        self.scopes.first().copied()
    }

    /// How many tables the block has.
    pub fn table_count(&self) -> usize {
        match self.own() {
            Some(scope) => scope.block.tables.len(),
            None => 0,
        }
    }

    /// What a table of the block is called, by its number in FROM: its correlation name, where it has one.
    pub fn table(&self, table: usize) -> &str {
        match self.own() {
            Some(scope) => scope.table_name(table),
            None => UNKNOWN,
        }
    }

    /// The stored table of a number in FROM.
    pub fn stored_table(&self, table: usize) -> Option<&'a Table> {
        self.own()?.stored_table(table)
    }

    /// The table of the block that is called so, in capital or small letters.
    pub fn table_called(&self, name: &[u8]) -> Option<usize> {
        for table in 0..self.table_count() {
            if self.table(table).as_bytes().eq_ignore_ascii_case(name) {
                return Some(table);
            }
        }
        None
    }

    /// The number of the column of a table that is called so.
    pub fn column_of_table(&self, table: usize, name: &[u8]) -> Option<usize> {
        let stored = self.stored_table(table)?;
        for column in 0..stored.width() {
            if stored
                .column_name(column)
                .as_bytes()
                .eq_ignore_ascii_case(name)
            {
                return Some(column);
            }
        }
        None
    }

    /// How many conjuncts the WHERE of the block has.
    pub fn conjunct_count(&self) -> usize {
        self.conjuncts.len()
    }

    /// A conjunct of the WHERE of the block, by its number from 0.
    pub fn conjunct(&self, number: usize) -> Option<&'a Condition> {
        self.conjuncts.get(number).copied()
    }

    /// The tables of a set: `C, O`.
    pub fn tables(&self, set: TableSet) -> TablesText<'_, 'a> {
        TablesText { names: self, set }
    }

    /// A column of the block: `C.CNO`, and `CNO` where the block has one table.
    pub fn column(&self, column: BlockColumn) -> ColumnText<'a> {
        match self.own() {
            Some(scope) => scope.column(column, scope.block.tables.len() > 1),
            None => ColumnText::unknown(),
        }
    }

    /// A column of a block around, behind so many blocks between: `C.CNO`.
    pub(crate) fn outer_column(&self, between: usize, column: BlockColumn) -> ColumnText<'a> {
        match self.scopes.get(between.saturating_add(1)) {
            Some(scope) => scope.column(column, true),
            None => ColumnText::unknown(),
        }
    }

    /// A set function of the block, by its number.
    pub(crate) fn function(&self, number: usize) -> Option<&'a Aggregate> {
        self.own()?.block.functions.get(number)
    }

    /// A condition of the block as SQL has it. Inner blocks go by number: `EXISTS (block 2)`.
    pub fn condition<'n>(&'n self, condition: &'n Condition) -> ConditionText<'n, 'a> {
        ConditionText {
            names: self,
            condition,
        }
    }

    /// A value of the block as SQL has it.
    pub fn value<'n>(&'n self, value: &'n ValueExpr) -> ValueText<'n, 'a> {
        ValueText { names: self, value }
    }

    /// An order of rows of the block: `O.ODATE, C.CNO DESC`, or `none` for the empty one.
    pub fn order<'n>(&'n self, order: &'n [SortKey]) -> OrderText<'n, 'a> {
        OrderText { names: self, order }
    }

    /// The columns of an index of a table of the block: `(CNO, CITY)`.
    pub fn index(&self, table: usize, index: usize) -> IndexText<'a> {
        IndexText {
            table: self.stored_table(table),
            index,
        }
    }

    /// An access path of the block: `all of C`, `all of C by (CITY) back`, `C by (CITY) on 3`.
    pub fn path<'n>(&'n self, path: &'n Path) -> PathText<'n, 'a> {
        PathText { names: self, path }
    }

    /// A plan of the block, whose numbered orders are given: `sort (C by (CITY) on 3) by C.NAME loop all of O`.
    pub fn plan<'n>(&'n self, orders: &'n [Vec<SortKey>], plan: &'n Plan) -> PlanText<'n, 'a> {
        PlanText {
            names: self,
            orders,
            plan,
        }
    }

    /// A set of tables of the block and a numbered order of their rows: `C, O in order of O.ODATE`, or `C in no order`.
    pub fn state<'n>(
        &'n self,
        orders: &'n [Vec<SortKey>],
        tables: TableSet,
        order: usize,
    ) -> StateText<'n, 'a> {
        StateText {
            names: self,
            orders,
            tables,
            order,
        }
    }

    /// A step of a plan of the block, in words: `a loop over all of O`.
    pub fn step<'n>(&'n self, orders: &'n [Vec<SortKey>], step: PlanStep<'n>) -> StepText<'n, 'a> {
        StepText {
            names: self,
            orders,
            step,
        }
    }

    /// A conjunct of the block with its number, from 1, where it is given from 0: `C.CNO = O.CNO (conjunct 1)`.
    pub fn numbered_conjunct(&self, number: usize) -> ConjunctText<'_, 'a> {
        ConjunctText {
            names: self,
            number,
        }
    }
}

/// The tables that names of a block are looked for in.
#[derive(Clone, Copy)]
pub(crate) struct Scope<'a> {
    database: &'a Database,
    block: &'a Block,
    sources: &'a [Source],
}

impl<'a> Scope<'a> {
    fn stored_table(self, table: usize) -> Option<&'a Table> {
        let place = self.block.tables.get(table)?;
        self.database.tables().get(*place)
    }

    fn table_name(self, table: usize) -> &'a str {
        let Some(source) = self.sources.get(table) else {
            return UNKNOWN;
        };
        match &source.correlation {
            Some(name) => name.text.as_str(),
            None => source.table.text.as_str(),
        }
    }

    fn column_name(self, column: BlockColumn) -> &'a str {
        match self.stored_table(column.table) {
            Some(table) if column.number < table.width() => table.column_name(column.number),
            _ => UNKNOWN,
        }
    }

    /// A column, with the name of its table or without.
    pub fn column(self, column: BlockColumn, is_qualified: bool) -> ColumnText<'a> {
        ColumnText {
            qualifier: is_qualified.then_some(self.table_name(column.table)),
            name: self.column_name(column),
        }
    }
}
