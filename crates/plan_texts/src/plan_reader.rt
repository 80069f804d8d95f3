//! Plans by names, read from left to right.

use crate::cheapest::{WantedMerge, cheapest_access, cheapest_loop, cheapest_merge};
use crate::fault::{Expectation, NameProblem, PlanTextFault};
use crate::tokens::{Cursor, Token};
use crate::wanted::{MatchedConjuncts, WantedAccess, Way};
use certificate::BlockSpace;
use plan_names::BlockNames;
use plan_tree::{Inner, MAX_FROM_TABLES, Path, Plan, SortKey, TableSet};
use query_tree::BlockColumn;
use std::alloc::Global;

/// Reads a plan of a block by names. Its sorts open before its first access, so that the plan grows step by step as it is read.
#[derive(Drop)]
pub(crate) struct PlanReader<'n, 'a, 't> {
    alloc: Global,
    names: &'n BlockNames<'a>,
    own: &'n BlockSpace<'a>,
    cursor: Cursor<'t>,
    open_sorts: usize,
}

/// A step on top of a plan.
#[derive(Drop)]
enum Step {
    Loop(Path),
    Merge { conjunct: usize, inner: Inner },
    Sort { order: usize },
}

impl<'n, 'a, 't> PlanReader<'n, 'a, 't> {
    pub fn new(
        alloc: Global,
        names: &'n BlockNames<'a>,
        own: &'n BlockSpace<'a>,
        text: &'t str,
    ) -> PlanReader<'n, 'a, 't> {
        PlanReader {
            alloc,
            names,
            own,
            cursor: Cursor::new(text.as_bytes()),
            open_sorts: 0,
        }
    }

    /// The plan that the whole text is.
    pub fn plan(&mut self) -> Result<Plan, PlanTextFault> {
        self.begin_sorts();
        let path = self.first_path()?;
        // boxed: what is owned is dropped at each exit behind it
        let mut plan = Box::new(self.alloc, Plan::Access(path))?;
        for _ in 0..self.cursor.text_length() {
            match self.step(&plan)? {
                Some(step) => plan = Box::new(self.alloc, with_step(plan, step))?,
                None => break,
            }
        }
        Ok(Box::into_inner(plan))
    }

    /// Passes each `sort (` that stands here.
    fn begin_sorts(&mut self) {
        for _ in 0..self.cursor.text_length() {
            if !self.begins_sort() {
                return;
            }
            self.cursor = self.cursor.behind().behind();
            self.open_sorts = self.open_sorts.saturating_add(1);
        }
    }

    fn begins_sort(&self) -> bool {
        self.is_word("sort") && self.cursor.behind().token() == Token::Mark(b'(')
    }

    fn first_path(&mut self) -> Result<Path, PlanTextFault> {
        if let Token::Mark(_) | Token::End = self.cursor.token() {
            return Err(expected(Expectation::Access));
        }
        let wanted = self.access()?;
        match wanted.only_path() {
            Some(path) => Ok(path.clone()?),
            None => found_path(cheapest_access(&self.own.space, &wanted)),
        }
    }

    /// The next step on top of a plan; none at the end.
    fn step(&mut self, plan: &Plan) -> Result<Option<Step>, PlanTextFault> {
        if self.take_word("loop") {
            return Ok(Some(self.loop_step(plan)?));
        }
        if self.take_word("merge") {
            return Ok(Some(self.merge_step(plan)?));
        }
        let Some(other_sorts) = self.open_sorts.checked_sub(1) else {
            return self.end();
        };
        if !self.take_mark(b')') {
            return Err(expected(Expectation::JoinOrClose));
        }
        self.open_sorts = other_sorts;
        Ok(Some(self.sort_step()?))
    }

    fn end(&self) -> Result<Option<Step>, PlanTextFault> {
        match self.cursor.token() {
            Token::End => Ok(None),
            _ => Err(expected(Expectation::JoinOrEnd)),
        }
    }

    fn loop_step(&mut self, plan: &Plan) -> Result<Step, PlanTextFault> {
        let wanted = self.access()?;
        let path = match wanted.only_path() {
            Some(path) => path.clone()?,
            None => found_path(cheapest_loop(&self.own.space, tables_of(plan), &wanted))?,
        };
        Ok(Step::Loop(path))
    }

    fn merge_step(&mut self, plan: &Plan) -> Result<Step, PlanTextFault> {
        let conjunct = self.merge_conjunct()?;
        let sorted = self.take_word("sorted");
        let access = self.access()?;
        if let (Some(conjunct), Some(path)) = (conjunct, access.only_path()) {
            return merge_by(conjunct, path, sorted);
        }
        let wanted = WantedMerge {
            conjunct,
            sorted,
            access,
        };
        self.cheapest_merge(plan, &wanted)
    }

    fn merge_conjunct(&mut self) -> Result<Option<usize>, PlanTextFault> {
        if self.take_word("on") {
            Ok(Some(self.conjunct()?))
        } else {
            Ok(None)
        }
    }

    /// The cheapest merge on top of a plan: where there is one that its order allows, of those.
    fn cheapest_merge(&self, plan: &Plan, wanted: &WantedMerge) -> Result<Step, PlanTextFault> {
        let space = &self.own.space;
        let tables = tables_of(plan);
        let allowed = match space.summary(plan) {
            Some(outer) => cheapest_merge(space, tables, Some(outer.order), wanted),
            None => None,
        };
        match allowed.or(cheapest_merge(space, tables, None, wanted)) {
            Some(merge) => merge_by(merge.conjunct, merge.path, merge.sorted),
            None => Err(fault(NameProblem::NoMerge)),
        }
    }

    fn sort_step(&mut self) -> Result<Step, PlanTextFault> {
        if !self.take_word("by") {
            return Err(expected(Expectation::By));
        }
        let keys = self.keys()?;
        match order_number(self.own.space.orders(), &keys) {
            Some(order) => Ok(Step::Sort { order }),
            None => Err(fault(NameProblem::NoOrder)),
        }
    }

    /// The keys of an order; none where it is the empty one.
    fn keys(&mut self) -> Result<Vec<SortKey>, PlanTextFault> {
        let mut keys = Vec::new(self.alloc);
        if self.take_word("none") {
            return Ok(keys);
        }
        for _ in 0..self.cursor.text_length() {
            let column = self.column()?;
            let descending = self.take_word("desc");
            keys.push(SortKey { column, descending })?;
            if !descending {
                let _ = self.take_word("asc");
            }
            if !self.take_mark(b',') {
                return Ok(keys);
            }
        }
        Ok(keys)
    }

    /// A column, with the name of its table or without.
    fn column(&mut self) -> Result<BlockColumn, PlanTextFault> {
        let Token::Word(name) = self.cursor.token() else {
            return Err(expected(Expectation::Column));
        };
        let behind = self.cursor.behind();
        if behind.token() == Token::Mark(b'.') {
            let Some(table) = self.names.table_called(name) else {
                return Err(fault(NameProblem::NoTable));
            };
            self.cursor = behind.behind();
            let number = self.column_of(table)?;
            return Ok(BlockColumn { table, number });
        }
        match column_called(self.names, name) {
            Ok(column) => {
                self.cursor = behind;
                Ok(column)
            }
            Err(problem) => Err(fault(problem)),
        }
    }

    /// The number of a column of a table, without the table's name.
    fn column_of(&mut self, table: usize) -> Result<usize, PlanTextFault> {
        let Token::Word(name) = self.cursor.token() else {
            return Err(expected(Expectation::ColumnOfTable));
        };
        let Some(number) = self.names.column_of_table(table, name) else {
            return Err(fault(NameProblem::NoColumn));
        };
        self.cursor = self.cursor.behind();
        Ok(number)
    }

    /// An access to a table.
    fn access(&mut self) -> Result<WantedAccess, PlanTextFault> {
        let is_all = self.take_word("all");
        if is_all && !self.take_word("of") {
            return Err(expected(Expectation::Of));
        }
        let table = self.table()?;
        let way = if self.take_word("by") {
            self.way_by_index(table, is_all)?
        } else if is_all {
            Way::Only(Path::Segment { table })
        } else {
            Way::Any
        };
        Ok(WantedAccess { table, way })
    }

    /// What stands behind `by`.
    fn way_by_index(&mut self, table: usize, is_all: bool) -> Result<Way, PlanTextFault> {
        let index = self.index(table)?;
        if is_all {
            let backward = self.take_word("back");
            return Ok(Way::Only(Path::Index {
                table,
                index,
                backward,
            }));
        }
        if !self.take_word("on") {
            let backward = self.take_word("back");
            return Ok(Way::ByIndex { index, backward });
        }
        let conjuncts = self.conjuncts()?;
        let backward = self.take_word("back");
        Ok(Way::Only(Path::Match {
            table,
            index,
            conjuncts,
            backward,
        }))
    }

    fn table(&mut self) -> Result<usize, PlanTextFault> {
        let Token::Word(name) = self.cursor.token() else {
            return Err(expected(Expectation::Table));
        };
        let Some(table) = self.names.table_called(name) else {
            return Err(fault(NameProblem::NoTable));
        };
        self.cursor = self.cursor.behind();
        Ok(table)
    }

    /// An index of a table, by its columns.
    fn index(&mut self, table: usize) -> Result<usize, PlanTextFault> {
        if !self.take_mark(b'(') {
            return Err(expected(Expectation::List));
        }
        let columns = self.index_columns(table)?;
        match index_on(self.own, table, &columns) {
            Some(index) => Ok(index),
            None => Err(fault(NameProblem::NoIndex)),
        }
    }

    fn index_columns(&mut self, table: usize) -> Result<Vec<usize>, PlanTextFault> {
        let mut columns = Vec::new(self.alloc);
        for _ in 0..self.cursor.text_length() {
            let column = self.column_of(table)?;
            columns.push(column)?;
            if !self.take_mark(b',') {
                break;
            }
        }
        if self.take_mark(b')') {
            Ok(columns)
        } else {
            Err(expected(Expectation::ListEnd))
        }
    }

    /// Conjuncts, by their numbers.
    fn conjuncts(&mut self) -> Result<MatchedConjuncts, PlanTextFault> {
        let mut conjuncts = MatchedConjuncts::new();
        for _ in 0..self.cursor.text_length() {
            let conjunct = self.conjunct()?;
            if conjuncts.try_push(conjunct).is_err() {
                return Err(fault(NameProblem::ManyConjuncts));
            }
            if !self.take_mark(b',') {
                return Ok(conjuncts);
            }
        }
        Ok(conjuncts)
    }

    /// A conjunct by its number, which texts count from 1.
    fn conjunct(&mut self) -> Result<usize, PlanTextFault> {
        let Token::Word(digits) = self.cursor.token() else {
            return Err(expected(Expectation::ConjunctNumber));
        };
        let Some(number) = number_in(digits) else {
            return Err(expected(Expectation::ConjunctNumber));
        };
        let count = self.own.conjunct_count;
        match number.checked_sub(1) {
            Some(conjunct) if conjunct < count => {
                self.cursor = self.cursor.behind();
                Ok(conjunct)
            }
            _ => Err(fault(NameProblem::NoConjunct { count })),
        }
    }

    /// Whether a word of the grammar stands here: in small letters, or in any where no table is called so.
    fn is_word(&self, word: &str) -> bool {
        let Token::Word(found) = self.cursor.token() else {
            return false;
        };
        found == word.as_bytes()
            || found.eq_ignore_ascii_case(word.as_bytes())
                && self.names.table_called(found).is_none()
    }

    /// Passes a word of the grammar, if it stands here.
    fn take_word(&mut self, word: &str) -> bool {
        let is_there = self.is_word(word);
        if is_there {
            self.cursor = self.cursor.behind();
        }
        is_there
    }

    /// Passes a mark, if it stands here.
    fn take_mark(&mut self, mark: u8) -> bool {
        let is_there = self.cursor.token() == Token::Mark(mark);
        if is_there {
            self.cursor = self.cursor.behind();
        }
        is_there
    }
}

fn fault(problem: NameProblem) -> PlanTextFault {
    PlanTextFault::Names(problem)
}

fn expected(expectation: Expectation) -> PlanTextFault {
    PlanTextFault::Names(NameProblem::Expected(expectation))
}

/// A path that was found, as the plan's own.
fn found_path(found: Option<&Path>) -> Result<Path, PlanTextFault> {
    match found {
        Some(path) => Ok(path.clone()?),
        None => Err(fault(NameProblem::NoPath)),
    }
}

fn merge_by(conjunct: usize, path: &Path, sorted: bool) -> Result<Step, PlanTextFault> {
    let path = path.clone()?;
    let inner = Inner { path, sorted };
    Ok(Step::Merge { conjunct, inner })
}

/// A plan with one more step on top.
fn with_step(plan: Box<Plan>, step: Step) -> Plan {
    match step {
        Step::Loop(path) => Plan::Loop { outer: plan, path },
        Step::Merge { conjunct, inner } => Plan::Merge {
            outer: plan,
            conjunct,
            inner,
        },
        Step::Sort { order } => Plan::Sort { input: plan, order },
    }
}

/// The tables of a plan.
fn tables_of(plan: &Plan) -> TableSet {
    match plan {
        Plan::Access(path) => with_table(TableSet::none(), path),
        Plan::Loop { outer, path } => with_table(tables_of(outer), path),
        Plan::Merge { outer, inner, .. } => with_table(tables_of(outer), &inner.path),
        Plan::Sort { input, .. } => tables_of(input),
    }
}

fn with_table(tables: TableSet, path: &Path) -> TableSet {
    let table = path.table();
    if table < MAX_FROM_TABLES {
        tables.with(table)
    } else {
        tables
    }
}

/// The index of a table that is on just these columns.
fn index_on(own: &BlockSpace, table: usize, columns: &[usize]) -> Option<usize> {
    for (number, index) in own.indexes.get(table)?.iter().enumerate() {
        if index.as_slice() == columns {
            return Some(number);
        }
    }
    None
}

/// The number of an order.
fn order_number(orders: &[Vec<SortKey>], keys: &[SortKey]) -> Option<usize> {
    for (number, order) in orders.iter().enumerate() {
        if order.as_slice() == keys {
            return Some(number);
        }
    }
    None
}

fn number_in(digits: &[u8]) -> Option<usize> {
    str::from_utf8(digits).ok()?.parse().ok()
}

/// The column of one table of the block that is called so, or why it is none.
fn column_called(names: &BlockNames<'_>, name: &[u8]) -> Result<BlockColumn, NameProblem> {
    let mut found = Err(NameProblem::NoColumn);
    for table in 0..names.table_count() {
        if let Some(number) = names.column_of_table(table, name) {
            if found.is_ok() {
                return Err(NameProblem::AmbiguousColumn);
            }
            found = Ok(BlockColumn { table, number });
        }
    }
    found
}
