//! Where the rows of an answer are until their end.

ghost use Rattle.std.specs.Prelude.{◌≡◌, ◌++◌, ◌∷◌, [], Contains, List, ℕ, IfErr, IfOk, OnOk, false, map, true};
ghost use Rattle.std.specs.List.{AllByRecursion};
ghost use Rattle.definitions.specs.Table.{Row};
ghost use Rattle.definitions.specs.Printing.{table_text};
ghost use Rattle.definitions.specs.Queries.BoundBlock as b;
ghost use Rattle.sqlvalue.specs.Owned.{owned_value};
ghost use Rattle.definitions_answers.specs.Shapes.{HasShapes, Shape};
ghost use Rattle.query_tree.specs.Bound.{key_of};
ghost use Rattle.result_lines.specs.Batches.{rows_in, GivesColumnOf};
ghost use Rattle.result_lines.specs.Faults.{IfRaised};
ghost use Rattle.result_lines.specs.RowAt.{items_of, row_in, row_raises_in, CanGive};
ghost use Rattle.result_rows.specs.Stores.{keeping, kind_of, printing, AreAsked, AreToldAs, Holds};

use crate::any_row::AnyRow;
use crate::distinct_rows::DistinctRows;
use crate::first_value_rows::FirstValueRows;
use crate::ordered_rows::OrderedRows;
use crate::printed_rows::PrintedRows;
use expr::Environment;
use query_tree::{Item, Key};
use result_lines::{AnswerFault, RowBatch};
use sqlvalue::OwnedValue;
use std::alloc::{AllocError, Global};

/// Where rows are until their end.
#[derive(Drop)]
pub enum RowStore {
    /// Printed as they come.
    Printed(Box<PrintedRows>),
    /// Printed once each, in the order in which they first came.
    Distinct(Box<DistinctRows>),
    /// To be put in order and printed.
    Ordered(Box<OrderedRows>),
    /// Of each row the first value, which a subquery takes.
    FirstValues(FirstValueRows),
    /// Whether there is any, which EXISTS asks.
    Existence(AnyRow),
}

impl RowStore {
    /// A store for rows that are printed, of which none has come.
    pub fn to_print(
        alloc: Global,
        items: &[Item],
        in_order: bool,
        distinct: bool,
    ) -> Result<RowStore, AllocError>
        ensures nothing { IfOk result (λ s. Holds s (map (λ (i : b.Item). i.name) (items_of items.now)) []) }
        ensures kind { IfOk result (λ s. kind_of s ≡ printing in_order distinct) }
    {
        if in_order {
            let rows = OrderedRows::new(alloc, items, distinct)?;
            Ok(RowStore::Ordered(Box::new(alloc, rows)?))
        } else if distinct {
            let rows = DistinctRows::new(alloc, items)?;
            Ok(RowStore::Distinct(Box::new(alloc, rows)?))
        } else {
            let rows = PrintedRows::new(alloc, items)?;
            Ok(RowStore::Printed(Box::new(alloc, rows)?))
        }
    }

    /// A store for rows whose first values are kept, or whether there is any, if that is all that is asked; none has come.
    pub fn to_keep(alloc: Global, existence: bool, distinct: bool) -> RowStore
        ensures nothing { (names : List (List ℕ)) → Holds result names [] }
        ensures kind { kind_of result ≡ keeping existence distinct }
    {
        if existence {
            RowStore::Existence(AnyRow::new(alloc))
        } else {
            RowStore::FirstValues(FirstValueRows::new(alloc, distinct))
        }
    }

    /// Adds a row; or tells the first exception that one of its columns raises.
    pub fn add<S: Environment>(
        &mut self,
        alloc: Global,
        items: &[Item],
        env: &S,
    ) -> Result<(), AnswerFault>
        requires { AllByRecursion (CanGive (S.environment env.now)) (items_of items.now) }
        ensures added { OnOk result ((names : List (List ℕ)) (rows : List Row) → Holds self.old names rows →
            Holds self.new names (rows ++ row_in (S.environment env.now) (items_of items.now) ∷ [])) }
        ensures kind { kind_of self.new ≡ kind_of self.old }
        ensures quiet { OnOk result (row_raises_in (S.environment env.now) (items_of items.now) ≡ []) }
        ensures raised { IfErr result (λ fault. IfRaised fault
            (Contains (row_raises_in (S.environment env.now) (items_of items.now)))) }
    {
        match self {
            RowStore::Printed(rows) => rows.add(items, env),
            RowStore::Distinct(rows) => rows.add(alloc, items, env),
            RowStore::Ordered(rows) => rows.add(alloc, items, env),
            RowStore::FirstValues(rows) => rows.add(alloc, items, env),
            RowStore::Existence(rows) => rows.add(items, env),
        }
    }

    /// Adds the rows of a batch, whose result columns are columns, where rows are printed in the order in which they come; or tells that it takes
    /// rows one by one.
    pub fn add_batch<B: RowBatch>(
        &mut self,
        alloc: Global,
        items: &[Item],
        batch: &B,
    ) -> Result<bool, AllocError>
        requires { AllByRecursion (GivesColumnOf (B.width batch.now)) (items_of items.now) }
        ensures added { IfOk result (λ taken. taken ≡ true → (names : List (List ℕ)) (rows : List Row) →
            Holds self.old names rows →
            Holds self.new names (rows ++ rows_in (items_of items.now) (B.environments batch.now))) }
        ensures left { IfOk result (λ taken. taken ≡ false → self.new ≡ self.old) }
        ensures kind { kind_of self.new ≡ kind_of self.old }
    {
        match self {
            RowStore::Printed(rows) => {
                rows.add_batch(items, batch)?;
                Ok(true)
            }
            RowStore::Distinct(rows) => {
                rows.add_batch(alloc, items, batch)?;
                Ok(true)
            }
            _ => Ok(false),
        }
    }

    /// The text of rows that are printed: the header, the rows and how many there are.
    pub fn end(self, keys: &[Key]) -> Result<Vec<u8>, AllocError>
        requires prints { (kind_of self).prints ≡ true }
        ensures { IfOk result (λ text. (names : List (List ℕ)) (rows : List Row) (shapes : List Shape) →
            Holds self names rows → AllByRecursion (HasShapes shapes) rows →
            (printed : List Row) × AreToldAs (kind_of self).in_order (kind_of self).distinct
            (map key_of keys.now) rows printed × (text.items ≡ table_text names printed)) }
    {
        match self {
            RowStore::Printed(rows) => Box::into_inner(rows).end(),
            RowStore::Distinct(rows) => Box::into_inner(rows).end(),
            RowStore::Ordered(rows) => Box::into_inner(rows).end(keys),
            RowStore::FirstValues(_) | RowStore::Existence(_) => unreachable!(),
        }
    }

    /// Of rows that are not printed the first values, in the order in which the rows came; or some where there are rows, if no
    /// more is asked.
    pub fn into_values(self) -> Vec<OwnedValue>
        requires keeps { (kind_of self).prints ≡ false }
        ensures { (names : List (List ℕ)) (rows : List Row) (shapes : List Shape) →
            Holds self names rows → AllByRecursion (HasShapes shapes) rows →
            AreAsked (kind_of self) rows (map owned_value result.items) }
    {
        match self {
            RowStore::FirstValues(rows) => rows.into_values(),
            RowStore::Existence(rows) => rows.into_values(),
            _ => unreachable!(),
        }
    }
}
