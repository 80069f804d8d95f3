//! Whether any row has come, which is all that EXISTS asks.

ghost use Rattle.std.specs.Prelude.{◌≡◌, ◌++◌, ◌∷◌, [], Contains, List, IfErr, OnOk, map, true};
ghost use Rattle.std.specs.List.{AllByRecursion};
ghost use Rattle.definitions.specs.Table.{Row};
ghost use Rattle.definitions_answers.specs.Told.{values_asked};
ghost use Rattle.sqlvalue.specs.Owned.{owned_value};
ghost use Rattle.result_lines.specs.Faults.{IfRaised};
ghost use Rattle.result_rows.specs.ResultRows.{HasAnyRow};
ghost use Rattle.result_lines.specs.RowAt.{items_of, row_in, row_raises_in, CanGive};

use expr::Environment;
use query_tree::Item;
use result_lines::{AnswerFault, evaluate_row};
use sqlvalue::OwnedValue;
use std::alloc::Global;

/// Whether any row has come (ISO/IEC 9075:1992, 8.9): one null where one has.
#[derive(Drop)]
pub struct AnyRow {
    values: Vec<OwnedValue>,
}

impl AnyRow {
    /// No row yet.
    pub fn new(alloc: Global) -> AnyRow
        ensures { HasAnyRow [] result }
    {
        AnyRow {
            values: Vec::new(alloc),
        }
    }

    /// Notes a row. All its values are evaluated, though none is kept (own).
    pub fn add<S: Environment>(&mut self, items: &[Item], env: &S) -> Result<(), AnswerFault>
        requires { AllByRecursion (CanGive (S.environment env.now)) (items_of items.now) }
        ensures added { OnOk result ((rows : List Row) → HasAnyRow rows self.old →
            HasAnyRow (rows ++ row_in (S.environment env.now) (items_of items.now) ∷ []) self.new) }
        ensures quiet { OnOk result (row_raises_in (S.environment env.now) (items_of items.now) ≡ []) }
        ensures raised { IfErr result (λ fault. IfRaised fault
            (Contains (row_raises_in (S.environment env.now) (items_of items.now)))) }
    {
        evaluate_row(items, env)?;
        if self.values.is_empty() {
            self.values.push(OwnedValue::Null)?;
        }
        Ok(())
    }

    /// Hands out what stands for whether any row has come.
    pub fn into_values(self) -> Vec<OwnedValue>
        ensures { (rows : List Row) → HasAnyRow rows self → map owned_value result.items ≡ values_asked true rows }
    {
        let AnyRow { values } = self;
        values
    }
}
