//! The first values of rows, which a subquery takes.

ghost use Rattle.std.specs.Prelude.{◌≡◌, ◌++◌, ◌∷◌, [], Contains, List, IfErr, IfOk, OnOk, is_some, map, true};
ghost use Rattle.std.specs.List.{AllByRecursion};
ghost use Rattle.definitions.specs.Table.{Row};
ghost use Rattle.definitions.specs.Queries.Answer.{distinct_rows};
ghost use Rattle.definitions.specs.Queries.Evaluation.{column_values};
ghost use Rattle.definitions_answers.specs.Lines.{IsInBounds};
ghost use Rattle.definitions_answers.specs.Shapes.{HasShapes, Shape};
ghost use Rattle.sqlvalue.specs.Owned.{owned_value};
ghost use Rattle.result_lines.specs.Faults.{IfRaised};
ghost use Rattle.result_lines.specs.Lines.{IsNotedLine};
ghost use Rattle.result_rows.specs.ResultRows.{HasFirstValues};
ghost use Rattle.result_lines.specs.RowAt.{items_of, row_in, row_raises_in, CanGive};

use expr::Environment;
use query_tree::Item;
use result_lines::{AnswerFault, DistinctLines, keep_first, write_row};
use sqlvalue::OwnedValue;
use std::alloc::Global;

/// The first value of each row so far, under DISTINCT of each row that did not come before.
#[derive(Drop)]
pub struct FirstValueRows {
    values: Vec<OwnedValue>,
    seen: Option<DistinctLines>,
    line: Vec<u8>,
}

impl FirstValueRows {
    /// No value yet; under DISTINCT rows are told apart by their lines.
    pub fn new(alloc: Global, distinct: bool) -> FirstValueRows
        ensures nothing { HasFirstValues [] result }
        ensures distinct { is_some result.seen ≡ distinct }
    {
        FirstValueRows {
            values: Vec::new(alloc),
            seen: DistinctLines::if_distinct(alloc, distinct),
            line: Vec::new(alloc),
        }
    }

    /// Adds a row; under DISTINCT none that is there. All its values are evaluated, though only the first is kept (own).
    pub fn add<S: Environment>(
        &mut self,
        alloc: Global,
        items: &[Item],
        env: &S,
    ) -> Result<(), AnswerFault>
        requires { AllByRecursion (CanGive (S.environment env.now)) (items_of items.now) }
        ensures added { OnOk result ((rows : List Row) → HasFirstValues rows self.old →
            HasFirstValues (rows ++ row_in (S.environment env.now) (items_of items.now) ∷ []) self.new) }
        ensures distinct { is_some self.new.seen ≡ is_some self.old.seen }
        ensures quiet { OnOk result (row_raises_in (S.environment env.now) (items_of items.now) ≡ []) }
        ensures raised { IfErr result (λ fault. IfRaised fault
            (Contains (row_raises_in (S.environment env.now) (items_of items.now)))) }
    {
        if self.is_new(alloc, items, env)? {
            let first = keep_first(alloc, items, env)?;
            self.values.push(first)?;
        }
        Ok(())
    }

    /// Notes a row, and tells whether it did not come before; without DISTINCT each counts as new, and is not evaluated yet.
    fn is_new<S: Environment>(
        &mut self,
        alloc: Global,
        items: &[Item],
        env: &S,
    ) -> Result<bool, AnswerFault>
        requires { AllByRecursion (CanGive (S.environment env.now)) (items_of items.now) }
        ensures values { self.new.values ≡ self.old.values }
        ensures noted { IfOk result (λ new. IsNotedLine self.old.seen self.new.seen new
            (row_in (S.environment env.now) (items_of items.now))) }
        ensures distinct { is_some self.new.seen ≡ is_some self.old.seen }
        ensures quiet { OnOk result (is_some self.old.seen ≡ true →
            row_raises_in (S.environment env.now) (items_of items.now) ≡ []) }
        ensures bounded { OnOk result (is_some self.old.seen ≡ true →
            AllByRecursion IsInBounds (row_in (S.environment env.now) (items_of items.now))) }
        ensures raised { IfErr result (λ fault. IfRaised fault
            (Contains (row_raises_in (S.environment env.now) (items_of items.now)))) }
    {
        match &mut self.seen {
            None => Ok(true),
            Some(seen) => {
                self.line.clear();
                write_row(&mut self.line, items, env)?;
                Ok(seen.add(alloc, &self.line)?)
            }
        }
    }

    /// Hands the values out, in the order in which their rows came (ISO/IEC 9075:1992, 7.11: those of a subquery).
    pub fn into_values(self) -> Vec<OwnedValue>
        ensures { (rows : List Row) (shapes : List Shape) → HasFirstValues rows self →
            AllByRecursion (HasShapes shapes) rows →
            map owned_value result.items ≡ column_values (distinct_rows (is_some self.seen) rows) }
    {
        let FirstValueRows {
            values,
            seen: _,
            line: _,
        } = self;
        values
    }
}
