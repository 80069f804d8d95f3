//! Rows that are printed once each, in the order in which they first came.

ghost use Rattle.std.specs.Prelude.{◌≡◌, ◌++◌, ◌∷◌, ◌<◌, [], Contains, List, ℕ, IfErr, IfOk, OnOk, Some, length, map, slice_get};
ghost use Rattle.std.specs.List.{AllByRecursion};
ghost use Rattle.definitions.specs.Table.{Row};
ghost use Rattle.definitions.specs.Printing.{row_line, table_text};
ghost use Rattle.definitions.specs.Queries.BoundBlock as b;
ghost use Rattle.definitions.specs.Queries.Evaluation as meaning;
ghost use Rattle.definitions.specs.Lists.{without_repeats};
ghost use Rattle.definitions.specs.Queries.Grouping.{same_values};
ghost use Rattle.definitions_answers.specs.Lines.{with_line, IsInBounds};
ghost use Rattle.definitions_answers.specs.Shapes.{HasShapes, Shape};
ghost use Rattle.result_lines.specs.Batches.{rows_in, GivesColumnOf};
ghost use Rattle.result_lines.specs.Faults.{IfRaised};
ghost use Rattle.result_lines.specs.Lines.{lines_of};
ghost use Rattle.result_rows.specs.ResultRows.{HasDistinct};
ghost use Rattle.result_lines.specs.RowAt.{items_of, row_in, row_raises_in, CanGive};

use expr::Environment;
use query_tree::{Item, ValueExpr};
use result_lines::{
    AnswerFault, DistinctLines, RowBatch, SeenUnits, only_unit, write_columns, write_count,
    write_header, write_row,
};
use sqlvalue::SqlType;
use std::alloc::{AllocError, Global};

/// The header and the lines of rows so far, each once (ISO/IEC 9075:1992, 7.9: SELECT DISTINCT).
#[derive(Drop)]
pub struct DistinctRows {
    header: Vec<u8>,
    lines: DistinctLines,
    line: Vec<u8>,
    /// Where the rows have one column, numbers of a scale that came before, by their units.
    seen: SeenUnits,
    scale: u8,
}

impl DistinctRows {
    /// The header, and no row behind it yet.
    pub fn new(alloc: Global, items: &[Item]) -> Result<DistinctRows, AllocError>
        ensures { IfOk result (HasDistinct (map (λ (i : b.Item). i.name) (items_of items.now)) []) }
    {
        let mut header = Vec::new(alloc);
        write_header(&mut header, items)?;
        Ok(DistinctRows {
            header,
            lines: DistinctLines::new(alloc),
            line: Vec::new(alloc),
            seen: SeenUnits::new(alloc),
            scale: only_scale(items),
        })
    }

    /// Adds a row, unless it is there. One that is there takes no memory.
    pub fn add<S: Environment>(
        &mut self,
        alloc: Global,
        items: &[Item],
        env: &S,
    ) -> Result<(), AnswerFault>
        requires { AllByRecursion (CanGive (S.environment env.now)) (items_of items.now) }
        ensures added { OnOk result ((names : List (List ℕ)) (rows : List Row) → HasDistinct names rows self.old →
            HasDistinct names (rows ++ row_in (S.environment env.now) (items_of items.now) ∷ []) self.new) }
        ensures quiet { OnOk result (row_raises_in (S.environment env.now) (items_of items.now) ≡ []) }
        ensures raised { IfErr result (λ fault. IfRaised fault
            (Contains (row_raises_in (S.environment env.now) (items_of items.now)))) }
    {
        self.line.clear();
        write_row(&mut self.line, items, env)?;
        self.lines.add(alloc, &self.line)?;
        Ok(())
    }

    /// Adds the rows of a batch, whose result columns are columns, each unless it is there.
    pub fn add_batch<B: RowBatch>(
        &mut self,
        alloc: Global,
        items: &[Item],
        batch: &B,
    ) -> Result<(), AllocError>
        requires { AllByRecursion (GivesColumnOf (B.width batch.now)) (items_of items.now) }
        ensures { OnOk result ((names : List (List ℕ)) (rows : List Row) → HasDistinct names rows self.old →
            HasDistinct names (rows ++ rows_in (items_of items.now) (B.environments batch.now)) self.new) }
    {
        'places: for place in 0..batch.len() {
            self.add_row(alloc, items, batch, place)?;
        }
        Ok(())
    }

    /// Adds the row at a place of a batch, unless it is there. A number that is remembered is told by its units alone.
    fn add_row<B: RowBatch>(
        &mut self,
        alloc: Global,
        items: &[Item],
        batch: &B,
        place: usize,
    ) -> Result<(), AllocError>
        requires columns { AllByRecursion (GivesColumnOf (B.width batch.now)) (items_of items.now) }
        requires within { place < length (B.environments batch.now) }
        ensures { OnOk result ((names : List (List ℕ)) (rows : List Row) (env : meaning.Environment) →
            slice_get (B.environments batch.now) place ≡ Some env → HasDistinct names rows self.old →
            HasDistinct names (rows ++ row_in env (items_of items.now) ∷ []) self.new) }
    {
        let Some(unit) = only_unit(items, batch, place, self.scale) else {
            return self.add_line(alloc, items, batch, place);
        };
        if self.seen.has(unit) {
            return Ok(());
        }
        self.add_line(alloc, items, batch, place)?;
        self.seen.note(unit)
    }

    /// The same by the row's line.
    fn add_line<B: RowBatch>(
        &mut self,
        alloc: Global,
        items: &[Item],
        batch: &B,
        place: usize,
    ) -> Result<(), AllocError>
        requires columns { AllByRecursion (GivesColumnOf (B.width batch.now)) (items_of items.now) }
        requires within { place < length (B.environments batch.now) }
        ensures lines { OnOk result ((env : meaning.Environment) →
            slice_get (B.environments batch.now) place ≡ Some env →
            lines_of self.new.lines ≡ with_line (lines_of self.old.lines)
            (row_line (row_in env (items_of items.now)))) }
        ensures bounded { OnOk result ((env : meaning.Environment) →
            slice_get (B.environments batch.now) place ≡ Some env →
            AllByRecursion IsInBounds (row_in env (items_of items.now))) }
        ensures header { self.new.header ≡ self.old.header }
        ensures seen { self.new.seen ≡ self.old.seen }
        ensures scale { self.new.scale ≡ self.old.scale }
    {
        self.line.clear();
        write_columns(&mut self.line, items, batch, place)?;
        self.lines.add(alloc, &self.line)?;
        Ok(())
    }

    /// The text that is printed: the header, the rows and how many there are.
    pub fn end(self) -> Result<Vec<u8>, AllocError>
        ensures { IfOk result (λ text. (names : List (List ℕ)) (rows : List Row) (shapes : List Shape) →
            HasDistinct names rows self → AllByRecursion (HasShapes shapes) rows →
            text.items ≡ table_text names (without_repeats same_values rows)) }
    {
        let DistinctRows {
            mut header,
            lines,
            line: _,
            seen: _,
            scale: _,
        } = self;
        lines.write(&mut header)?;
        write_count(&mut header, lines.len() as u64)?;
        Ok(header)
    }
}

/// The scale of the numbers in a row's only column; it says nothing of others.
fn only_scale(items: &[Item]) -> u8 {
    match items {
        [item] => match &item.value {
            ValueExpr::Column {
                sql_type: SqlType::Numeric { scale, .. },
                ..
            } => *scale,
            _ => 0,
        },
        _ => 0,
    }
}
