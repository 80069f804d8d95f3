//! Rows that are kept until their end, to be put into an order.

ghost use Rattle.std.specs.Prelude.{◌≡◌, ◌++◌, ◌∷◌, [], Contains, List, ℕ, IfErr, IfOk, OnOk, is_some, map};
ghost use Rattle.std.specs.List.{AllByRecursion};
ghost use Rattle.definitions.specs.Table.{Row};
ghost use Rattle.definitions.specs.Printing.{fields_line, table_text};
ghost use Rattle.definitions.specs.Queries.BoundBlock as b;
ghost use Rattle.definitions_answers.specs.Shapes.{HasShapes, Shape};
ghost use Rattle.query_tree.specs.Bound.{key_of};
ghost use Rattle.result_lines.specs.Faults.{IfRaised};
ghost use Rattle.result_lines.specs.Lines.{IsNotedLine};
ghost use Rattle.result_rows.specs.ResultRows.{AreArranged, HasOrdered};
ghost use Rattle.result_lines.specs.RowAt.{items_of, row_in, row_raises_in, CanGive};
ghost use Rattle.result_lines.specs.Rows.{row_of, rows_of};

use expr::Environment;
use query_tree::{Item, Key};
use result_lines::{
    AnswerFault, DistinctLines, ResultRow, keep_row, order_rows, write_count, write_header,
    write_kept,
};
use std::alloc::{AllocError, Global};

/// The header and the rows so far, under DISTINCT each once.
#[derive(Drop)]
pub struct OrderedRows {
    header: Vec<u8>,
    rows: Vec<ResultRow>,
    seen: Option<DistinctLines>,
    line: Vec<u8>,
}

impl OrderedRows {
    /// The header, and no row yet; under DISTINCT rows are told apart by their lines.
    pub fn new(alloc: Global, items: &[Item], distinct: bool) -> Result<OrderedRows, AllocError>
        ensures nothing { IfOk result (HasOrdered (map (λ (i : b.Item). i.name) (items_of items.now)) []) }
        ensures distinct { IfOk result (λ o. is_some o.seen ≡ distinct) }
    {
        let mut header = Vec::new(alloc);
        write_header(&mut header, items)?;
        Ok(OrderedRows {
            header,
            rows: Vec::new(alloc),
            seen: DistinctLines::if_distinct(alloc, distinct),
            line: Vec::new(alloc),
        })
    }

    /// Adds a row; under DISTINCT none that is there.
    pub fn add<S: Environment>(
        &mut self,
        alloc: Global,
        items: &[Item],
        env: &S,
    ) -> Result<(), AnswerFault>
        requires { AllByRecursion (CanGive (S.environment env.now)) (items_of items.now) }
        ensures added { OnOk result ((names : List (List ℕ)) (rows : List Row) → HasOrdered names rows self.old →
            HasOrdered names (rows ++ row_in (S.environment env.now) (items_of items.now) ∷ []) self.new) }
        ensures distinct { is_some self.new.seen ≡ is_some self.old.seen }
        ensures quiet { OnOk result (row_raises_in (S.environment env.now) (items_of items.now) ≡ []) }
        ensures raised { IfErr result (λ fault. IfRaised fault
            (Contains (row_raises_in (S.environment env.now) (items_of items.now)))) }
    {
        let row = keep_row(alloc, items, env)?;
        if self.is_new(alloc, &row)? {
            self.rows.push(row)?;
        }
        Ok(())
    }

    /// Notes a row, and tells whether it did not come before; without DISTINCT each counts as new.
    fn is_new(&mut self, alloc: Global, row: &ResultRow) -> Result<bool, AllocError>
        ensures rows { self.new.rows ≡ self.old.rows }
        ensures header { self.new.header ≡ self.old.header }
        ensures noted { IfOk result (λ new. IsNotedLine self.old.seen self.new.seen new (row_of row.now)) }
        ensures distinct { is_some self.new.seen ≡ is_some self.old.seen }
    {
        match &mut self.seen {
            None => Ok(true),
            Some(seen) => {
                self.line.clear();
                write_kept(&mut self.line, row)?;
                seen.add(alloc, &self.line)
            }
        }
    }

    /// The text that is printed: the header, the rows in the order of the keys, and how many there are.
    pub fn end(self, keys: &[Key]) -> Result<Vec<u8>, AllocError>
        ensures { IfOk result (λ text. (names : List (List ℕ)) (rows : List Row) (shapes : List Shape) →
            HasOrdered names rows self → AllByRecursion (HasShapes shapes) rows →
            (printed : List Row) × AreArranged (is_some self.seen) (map key_of keys.now) rows printed
            × (text.items ≡ table_text names printed)) }
    {
        let OrderedRows {
            header,
            mut rows,
            seen: _,
            line: _,
        } = self;
        order_rows(&mut rows, keys)?;
        print_rows(header, &rows)
    }
}

/// Rows behind their header.
fn print_rows(mut text: Vec<u8>, rows: &[ResultRow]) -> Result<Vec<u8>, AllocError>
    ensures { IfOk result (λ whole. (names : List (List ℕ)) → text.items ≡ fields_line names →
        whole.items ≡ table_text names (rows_of rows.now)) }
{
    'rows: for row in rows {
        write_kept(&mut text, row)?;
    }
    write_count(&mut text, rows.len() as u64)?;
    Ok(text)
}
