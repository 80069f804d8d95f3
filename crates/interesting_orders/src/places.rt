//! The columns that conjuncts equate, and their places.

ghost use Rattle.std.specs.Prelude.{◌≡◌, ◌+◌, ◌*◌, ◌≤◌, IfOk, OnOk, length, map, option_map};
ghost use Rattle.std.specs.Bool.{Decides};
ghost use Rattle.query_tree.specs.Bound.{column_of};
ghost use Rattle.interesting_orders.specs.Classes.{AreDistinct};
ghost use Rattle.predicates.specs.Columns.{pair_of};
ghost use Rattle.estimate.specs.PlanConjuncts.{conjunct_of};
ghost use Rattle.interesting_orders.specs.Places.{given, sides_of, AreStated, HasColumn, HasSides, HaveSides, IsEquation, IsGrown, IsPlace};

use crate::equivalence_classes::Equality;
use estimate::PlanConjunct;
use query_tree::BlockColumn;
use std::alloc::{AllocError, Global};

/// The columns that an early conjunct equates.
pub(crate) fn sides(conjunct: &PlanConjunct) -> Option<(BlockColumn, BlockColumn)>
    ensures { option_map pair_of result ≡ sides_of (conjunct_of conjunct.now) }
{
    let conjunct = conjunct.conjunct;
    if conjunct.late {
        None
    } else {
        conjunct.equated
    }
}

/// The columns that early conjuncts equate, each once.
pub(crate) fn equated_columns(
    alloc: Global,
    conjuncts: &[PlanConjunct],
) -> Result<Vec<BlockColumn>, AllocError>
    ensures distinct { IfOk result (λ columns. AreDistinct (map column_of columns.items)) }
    ensures whole { IfOk result (λ columns. HaveSides (map column_of columns.items) (map conjunct_of conjuncts.now)) }
    ensures few { IfOk result (λ columns. length columns.items ≤ 2 * length conjuncts.now) }
{
    let mut columns = Vec::new(alloc);
    'conjuncts: for conjunct in conjuncts {
        add_sides(&mut columns, sides(conjunct))?;
    }
    Ok(columns)
}

/// Adds the columns of an equation.
fn add_sides(
    columns: &mut Vec<BlockColumn>,
    sides: Option<(BlockColumn, BlockColumn)>,
) -> Result<(), AllocError>
    ensures grown { OnOk result (IsGrown (map column_of columns.old.items) (map column_of columns.new.items)) }
    ensures there { OnOk result (HasSides (map column_of columns.new.items) (option_map pair_of sides)) }
    ensures few { OnOk result (length columns.new.items ≤ length columns.old.items + 2) }
{
    if let Some((x, y)) = sides {
        add(columns, x)?;
        add(columns, y)?;
    }
    Ok(())
}

/// Adds a column, if it isn't there.
fn add(columns: &mut Vec<BlockColumn>, column: BlockColumn) -> Result<(), AllocError>
    ensures grown { OnOk result (IsGrown (map column_of columns.old.items) (map column_of columns.new.items)) }
    ensures there { OnOk result (HasColumn (map column_of columns.new.items) (column_of column)) }
    ensures few { OnOk result (length columns.new.items ≤ length columns.old.items + 1) }
{
    if place_of(columns, column).is_none() {
        columns.push(column)?;
    }
    Ok(())
}

/// The place of a column in a list.
pub(crate) fn place_of(columns: &[BlockColumn], column: BlockColumn) -> Option<usize>
    ensures { IsPlace (map column_of columns.now) (column_of column) result }
{
    'columns: for place in 0..columns.len() {
        if are_equal(columns[place], column) {
            return Some(place);
        }
    }
    None
}

/// Whether two columns are one.
pub(crate) fn are_equal(a: BlockColumn, b: BlockColumn) -> bool
    ensures { Decides result (column_of a ≡ column_of b) }
{
    a.table == b.table && a.number == b.number
}

/// What each conjunct equates, by places in a list of columns.
pub(crate) fn equations_of(
    alloc: Global,
    columns: &[BlockColumn],
    conjuncts: &[PlanConjunct],
) -> Result<Vec<Option<Equality>>, AllocError>
    ensures { IfOk result (λ equations. AreStated (map column_of columns.now) (map conjunct_of conjuncts.now)
        equations.items) }
{
    let mut equations = Vec::new(alloc);
    'conjuncts: for conjunct in conjuncts {
        equations.push(equation_of(columns, sides(conjunct)))?;
    }
    Ok(equations)
}

/// An equation by the places of its columns, if both are there.
fn equation_of(
    columns: &[BlockColumn],
    sides: Option<(BlockColumn, BlockColumn)>,
) -> Option<Equality>
    ensures { IsEquation (map column_of columns.now) (option_map pair_of sides) result }
{
    let (x, y) = sides?;
    Some(Equality {
        left: place_of(columns, x)?,
        right: place_of(columns, y)?,
    })
}

/// The equations that are there.
pub(crate) fn given_equations(
    alloc: Global,
    equations: &[Option<Equality>],
) -> Result<Vec<Equality>, AllocError>
    ensures { IfOk result (λ found. found.items ≡ given equations.now) }
{
    let mut found = Vec::new(alloc);
    'equations: for equation in equations {
        if let Some(equation) = equation {
            found.push(*equation)?;
        }
    }
    Ok(found)
}
