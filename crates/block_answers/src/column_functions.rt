//! Blocks whose set functions are of columns.

ghost use Rattle.std.specs.Prelude.{◌≡◌, map, true};
ghost use Rattle.std.specs.List.{AllByRecursion};
ghost use Rattle.query_tree.specs.Bound.{bound_function_of};
ghost use Rattle.grouping.specs.Batches.{IsOfColumn};

use query_tree::{Aggregate, ValueExpr};

/// Whether each set function is COUNT(*), or of a column of one of so many tables.
pub(crate) fn are_of_columns(functions: &[Aggregate], width: usize) -> bool
    ensures { result ≡ true → AllByRecursion (IsOfColumn width) (map bound_function_of functions.now) }
{
    'functions: for function in functions {
        if !is_of_column(function, width) {
            return false;
        }
    }
    true
}

/// Whether a set function is COUNT(*), or of a column.
fn is_of_column(function: &Aggregate, width: usize) -> bool
    ensures { result ≡ true → IsOfColumn width (bound_function_of function.now) }
{
    match function {
        Aggregate::CountRows => true,
        Aggregate::OfValues {
            argument: ValueExpr::Column { column, .. },
            ..
        } => column.table < width,
        Aggregate::OfValues { .. } => false,
    }
}
