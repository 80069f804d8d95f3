//! The cells of an index's columns.

ghost use Rattle.std.specs.Prelude.{◌≡◌, ◌<◌, IfOk, length};
ghost use Rattle.std.specs.List.{AllByRecursion};
ghost use Rattle.indexes.specs.Keys.{columns_of};
ghost use Rattle.indexes.specs.KeyColumns.{key_cells};

use loading::TableColumn;
use std::alloc::{AllocError, Global};

/// The cells of the columns of these numbers. An `Err` comes of memory alone.
pub(crate) fn key_columns<'a>(
    alloc: Global,
    columns: &'a [TableColumn],
    numbers: &[usize],
) -> Result<Vec<&'a columns::Column>, AllocError>
    requires { AllByRecursion (λ n. n < length columns.now) numbers.now }
    ensures { IfOk result (λ keys. columns_of keys.items ≡ key_cells columns.now numbers.now) }
{
    let mut keys = Vec::new(alloc);
    for number in numbers {
        keys.push(columns[*number].cells())?;
    }
    Ok(keys)
}
