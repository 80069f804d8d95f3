//! How many pages rows and entries take (own, after Selinger et al. 1979, section 4).

ghost use Rattle.std.specs.Prelude.{◌≡◌, ◌≤◌, ◌<◌, ◌+◌, ◌*◌, length};
ghost use Rattle.std.specs.List.{AllByRecursion};
ghost use Rattle.definitions.specs.Limits.{most_columns, most_index_columns, most_rows};
ghost use Rattle.definitions.specs.Statistics as statistics;
ghost use Rattle.loading.specs.Stored.{headers};
ghost use Rattle.sqlvalue.specs.Meaning.{type_of};

use loading::TableColumn;
use sqlvalue::SqlType;

const PAGE_BYTES: u64 = 4096;

/// What a row and an entry take beside their values, in bytes.
const OWN_BYTES: u64 = 8;

/// The pages of so many rows of a table.
pub(crate) fn row_pages(columns: &[TableColumn], rows: usize) -> u64
    requires narrow { length columns.now ≤ most_columns }
    requires few { rows ≤ most_rows }
    ensures { result ≡ statistics.pages_for rows (statistics.row_width (headers columns.now)) }
{
    pages_for(rows as u64, row_width(columns))
}

/// The pages of so many entries of an index on columns.
pub(crate) fn entry_pages(columns: &[TableColumn], numbers: &[usize], rows: usize) -> u64
    requires short { length numbers.now ≤ most_index_columns }
    requires there { AllByRecursion (λ n. n < length columns.now) numbers.now }
    requires few { rows ≤ most_rows }
    ensures { result ≡ statistics.pages_for rows (statistics.entry_width (headers columns.now) numbers.now) }
{
    pages_for(rows as u64, entry_width(columns, numbers))
}

/// What a row of a table takes, in bytes.
pub fn row_width(columns: &[TableColumn]) -> u64
    requires narrow { length columns.now ≤ most_columns }
    ensures exact { result ≡ statistics.row_width (headers columns.now) }
    ensures bound { result ≤ 20000 }
{
    let mut width = OWN_BYTES;
    for column in columns {
        width += value_bytes(column.sql_type());
    }
    width
}

fn entry_width(columns: &[TableColumn], numbers: &[usize]) -> u64
    requires short { length numbers.now ≤ most_index_columns }
    requires there { AllByRecursion (λ n. n < length columns.now) numbers.now }
    ensures exact { result ≡ statistics.entry_width (headers columns.now) numbers.now }
    ensures bound { result ≤ 20000 }
{
    let mut width = OWN_BYTES;
    for number in numbers {
        width += value_bytes(columns[*number].sql_type());
    }
    width
}

/// What a value of a type takes, in bytes.
fn value_bytes(sql_type: SqlType) -> u64
    ensures exact { result ≡ statistics.bytes_of (type_of sql_type) }
    ensures bound { result ≤ 255 }
{
    match sql_type {
        SqlType::Smallint => 2,
        SqlType::Integer => 4,
        SqlType::Numeric { .. } => 8,
        SqlType::Char { length } => u64::from(length),
    }
}

/// The pages of so many rows or entries of a width in bytes, of which there is one at least.
fn pages_for(count: u64, width: u64) -> u64
    requires few { count ≤ most_rows }
    requires narrow { width ≤ 20000 }
    ensures { result ≡ statistics.pages_for count width }
{
    (count * width).div_ceil(PAGE_BYTES).max(1)
}
