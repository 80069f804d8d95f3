//! The statistics by which plans are judged (Selinger et al. 1979, section 4).

ghost use Rattle.std.specs.Prelude.{◌≡◌, ◌≤◌, length};
ghost use Rattle.std.specs.List.{AllByRecursion};
ghost use Rattle.definitions.specs.Limits.{most_columns, most_rows};
ghost use Rattle.definitions.specs.Value.{IsType};
ghost use Rattle.definitions.specs.Table as spec;
ghost use Rattle.definitions.specs.Statistics.{row_width, pages_for};
ghost use Rattle.loading.specs.Stored.{headers};
ghost use Rattle.indexes.specs.Meaning.{table_statistics_of};

use crate::pages::row_pages;
use loading::TableColumn;

/// How many rows a table is taken to have, and on how many pages (NCARD and TCARD).
#[derive(Clone, Copy, Debug, PartialEq, Eq)]
pub struct TableStatistics {
    pub rows: u64,
    pub pages: u64,
}

impl TableStatistics {
    /// The statistics of a table of so many rows.
    pub fn table_statistics(columns: &[TableColumn], rows: usize) -> TableStatistics
        requires narrow { length columns.now ≤ most_columns }
        requires types { AllByRecursion (λ (c : spec.Column). IsType c.type) (headers columns.now) }
        requires few { rows ≤ most_rows }
        ensures { table_statistics_of result ≡ record {
          rows = rows;
          pages = pages_for rows
              (row_width (headers columns.now));
        } }
    {
        TableStatistics {
            rows: rows as u64,
            pages: row_pages(columns, rows),
        }
    }
}

/// The least and the greatest key, in units at the column's scale.
#[derive(Clone, Copy, Debug, PartialEq, Eq)]
pub struct KeyRange {
    pub low: i128,
    pub high: i128,
}

/// How many keys without a null an index is taken to have, on how many pages, whether rows of near keys lie near each
/// other, and the range of the keys of its first column, if it is known (ICARD, NINDX, clustered, low and high key
/// value).
#[derive(Clone, Copy, Debug, PartialEq, Eq)]
pub struct IndexStatistics {
    pub keys: u64,
    pub pages: u64,
    pub clustered: bool,
    pub range: Option<KeyRange>,
}
