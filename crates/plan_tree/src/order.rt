//! Sort keys: a column of a block, and a direction.

use query_tree::BlockColumn;

/// A column that rows go by, and its direction (ISO/IEC 9075:1992, 13.1). An order is a list of them: rows go by the first,
/// those equal in it by the second, and so on.
#[derive(Clone, Copy, Debug, PartialEq, Eq)]
pub struct SortKey {
    pub column: BlockColumn,
    pub descending: bool,
}
