//! Lists of statements, and how many elements each may have.

ghost use Rattle.std.specs.Prelude.{◌≡◌};
ghost use Rattle.parse_tree.specs.Lists.{most_of};

/// A kind of list that a statement has.
#[derive(Clone, Copy, PartialEq, Eq)]
pub enum ListKind {
    /// The columns of CREATE TABLE.
    Columns,
    /// The columns of an index.
    IndexColumns,
    /// The items of a select list.
    Items,
    /// The tables of FROM.
    Tables,
    /// The members of an IN list.
    Members,
    /// The columns of GROUP BY.
    GroupColumns,
    /// The keys of ORDER BY.
    Keys,
}

/// How many columns a table may have (own).
pub const MAX_COLUMNS: usize = 64;

/// How many columns an index may have (own).
pub const MAX_INDEX_COLUMNS: usize = 4;

/// How many items a select list may have (own).
pub const MAX_ITEMS: usize = 64;

/// How many tables a FROM may have (own).
pub const MAX_FROM_TABLES: usize = 14;

/// How many members a list of IN may have (own).
pub const MAX_MEMBERS: usize = 256;

/// How many columns GROUP BY may have (own).
pub const MAX_GROUP_COLUMNS: usize = 16;

/// How many keys ORDER BY may have (own).
pub const MAX_KEYS: usize = 16;

impl ListKind {
    /// How many elements such a list may have (own).
    pub fn most(self) -> usize
        ensures { result ≡ most_of self }
    {
        match self {
            ListKind::Columns => MAX_COLUMNS,
            ListKind::IndexColumns => MAX_INDEX_COLUMNS,
            ListKind::Items => MAX_ITEMS,
            ListKind::Tables => MAX_FROM_TABLES,
            ListKind::Members => MAX_MEMBERS,
            ListKind::GroupColumns => MAX_GROUP_COLUMNS,
            ListKind::Keys => MAX_KEYS,
        }
    }
}

/// A list of a statement, by its kind and the offset of what has it: the word SELECT of a block, the word IN, or the name
/// of a table that is made, or whose columns are indexed.
#[derive(Clone, Copy)]
pub struct ListPlace {
    pub kind: ListKind,
    pub owner: usize,
}

/// A list that has more elements than it may. Its tree has one more than it may have; all are counted.
#[derive(Clone, Copy)]
pub struct LongList {
    pub place: ListPlace,
    /// How many elements are written.
    pub count: usize,
}
