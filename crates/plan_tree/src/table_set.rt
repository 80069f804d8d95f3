//! Sets of the tables of a block, one bit a table.

ghost use Rattle.std.specs.Prelude.{ℕ, ◌≡◌, ◌<◌, ◌≤◌, ◌==◌, ◌^◌, bit_or};
ghost use Rattle.std.specs.Bool.{Decides};
ghost use Rattle.definitions.specs.Limits.{most_from_tables};
ghost use Rattle.definitions.specs.Plans.TableSet.{Has, no_tables, only, with_table, first_tables};
ghost use Rattle.definitions.specs.Estimates.BlockTables.{has, is_within};

/// How many tables the FROM of a block may have (own).
pub const MAX_FROM_TABLES: usize = 14;

/// A set of the tables of a block, which are numbered from 0 in the order of FROM (own).
#[derive(Clone, Copy, Debug, PartialEq, Eq)]
pub struct TableSet {
    bits: u16,
    ghost few: { bits < 2 ^ most_from_tables },
}

impl TableSet {
    ghost use Rattle.plan_tree.specs.Sets.{set_of};

    /// The empty set.
    pub fn none() -> TableSet
        ensures { set_of result ≡ no_tables }
    {
        TableSet { bits: 0 }
    }

    /// The set of one table.
    pub fn only(table: usize) -> TableSet
        requires { table < most_from_tables }
        ensures { set_of result ≡ only table }
    {
        TableSet { bits: 1 << table }
    }

    /// The set of the first tables of a block, so many of them.
    pub fn first(count: usize) -> TableSet
        requires { count ≤ most_from_tables }
        ensures { set_of result ≡ first_tables count }
    {
        TableSet {
            bits: (1 << count) - 1,
        }
    }

    /// The set of a place among all sets, which the empty one begins.
    pub fn at(place: usize) -> TableSet
        requires { place < 2 ^ most_from_tables }
        ensures { set_of result ≡ place }
    {
        TableSet { bits: place as u16 }
    }

    /// The place of the set among all sets.
    pub fn place(self) -> usize
        ensures exact { result ≡ set_of self }
        ensures few { result < 2 ^ most_from_tables }
    {
        usize::from(self.bits)
    }

    /// Whether there is no table in the set.
    pub fn is_empty(self) -> bool
        ensures { result ≡ set_of self == no_tables }
    {
        self.bits == 0
    }

    /// Whether a table is in the set.
    pub fn has(self, table: usize) -> bool
        ensures { result ≡ has (set_of self) table }
    {
        table < MAX_FROM_TABLES && self.bits >> table & 1 == 1
    }

    /// The set with one more table.
    pub fn with(self, table: usize) -> TableSet
        requires { table < most_from_tables }
        ensures { set_of result ≡ with_table (set_of self) table }
    {
        self.union(TableSet::only(table))
    }

    /// The tables that are in one of two sets, or in both.
    pub fn union(self, other: TableSet) -> TableSet
        ensures { set_of result ≡ bit_or (set_of self) (set_of other) }
    {
        TableSet {
            bits: self.bits | other.bits,
        }
    }

    /// Whether two sets have a table in common.
    pub fn meets(self, other: TableSet) -> bool
        ensures { Decides result ((table : ℕ) × Has (set_of self) table × Has (set_of other) table) }
    {
        self.bits & other.bits != 0
    }

    /// Whether all tables of the set are in another.
    pub fn is_within(self, other: TableSet) -> bool
        ensures { result ≡ is_within (set_of self) (set_of other) }
    {
        self.bits | other.bits == other.bits
    }
}
