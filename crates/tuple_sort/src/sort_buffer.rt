//! Packed rows, in the least room that holds them.

ghost use Rattle.std.specs.Prelude.{◌≡◌, ◌<◌, ◌≤◌, [], ◌∷◌, ◌++◌, IsPermutation, OnErr, OnOk, get_or, length, map};
ghost use Rattle.definitions_execution.specs.Lists.{Rises};
ghost use Rattle.definitions_execution.specs.RowOrder.{NotAfter};
ghost use Rattle.plan_tree.specs.Plans.{order_of};
ghost use Rattle.tuple_sort.specs.Keeping.{room_of, rows_of, single};
ghost use Rattle.tuple_sort.specs.Packing.{packed};
ghost use Rattle.tuple_sort.specs.Values.{value_in_packed};

use crate::packing::pack;
use crate::single::sort_single;
use crate::sort_tuple::SortTuple;
use crate::sorting::sort_packed;
use filters::BlockSource;
use plan_tree::{MAX_FROM_TABLES, SortKey};
use std::alloc::{AllocError, Global};

/// The rows of so many tables, or fewer, of each composite: of one table 4 bytes, and of two 16 with their keys.
#[derive(Drop)]
pub(crate) enum SortBuffer {
    One(Vec<u32>),
    Two(Vec<SortTuple<2>>),
    Four(Vec<SortTuple<4>>),
    Eight(Vec<SortTuple<8>>),
    All(Vec<SortTuple<MAX_FROM_TABLES>>),
}

impl SortBuffer {
    /// Room for the rows of so many tables.
    pub(crate) fn new(alloc: Global, tables: usize) -> SortBuffer
        requires { tables ≤ 14 }
        ensures rows { rows_of result ≡ [] }
        ensures room { tables ≤ room_of result }
        ensures single { tables ≡ 1 → room_of result ≡ 1 }
    {
        match tables {
            0 | 1 => SortBuffer::One(Vec::new(alloc)),
            2 => SortBuffer::Two(Vec::new(alloc)),
            3 | 4 => SortBuffer::Four(Vec::new(alloc)),
            5..=8 => SortBuffer::Eight(Vec::new(alloc)),
            _ => SortBuffer::All(Vec::new(alloc)),
        }
    }

    pub(crate) fn len(&self) -> usize
        ensures { result ≡ length (rows_of self.now) }
    {
        match self {
            SortBuffer::One(rows) => rows.len(),
            SortBuffer::Two(rows) => rows.len(),
            SortBuffer::Four(rows) => rows.len(),
            SortBuffer::Eight(rows) => rows.len(),
            SortBuffer::All(rows) => rows.len(),
        }
    }

    pub(crate) fn row(&self, place: usize) -> &[u32]
        requires { place < length (rows_of self.now) }
        ensures { result.now ≡ get_or (rows_of self.now) place [] }
    {
        match self {
            SortBuffer::One(rows) => &rows[place..place + 1],
            SortBuffer::Two(rows) => rows[place].rows.as_slice(),
            SortBuffer::Four(rows) => rows[place].rows.as_slice(),
            SortBuffer::Eight(rows) => rows[place].rows.as_slice(),
            SortBuffer::All(rows) => rows[place].rows.as_slice(),
        }
    }

    /// Adds the rows of some tables in a composite.
    pub(crate) fn push(&mut self, members: &[usize], composite: &[u32]) -> Result<(), AllocError>
        requires { length members.now ≤ room_of self.old }
        ensures room { room_of self.new ≡ room_of self.old }
        ensures ok { OnOk result (rows_of self.new ≡ rows_of self.old ++ packed (room_of self.old) members.now
            composite.now ∷ []) }
        ensures err { OnErr result (rows_of self.new ≡ rows_of self.old) }
    {
        match self {
            SortBuffer::One(rows) => rows.push(pack::<1>(members, composite)[0])?,
            SortBuffer::Two(rows) => rows.push(SortTuple::new(pack(members, composite)))?,
            SortBuffer::Four(rows) => rows.push(SortTuple::new(pack(members, composite)))?,
            SortBuffer::Eight(rows) => rows.push(SortTuple::new(pack(members, composite)))?,
            SortBuffer::All(rows) => rows.push(SortTuple::new(pack(members, composite)))?,
        }
        Ok(())
    }

    /// The rows, where there is room for those of one table.
    pub(crate) fn single_rows(&self) -> &[u32]
        requires { room_of self.now ≡ 1 }
        ensures { rows_of self.now ≡ map single result.now }
    {
        match self {
            SortBuffer::One(rows) => rows,
            _ => unreachable!(),
        }
    }

    /// Adds rows, where there is room for those of one table.
    pub(crate) fn push_rows(&mut self, added: &[u32]) -> Result<(), AllocError>
        requires { room_of self.old ≡ 1 }
        ensures room { room_of self.new ≡ room_of self.old }
        ensures ok { OnOk result (rows_of self.new ≡ rows_of self.old ++ map single added.now) }
        ensures err { OnErr result (rows_of self.new ≡ rows_of self.old) }
    {
        match self {
            SortBuffer::One(rows) => rows.extend_from_slice(added),
            _ => unreachable!(),
        }
    }

    /// Puts them in an order, in place.
    pub(crate) fn sort(&mut self, source: &BlockSource<'_>, order: &[SortKey], members: &[usize])
        ensures room { room_of self.new ≡ room_of self.old }
        ensures permutation { IsPermutation (rows_of self.old) (rows_of self.new) }
        ensures sorted { Rises (NotAfter (value_in_packed source.now members.now) (order_of order.now))
            (rows_of self.new) }
    {
        match self {
            SortBuffer::One(rows) => sort_single(rows, source, order, members),
            SortBuffer::Two(rows) => sort_packed(rows, source, order, members),
            SortBuffer::Four(rows) => sort_packed(rows, source, order, members),
            SortBuffer::Eight(rows) => sort_packed(rows, source, order, members),
            SortBuffer::All(rows) => sort_packed(rows, source, order, members),
        }
    }
}
