//! Composites packed: the rows of some tables alone.

ghost use Rattle.std.specs.Prelude.{◌≡◌, ◌≤◌, length};
ghost use Rattle.filters.specs.Composites.{numbers_in};
ghost use Rattle.tuple_sort.specs.Packing.{packed, row_in, unpacked};

use filters::Composite;

/// The row of a table among packed rows, and 0 for a table that has none there.
pub(crate) fn row_in(members: &[usize], rows: &[u32], table: usize) -> u32
    ensures { result ≡ row_in members.now rows.now table }
{
    'places: for place in 0..members.len() {
        if members[place] == table {
            return rows.get(place).copied().unwrap_or(0);
        }
    }
    0
}

/// The rows of some tables in a composite, and 0 in the room behind them.
pub(crate) fn pack<const WIDTH: usize>(members: &[usize], composite: &[u32]) -> [u32; WIDTH]
    requires room { length members.now ≤ WIDTH }
    ensures { result ≡ packed WIDTH members.now composite.now }
{
    let mut rows = [0; WIDTH];
    'places: for place in 0..members.len() {
        rows[place] = composite.get(members[place]).copied().unwrap_or(0);
    }
    rows
}

/// The composite of packed rows, of a block of so many tables.
pub(crate) fn unpack(members: &[usize], rows: &[u32], width: usize) -> Composite
    requires few { width ≤ 14 }
    ensures { numbers_in width result ≡ unpacked width members.now rows.now }
{
    let mut composite = Composite::nothing();
    'tables: for table in 0..width {
        composite = composite.with(table, row_in(members, rows, table));
    }
    composite
}
