//! How rows and composites rank by keys.

ghost use Rattle.std.specs.Prelude.{◌≡◌};
ghost use Rattle.definitions.specs.Queries.Outcomes.{directed};
ghost use Rattle.definitions.specs.Value as spec;
ghost use Rattle.sqlvalue.specs.Meaning.{value_of};
ghost use Rattle.definitions_execution.specs.RowOrder.{ranked_by};
ghost use Rattle.plan_tree.specs.Plans.{key_of, order_of};
ghost use Rattle.tuple_sort.specs.Keys.{ranked_by_keys};
ghost use Rattle.tuple_sort.specs.Values.{value_in_packed};

use crate::packing::row_in;
use crate::sort_tuple::SortTuple;
use filters::BlockSource;
use plan_tree::SortKey;
use sqlvalue::{Value, rank};
use std::cmp::Ordering;

/// How packed rows rank by what stands beside them, in the direction of an order's first key, and then by the rest.
pub(crate) fn rank_of_keyed<const WIDTH: usize>(
    source: &BlockSource<'_>,
    first: &SortKey,
    rest: &[SortKey],
    members: &[usize],
    a: &SortTuple<WIDTH>,
    b: &SortTuple<WIDTH>,
) -> Ordering
    ensures { result ≡ ranked_by_keys (value_in_packed source.now members.now) (key_of first.now)
        (order_of rest.now) a.now b.now }
{
    if a.key != b.key {
        return by_direction(a.key.cmp(&b.key), first.descending);
    }
    rank_of_packed(source, rest, members, a.rows.as_slice(), b.rows.as_slice())
}

/// How packed rows rank by the keys of an order: the first that tells them apart decides (ISO/IEC 9075:1992, 13.1, general rule 2).
pub(crate) fn rank_of_packed(
    source: &BlockSource<'_>,
    order: &[SortKey],
    members: &[usize],
    a: &[u32],
    b: &[u32],
) -> Ordering
    ensures { result ≡ ranked_by (value_in_packed source.now members.now) (order_of order.now) a.now b.now }
{
    'keys: for key in order {
        let table = key.column.table;
        let ranked = rank_of_values(
            &source.cell(key.column, row_in(members, a, table) as usize),
            &source.cell(key.column, row_in(members, b, table) as usize),
        );
        if ranked != Ordering::Equal {
            return by_direction(ranked, key.descending);
        }
    }
    Ordering::Equal
}

/// How two values rank. Numbers of one scale, as those of a column are, need no look at it.
fn rank_of_values(a: &Value, b: &Value) -> Ordering
    ensures { result ≡ spec.rank (value_of a.now) (value_of b.now) }
{
    match (a, b) {
        (Value::Num(x), Value::Num(y)) if x.scale == y.scale => x.units.cmp(&y.units),
        _ => rank(a, b),
    }
}

/// A rank in the direction of a key.
fn by_direction(ranked: Ordering, descending: bool) -> Ordering
    ensures { result ≡ directed descending ranked }
{
    if descending { ranked.reverse() } else { ranked }
}
