//! The statistics that SET STATISTICS gives for an index (own).

ghost use Rattle.std.specs.Prelude.{◌≡◌, Some, IfOk, IfErr, IfSome, IfNone, OnOk};
ghost use Rattle.definitions.specs.Value as spec;
ghost use Rattle.definitions.specs.Change.{StatisticsKept, KeptAs, RangeKept};
ghost use Rattle.definitions.specs.IndexFaults.{Falls, NeverKept};
ghost use Rattle.definitions.specs.Invariant.{IsCount, IsPageCount};
ghost use Rattle.sqlvalue.specs.Meaning.{type_of};
ghost use Rattle.indexes.specs.Meaning.{index_statistics_of, key_range_of};
ghost use Rattle.parse_tree.specs.Trees.{bound_of, range_of, statistics_of};
ghost use Rattle.catalog.specs.Statistics.{IsGiven, RefusesGiven, RefusesRange};

use crate::fault::{RangeEnd, StatisticsFault};
use indexes::{IndexStatistics, KeyRange};
use loading::{WrittenNumber, units_in};
use parse_tree::{Bound, Range};
use sqlvalue::SqlType;

/// The greatest statistic that SET STATISTICS may give (own).
pub const MAX_STATISTIC: u128 = 1_000_000_000_000_000_000;

/// A count of rows or keys, if it is in range.
pub(crate) fn row_count(given: u128) -> Option<u64>
    ensures some { IfSome result (λ count. (count ≡ given)) }
    ensures range { IfSome result IsCount }
    ensures none { IfNone result (¬ (IsCount given)) }
{
    if given <= MAX_STATISTIC {
        Some(given as u64)
    } else {
        None
    }
}

/// A count of pages, of which there is one at least, if it is in range.
pub(crate) fn page_count(given: u128) -> Option<u64>
    ensures some { IfSome result (λ count. (count ≡ given)) }
    ensures range { IfSome result IsPageCount }
    ensures none { IfNone result (¬ (IsPageCount given)) }
{
    if 1 <= given && given <= MAX_STATISTIC {
        Some(given as u64)
    } else {
        None
    }
}

/// The statistics as they are kept for an index whose first column is of a type.
pub(crate) fn kept_statistics(
    given: &parse_tree::IndexStatistics,
    sql_type: SqlType,
) -> Result<IndexStatistics, StatisticsFault>
    requires { spec.IsType (type_of sql_type) }
    ensures kept { IfOk result (λ kept. StatisticsKept (type_of sql_type) (statistics_of given.now)
        (index_statistics_of kept)) }
    ensures given { OnOk result (IsGiven (statistics_of given.now)) }
    ensures refused { IfErr result (RefusesGiven (type_of sql_type) (statistics_of given.now)) }
{
    let Some(keys) = row_count(given.keys.units) else {
        return Err(StatisticsFault::Keys);
    };
    let Some(pages) = page_count(given.pages.units) else {
        return Err(StatisticsFault::Pages);
    };
    let range = match given.range {
        Some(range) => match kept_range(range, sql_type) {
            Ok(range) => Some(range),
            Err(fault) => return Err(fault),
        },
        None => None,
    };
    Ok(IndexStatistics {
        keys,
        pages,
        clustered: given.clustered,
        range,
    })
}

/// LOW and HIGH in units at the scale of a type, whose values equal to them they stand for.
fn kept_range(range: Range, sql_type: SqlType) -> Result<KeyRange, StatisticsFault>
    requires { spec.IsType (type_of sql_type) }
    ensures kept { IfOk result (λ kept. RangeKept (type_of sql_type) (Some (range_of range))
        (Some (key_range_of kept))) }
    ensures rising { OnOk result (¬ (Falls (range_of range))) }
    ensures refused { IfErr result (RefusesRange (type_of sql_type) (range_of range)) }
{
    if let SqlType::Char { .. } = sql_type {
        return Err(StatisticsFault::Texts);
    }
    let Some(low) = kept_units(range.low, sql_type) else {
        return Err(StatisticsFault::Unfit { end: RangeEnd::Low });
    };
    let Some(high) = kept_units(range.high, sql_type) else {
        return Err(StatisticsFault::Unfit {
            end: RangeEnd::High,
        });
    };
    if low > high {
        return Err(StatisticsFault::Falls);
    }
    Ok(KeyRange {
        low: i128::from(low),
        high: i128::from(high),
    })
}

/// The units at a type's scale of its number that is equal to a bound, if there is one.
fn kept_units(bound: Bound, sql_type: SqlType) -> Option<i64>
    requires numbers { spec.kind_of (type_of sql_type) ≡ spec.Numbers }
    requires valid { spec.IsType (type_of sql_type) }
    ensures some { IfSome result (KeptAs (type_of sql_type) (bound_of bound)) }
    ensures none { IfNone result (NeverKept (type_of sql_type) (bound_of bound)) }
{
    let written = WrittenNumber {
        negative: bound.minus,
        digits: bound.number.units,
        scale: usize::from(bound.number.scale),
    };
    units_in(written, sql_type)
}
