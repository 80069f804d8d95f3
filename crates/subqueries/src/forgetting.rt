//! Results that are given up, so that those that are kept take no more memory than they may.

ghost use Rattle.std.specs.Prelude.{◌≡◌, IfSome, map};
ghost use Rattle.definitions_answers.specs.Parameters.{outer_values};
ghost use Rattle.sqlvalue.specs.Owned.{owned_value};
ghost use Rattle.subqueries.specs.Keeping.{AreLeftOut};
ghost use Rattle.subqueries.specs.OuterColumns.{outer_columns_of};

use crate::kept_results::{KeptResults, key_in};
use crate::parameters::OuterColumn;
use filters::OuterRows;
use sqlvalue::OwnedValue;
use std::alloc::Global;

/// How many bytes the results that are kept for a query take together at most, beside the latest of each block (own).
const MOST_BYTES: u64 = 64 << 20;

/// The values that the parameters have in the rows around, to keep a result by. Where memory for them is refused all results but the
/// latest of each block are given up, and it is asked for again; where it is refused once more there are none.
pub fn key_of<A: OuterRows>(
    alloc: Global,
    parameters: &[OuterColumn],
    around: &A,
    results: &mut [KeptResults],
) -> Option<Vec<OwnedValue>>
    ensures key { IfSome result (λ key. map owned_value key.items
        ≡ outer_values (A.combinations around.now) (outer_columns_of parameters.now)) }
    ensures results { AreLeftOut results.old results.new }
{
    if let Ok(key) = key_in(alloc, parameters, around) {
        return Some(key);
    }
    forget_all(results);
    key_in(alloc, parameters, around).ok()
}

/// Gives up all results but the latest of each block where they take more memory than they may.
pub fn bound_memory(results: &mut [KeptResults])
    ensures { AreLeftOut results.old results.new }
{
    if bytes_of_all(results) > MOST_BYTES {
        forget_all(results);
    }
}

/// About how many bytes all kept results take.
fn bytes_of_all(results: &[KeptResults]) -> u64 {
    let mut bytes: u64 = 0;
    for own in results {
        bytes = bytes.saturating_add(own.bytes());
    }
    bytes
}

/// Gives up all results but the latest of each block.
fn forget_all(results: &mut [KeptResults])
    ensures { AreLeftOut results.old results.new }
{
    'blocks: for number in 0..results.len() {
        results[number].forget();
    }
}
