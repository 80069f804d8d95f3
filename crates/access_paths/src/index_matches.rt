//! Matches of the columns of an index, one after another.

ghost use Rattle.std.specs.Prelude.{◌≡◌, ◌<◌, ◌≤◌, ◌++◌, IfOk, OnOk, length, map};
ghost use Rattle.std.specs.List.{AllByRecursion};
ghost use Rattle.definitions.specs.Limits.{most_index_columns};
ghost use Rattle.query_tree.specs.Bound.{block_of};
ghost use Rattle.access_paths.specs.Matches as spec;
ghost use Rattle.access_paths.specs.Views.{index_match_of, matching_term_of};

use crate::matching_terms::{MatchingTerm, column_matches};
use arrayvec::ArrayVec;
use estimate::Estimate;
use plan_tree::{MAX_MATCHED, TableSet};
use query_tree::BlockColumn;
use std::alloc::{AllocError, Global};

/// Conjuncts that match the first columns of an index in turn, one each; whether all say what their column equals; and the tables
/// whose rows have to be known.
#[derive(Drop)]
pub(crate) struct IndexMatch {
    pub conjuncts: ArrayVec<usize, MAX_MATCHED>,
    pub equal: bool,
    pub required_outer: TableSet,
}

/// The chains of the columns of an index (Selinger et al. 1979, section 4: an initial substring of the columns of the index key).
pub(crate) fn index_matches(
    alloc: Global,
    estimate: &Estimate,
    table: usize,
    columns: &[usize],
) -> Result<Vec<IndexMatch>, AllocError>
    requires short { length columns.now ≤ most_index_columns }
    ensures exact { IfOk result (λ chains. map index_match_of chains.items
        ≡ spec.index_matches (block_of estimate.now.block) table columns.now) }
{
    let mut chains = Vec::new(alloc);
    let mut rest = columns;
    'columns: while let Some((number, before)) = rest.split_last() {
        let column = BlockColumn {
            table,
            number: *number,
        };
        let matches = column_matches(alloc, estimate, column)?;
        chains = with_column(alloc, &matches, &chains)?;
        rest = before;
    }
    Ok(chains)
}

/// The chains of a column and those behind it.
fn with_column(
    alloc: Global,
    matches: &[MatchingTerm],
    others: &[IndexMatch],
) -> Result<Vec<IndexMatch>, AllocError>
    requires room { AllByRecursion (λ (c : spec.IndexMatch). length c.conjuncts
        < most_index_columns) (map index_match_of others.now) }
    ensures exact { IfOk result (λ chains. map index_match_of chains.items
        ≡ spec.with_column (map index_match_of others.now) (map matching_term_of matches.now)) }
{
    let mut chains = Vec::new(alloc);
    'matches: for found in matches {
        chains.push(only_match(*found))?;
        if found.equals {
            push_before(&mut chains, *found, others)?;
        }
    }
    Ok(chains)
}

fn only_match(found: MatchingTerm) -> IndexMatch
    ensures exact { index_match_of result ≡ spec.only_match (matching_term_of found) }
{
    let mut conjuncts = ArrayVec::new();
    conjuncts.push(found.conjunct);
    IndexMatch {
        conjuncts,
        equal: found.equals,
        required_outer: found.required_outer,
    }
}

/// Adds a match before each of some chains.
fn push_before(
    chains: &mut Vec<IndexMatch>,
    found: MatchingTerm,
    others: &[IndexMatch],
) -> Result<(), AllocError>
    requires room { AllByRecursion (λ (c : spec.IndexMatch). length c.conjuncts
        < most_index_columns) (map index_match_of others.now) }
    ensures exact { OnOk result (map index_match_of chains.new.items
        ≡ map index_match_of chains.old.items ++ map (spec.before (matching_term_of found)) (map index_match_of others.now)) }
{
    'others: for other in others {
        chains.push(before(found, other)?)?;
    }
    Ok(())
}

/// A match before a chain.
fn before(found: MatchingTerm, other: &IndexMatch) -> Result<IndexMatch, AllocError>
    requires room { length (index_match_of other.now).conjuncts < most_index_columns }
    ensures exact { IfOk result (λ index_match. index_match_of index_match ≡ spec.before (matching_term_of found) (index_match_of other.now)) }
{
    let mut conjuncts = other.conjuncts.clone()?;
    conjuncts.insert(0, found.conjunct);
    Ok(IndexMatch {
        conjuncts,
        equal: other.equal,
        required_outer: found.required_outer.union(other.required_outer),
    })
}
