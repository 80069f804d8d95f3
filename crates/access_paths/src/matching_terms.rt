//! The conjuncts that match a column.

ghost use Rattle.std.specs.Prelude.{◌≡◌, ◌<◌, ◌∷◌, ◌++◌, [], IfOk, OnOk, filter_map, length, map, option_map};
ghost use Rattle.definitions.specs.Queries.Conjuncts as queries;
ghost use Rattle.query_tree.specs.Bound.{block_of, column_of};
ghost use Rattle.access_paths.specs.Matches as spec;
ghost use Rattle.access_paths.specs.Views.{matching_term_of};

use crate::sargable_terms::sargable_term;
use estimate::Estimate;
use plan_tree::TableSet;
use query_tree::BlockColumn;
use std::alloc::{AllocError, Global};

/// A conjunct that matches a column once the rows of some tables are known, and whether it says what the column equals.
#[derive(Clone, Copy)]
pub(crate) struct MatchingTerm {
    pub conjunct: usize,
    pub equals: bool,
    pub required_outer: TableSet,
}

/// The conjuncts of a block that match a column, in text order.
pub(crate) fn column_matches(
    alloc: Global,
    estimate: &Estimate,
    column: BlockColumn,
) -> Result<Vec<MatchingTerm>, AllocError>
    ensures exact { IfOk result (λ matches. map matching_term_of matches.items
        ≡ spec.column_matches (block_of estimate.now.block) (column_of column)) }
{
    let mut matches = Vec::new(alloc);
    'numbers: for number in 0..estimate.conjuncts().len() {
        push_match(&mut matches, estimate, column, number)?;
    }
    Ok(matches)
}

/// Adds a conjunct if it matches a column.
fn push_match(
    matches: &mut Vec<MatchingTerm>,
    estimate: &Estimate,
    column: BlockColumn,
    number: usize,
) -> Result<(), AllocError>
    requires there { number < length (queries.conjuncts (block_of estimate.now.block)) }
    ensures exact { OnOk result (map matching_term_of matches.new.items
        ≡ map matching_term_of matches.old.items ++ filter_map
        (spec.match_at (block_of estimate.now.block) (column_of column)) (number ∷ [])) }
{
    if let Some(found) = match_at(estimate, column, number) {
        matches.push(found)?;
    }
    Ok(())
}

/// How a conjunct matches a column, if it does.
fn match_at(estimate: &Estimate, column: BlockColumn, number: usize) -> Option<MatchingTerm>
    requires there { number < length (queries.conjuncts (block_of estimate.now.block)) }
    ensures exact { option_map matching_term_of result ≡ spec.match_at (block_of estimate.now.block) (column_of column)
        number }
{
    let planned = estimate.conjuncts()[number];
    if planned.conjunct.late {
        return None;
    }
    let bound = sargable_term(column, planned.conjunct)?;
    Some(MatchingTerm {
        conjunct: number,
        equals: bound.equals,
        required_outer: bound.required_outer,
    })
}
