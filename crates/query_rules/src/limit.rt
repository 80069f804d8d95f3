//! What may be refused of a block before its names are bound.

ghost use Rattle.std.specs.Prelude.{◌≡◌, ◌<◌, ◌+◌, true, IfErr, IfSome, IsNone, OnOk, map};
ghost use Rattle.definitions.specs.Grammar.{operands};
ghost use Rattle.definitions.specs.Table.{Database as Tables};
ghost use Rattle.definitions.specs.Binding.Scopes as spec;
ghost use Rattle.definitions.specs.Binding.Faults.{conjunct_count, is_conjunction, BlockFaulty, IsGrouped};
ghost use Rattle.parse_tree.specs.Trees.{block_of as query_of, expr_of, operand_of};
ghost use Rattle.query_rules.specs.BlockLimits.{IsWithinLimits};
ghost use Rattle.query_rules.specs.Meaning.{query_refusal};

use crate::fault::QueryFault;
use parse_tree::{Block, Expr, LineOperator, MAX_GROUP_COLUMNS, MAX_ITEMS, Operand, SelectList};

/// How many conjuncts of WHERE a block may have (own).
pub const MAX_CONJUNCTS: usize = 64;

/// That a block keeps the limits, and that no asterisk stands in a grouped one.
#[inline(never)]
pub fn judge_limits<'a>(query: &'a Block, grouped: bool) -> Result<(), QueryFault<'a>>
    requires grouped { grouped ≡ true → IsGrouped (query_of query.now) }
    ensures ok { OnOk result (IsWithinLimits grouped (query_of query.now)) }
    ensures refused { IfErr result (λ f. (db : Tables) (outer : spec.Scopes) →
        BlockFaulty db (record { outer = outer; block = query_of query.now }) (query_refusal f)) }
{
    match &query.list {
        SelectList::Asterisk { .. } if grouped => return Err(QueryFault::StarOfGroups(query)),
        SelectList::Items(items) if items.len() > MAX_ITEMS => {
            return Err(QueryFault::ManyItems(query));
        }
        _ => {}
    }
    if query.groups.len() > MAX_GROUP_COLUMNS {
        return Err(QueryFault::ManyGroups(query));
    }
    match &query.condition {
        Some(condition) if conjuncts_left(condition, MAX_CONJUNCTS).is_none() => {
            Err(QueryFault::ManyConjuncts(condition))
        }
        _ => Ok(()),
    }
}

/// How many more conjuncts there is room for behind those of a condition; none if it has more than there is room for.
fn conjuncts_left(condition: &Expr, room: usize) -> Option<usize>
    ensures some { IfSome result (λ left. conjunct_count (expr_of condition.now) + left ≡ room) }
    ensures none { IsNone result → room < conjunct_count (expr_of condition.now) }
{
    match condition {
        Expr::Line { first, others } if is_conjunction(others) => {
            let mut left = conjuncts_left(first, room)?;
            'operands: for operand in others {
                left = conjuncts_left(&operand.value, left)?;
            }
            Some(left)
        }
        _ => room.checked_sub(1),
    }
}

/// Whether operands behind the first stand under AND.
pub fn is_conjunction(others: &[Operand]) -> bool
    ensures { result ≡ is_conjunction (operands (map operand_of others.now)) }
{
    match others.first() {
        Some(operand) => matches!(operand.operator, LineOperator::And),
        None => false,
    }
}
