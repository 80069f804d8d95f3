//! The conjuncts of a block's WHERE.

ghost use Rattle.std.specs.Prelude.{◌≡◌, IfOk};
ghost use Rattle.std.specs.List.{list_any};
ghost use Rattle.definitions.specs.Binding.Formed.{IsFormedSomewhere};
ghost use Rattle.definitions.specs.Queries.CanRaise as raising;
ghost use Rattle.definitions.specs.Queries.Conjuncts as queries;
ghost use Rattle.definitions.specs.Table.{Database};
ghost use Rattle.query_tree.specs.Bound.{block_of, condition_of};
ghost use Rattle.query_tree.specs.Walks.{conditions_in, trees_of};
ghost use Rattle.predicates.specs.Naming.{NamesFew};
ghost use Rattle.predicates.specs.Parts.{condition_in, AreConjunctsOf};

use crate::conjunct::Conjunct;
use crate::equated::equated_columns;
use crate::membership::column_membership;
use crate::tables::tables_of;
use crate::terms::column_terms;
use expr::can_raise;
use query_tree::{Block, Condition, ValueExpr, push_conjuncts, push_tested, push_values};
use std::alloc::{AllocError, Global};

/// The conjuncts of a block's WHERE, in text order; none where it has none (own). Who plans a block and who runs it share this list. It fails
/// where memory runs out.
pub fn conjuncts<'a>(alloc: Global, block: &'a Block) -> Result<Vec<Conjunct<'a>>, AllocError>
    requires formed { (database : Database) × IsFormedSomewhere database (block_of block.now) }
    ensures { IfOk result (λ cs. AreConjunctsOf (block_of block.now) cs.items) }
{
    let mut conjuncts = Vec::new(alloc);
    'conditions: for condition in &conditions(alloc, block)? {
        let conjunct = taken_apart(alloc, condition)?;
        conjuncts.push(conjunct)?;
    }
    Ok(conjuncts)
}

/// The same as conditions.
fn conditions<'a>(alloc: Global, block: &'a Block) -> Result<Vec<&'a Condition>, AllocError>
    ensures { IfOk result (λ cs. conditions_in cs.items ≡ queries.conjuncts (block_of block.now)) }
{
    let mut conditions = Vec::new(alloc);
    if let Some(condition) = &block.condition {
        push_conjuncts(&mut conditions, condition)?;
    }
    Ok(conditions)
}

/// A condition as a conjunct.
fn taken_apart<'a>(alloc: Global, condition: &'a Condition) -> Result<Conjunct<'a>, AllocError>
    requires few { NamesFew (condition_of condition.now) }
    ensures { IfOk result (λ c. condition_in c ≡ condition_of condition.now) }
{
    let mut values = Vec::new(alloc);
    push_values(&mut values, condition)?;
    let mut tested = Vec::new(alloc);
    push_tested(&mut tested, condition)?;
    let tables = tables_of(&values);
    Ok(Conjunct {
        condition,
        late: !tested.is_empty() || any_can_raise(&values) || tables.is_empty(),
        tables,
        terms: column_terms(condition),
        equated: equated_columns(condition),
        membership: column_membership(condition),
    })
}

/// Whether a value among some can raise.
fn any_can_raise(values: &[&ValueExpr]) -> bool
    ensures { result ≡ list_any raising.can_raise (trees_of values.now) }
{
    'values: for value in values {
        if can_raise(value) {
            return true;
        }
    }
    false
}
