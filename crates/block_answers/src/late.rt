//! The late conjuncts of a block.

ghost use Rattle.std.specs.Prelude.{◌≡◌, [], Contains, IfErr, IfOk, OnOk};
ghost use Rattle.std.specs.List.{AllByRecursion};
ghost use Rattle.definitions.specs.Queries.BoundBlock.{Block};
ghost use Rattle.definitions.specs.Queries.Conjuncts.{late_conjuncts};
ghost use Rattle.predicates.specs.Parts.{AreConjunctsOf};
ghost use Rattle.filters.specs.Evaluable.{CanEvaluate};
ghost use Rattle.sqlvalue.specs.Raises.{raise_of};
ghost use Rattle.block_answers.specs.Views.{conditions_of};
ghost use Rattle.block_answers.specs.OneComposite.{are_true_in, raised_in};

use expr::{Environment, truth};
use predicates::Conjunct;
use query_tree::Condition;
use sqlvalue::Raise;
use std::alloc::{AllocError, Global};

/// Those of a block's conjuncts that are late, in text order. It fails where memory runs out.
pub fn late_conditions<'s>(
    alloc: Global,
    conjuncts: &[Conjunct<'s>],
) -> Result<Vec<&'s Condition>, AllocError>
    ensures { IfOk result (λ conditions. (block : Block) → AreConjunctsOf block conjuncts.now →
        conditions_of conditions.items ≡ late_conjuncts block) }
{
    let mut conditions = Vec::new(alloc);
    'conjuncts: for conjunct in conjuncts {
        if conjunct.late {
            conditions.push(conjunct.condition)?;
        }
    }
    Ok(conditions)
}

/// Whether all conditions are true. All are evaluated, whatever the others say, and the first that raises is told
/// (own).
pub fn try_all<S: Environment>(conditions: &[&Condition], env: &S) -> Result<bool, Raise>
    requires { AllByRecursion (CanEvaluate (S.environment env.now)) (conditions_of conditions.now) }
    ensures truth { IfOk result (λ all. all ≡ are_true_in (S.environment env.now) (conditions_of conditions.now)) }
    ensures quiet { OnOk result (raised_in (S.environment env.now) (conditions_of conditions.now) ≡ []) }
    ensures raised { IfErr result (λ raise. Contains (raised_in (S.environment env.now)
        (conditions_of conditions.now)) (raise_of raise)) }
{
    let mut all = true;
    'conditions: for condition in conditions {
        all = truth(condition, env)?.is_true() && all;
    }
    Ok(all)
}
