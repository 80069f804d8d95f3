//! HAVING over a group.

ghost use Rattle.std.specs.Prelude.{◌≡◌, Contains, IfErr, IfOk, option_map};
ghost use Rattle.definitions.specs.Arithmetic.{Is};
ghost use Rattle.definitions.specs.Truth.{is_true};
ghost use Rattle.definitions.specs.Queries.Answer.{having_of};
ghost use Rattle.definitions.specs.Queries.Combinations.{raises_of};
ghost use Rattle.definitions.specs.Queries.Evaluation.{on_one};
ghost use Rattle.query_tree.specs.Bound.{condition_of};
ghost use Rattle.sqlvalue.specs.Raises.{raise_of};
ghost use Rattle.block_answers.specs.Having.{CanHave};

use expr::{Environment, truth};
use query_tree::Condition;
use sqlvalue::Raise;

/// Whether HAVING is true; it is where there is none (ISO/IEC 9075:1992, 7.8).
pub(crate) fn is_kept<S: Environment>(having: &Option<Condition>, env: &S) -> Result<bool, Raise>
    requires { CanHave (S.environment env.now) (option_map condition_of having.now) }
    ensures kept { IfOk result (λ kept. on_one is_true (having_of (S.environment env.now)
        (option_map condition_of having.now)) ≡ Is kept) }
    ensures raised { IfErr result (λ raise. Contains (raises_of (having_of (S.environment env.now)
        (option_map condition_of having.now))) (raise_of raise)) }
{
    match having {
        None => Ok(true),
        Some(condition) => Ok(truth(condition, env)?.is_true()),
    }
}
