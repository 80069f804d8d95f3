//! Whether states rise and stay below the target.

ghost use Rattle.std.specs.Prelude.{IfNone, OnErr, OnOk, OnSome, map};
ghost use Rattle.std.specs.Bool.{Decides};
ghost use Rattle.definitions.specs.Plans.Certificate as c;
ghost use Rattle.definitions.specs.Certificates.Spelling.{AreBelow};
ghost use Rattle.plan_tree.specs.Certificates.{state_of};
ghost use Rattle.certificate.specs.Reads.{claimed, Follows};

use crate::fault::BadState;
use plan_tree::State;

/// Whether states rise and each costs less than a target, or one that doesn't.
pub(crate) fn states_below(target: u64, states: &[State]) -> Result<(), BadState>
    ensures ok { OnOk result (AreBelow (claimed target (map state_of states.now))) }
    ensures err { OnErr result (AreBelow (claimed target (map state_of states.now)) → ⊥) }
{
    let mut before = None;
    'states: for (place, state) in states.iter().enumerate() {
        if let Some(before) = not_behind(before, *state) {
            return Err(BadState::NotBehind {
                place,
                before,
                own: *state,
            });
        }
        if target <= state.cost {
            return Err(BadState::NotBelow {
                place,
                cost: state.cost,
                target,
            });
        }
        before = Some(*state);
    }
    Ok(())
}

/// The state before another, if there is one that the other doesn't stand behind.
fn not_behind(before: Option<State>, state: State) -> Option<State>
    ensures some { OnSome result (Follows before (state_of state) → ⊥) }
    ensures none { IfNone result (Follows before (state_of state)) }
{
    match before {
        Some(other) if !precedes(other, state) => Some(other),
        _ => None,
    }
}

fn precedes(a: State, b: State) -> bool
    ensures { Decides result (c.Precedes (state_of a) (state_of b)) }
{
    a.tables.place() < b.tables.place() || a.tables.place() == b.tables.place() && a.order < b.order
}
