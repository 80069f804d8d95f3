//! States of certificates: whether they are there, and what they mean.

ghost use Rattle.std.specs.Prelude.{◌≡◌, ◌<◌, ◌≤◌, IfOk, IfErr, IfSome, OnErr, MatchOption, All, length, map};
ghost use Rattle.std.specs.Bool.{Decides};
ghost use Rattle.std.specs.List.{list_all};
ghost use Rattle.definitions.specs.Limits.{most_from_tables};
ghost use Rattle.definitions.specs.Plans.Space.{IsOver};
ghost use Rattle.definitions.specs.Plans.TableSet.{first_tables};
ghost use Rattle.definitions.specs.Estimates.BlockTables.{has};
ghost use Rattle.definitions.specs.Certificates.Spelling.{StateIsThere};
ghost use Rattle.certificate_syntax.specs.Said.{state_said};
ghost use Rattle.plan_tree.specs.Certificates.{state_of};
ghost use Rattle.plan_tree.specs.Sets.{set_of};
ghost use Rattle.certificate.specs.Blocks.{block_in, space_in};
ghost use Rattle.certificate.specs.Reads.{AreLacking};

use crate::certified::CertifiedBlock;
use crate::fault::{Missing, TextFault};
use certificate_syntax::WrittenState;
use plan_tree::{SortKey, State, TableSet};
use std::alloc::Global;

/// What states mean, if all of them are there.
pub(crate) fn states_meant(
    alloc: Global,
    block: &CertifiedBlock<'_>,
    said: &[WrittenState],
) -> Result<Vec<State>, TextFault>
    requires few { length block.now.indexes.now ≤ most_from_tables }
    ensures ok { IfOk result (λ states. (map state_of states.items ≡ map state_said said.now) ×
        All (StateIsThere (block_in block.now)) (map state_said said.now)) }
    ensures err { IfErr result (AreLacking (block_in block.now) (map state_said said.now)) }
{
    let mut states = Vec::new(alloc);
    'states: for (place, written) in said.iter().enumerate() {
        let state = match state_meant(block, place, written) {
            Ok(state) => state,
            Err(missing) => return Err(TextFault::Missing(missing)),
        };
        match states.push(state) {
            Ok(()) => {}
            Err(_) => return Err(TextFault::Memory),
        }
    }
    Ok(states)
}

fn state_meant(
    block: &CertifiedBlock<'_>,
    place: usize,
    said: &WrittenState,
) -> Result<State, Missing>
    requires few { length block.now.indexes.now ≤ most_from_tables }
    ensures ok { IfOk result (λ state. (state_of state ≡ state_said said.now) ×
        StateIsThere (block_in block.now) (state_said said.now)) }
    ensures err { OnErr result (StateIsThere (block_in block.now) (state_said said.now) → ⊥) }
{
    let Some(tables) = tables_meant(block.indexes.len(), said.tables) else {
        return Err(Missing::StateTables {
            state: place,
            tables: said.tables,
        });
    };
    if is_over(block, tables, said.order) {
        Ok(State {
            tables,
            order: said.order as usize,
            cost: said.cost,
        })
    } else {
        Err(Missing::StateOrder {
            state: place,
            order: said.order,
        })
    }
}

/// A set of some of the first tables, by its number.
fn tables_meant(count: usize, number: u64) -> Option<TableSet>
    requires few { count ≤ most_from_tables }
    ensures exact { IfSome result (λ tables. set_of tables ≡ number) }
    ensures there { MatchOption result ((0 < number) × (number ≤ first_tables count) →
        ⊥) (λ _. (0 < number) × (number ≤ first_tables count)) }
{
    if 0 < number && number <= TableSet::first(count).place() as u64 {
        Some(TableSet::at(number as usize))
    } else {
        None
    }
}

/// Whether an order is numbered and all its columns are of tables of a set.
fn is_over(block: &CertifiedBlock<'_>, tables: TableSet, order: u64) -> bool
    ensures { Decides result (IsOver (space_in block.now) (set_of tables) order) }
{
    match block.orders.get(order as usize) {
        Some(keys) => are_over(keys.as_slice(), tables),
        None => false,
    }
}

fn are_over(keys: &[SortKey], tables: TableSet) -> bool
    ensures { result ≡ list_all (λ key. has (set_of tables) key.column.table) keys.now }
{
    keys.iter().all(|key| tables.has(key.column.table))
}
