//! Numbers of texts that aren't there, and states that can't stand where they do.

use crate::finding::{Found, Refused};
use crate::numbers::offset_of_missing;
use crate::places::{Spot, offset_of};
use crate::reason::{Lack, Reason};
use crate::spelling::state_name;
use certificate::BlockSpace;
use certificate_files::{BadState, Missing};

/// A number that isn't there, and how many are.
pub(crate) fn missing_found(refused: Refused<'_>, missing: Missing) -> Found {
    Found {
        at: offset_of_missing(refused.text, missing),
        reason: Reason::Missing(Lack {
            missing,
            version: refused.version,
            count: count_of(&refused.judged.own, missing),
        }),
        named: None,
    }
}

/// How many there are of what isn't there; of sets of tables the greatest.
fn count_of(own: &BlockSpace<'_>, missing: Missing) -> Option<usize> {
    match missing {
        Missing::Block(_) => None,
        Missing::Table(_) => Some(own.indexes.len()),
        Missing::Index { table, .. } => {
            let indexes = own.indexes.get(table.saturating_sub(1) as usize)?;
            Some(indexes.len())
        }
        Missing::Conjunct(_) => Some(own.conjunct_count),
        Missing::Order(_) | Missing::StateOrder { .. } => Some(own.space.order_count()),
        Missing::StateTables { .. } => Some(own.space.whole().place()),
    }
}

/// A state that can't stand where it does.
pub(crate) fn state_found(text: &[u8], bad: BadState) -> Found {
    let (spot, reason) = match bad {
        BadState::NotBehind { place, before, own } => (
            Spot::StateTables(place),
            Reason::Unordered {
                before: state_name(before.tables, before.order),
                state: state_name(own.tables, own.order),
            },
        ),
        BadState::NotBelow {
            place,
            cost,
            target,
        } => (Spot::StateCost(place), Reason::Great { cost, target }),
    };
    Found {
        at: offset_of(text, spot),
        reason,
        named: None,
    }
}
