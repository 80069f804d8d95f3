//! Why the text of a block is refused, and where.

use crate::lacking::{missing_found, state_found};
use crate::naming::Naming;
use crate::places::{Spot, offset_of};
use crate::reason::{Ending, Reason};
use crate::steps::{low_step, state_at};
use crate::target::target_missed;
use catalog::Database;
use certificate::{BlockSpace, Version};
use certificate_files::{
    Comparison, Expected, FileTold, RefusedText, StateKey, TextFault, Told, Word,
};
use parse_tree::Select;
use plan_texts::BlockNames;
use plan_tree::Certificate;
use query_tree::Block;
use std::alloc::Global;

/// What is told of a block whose text is refused.
#[derive(Drop)]
pub(crate) struct Message {
    /// The number of the block, from 0.
    pub block: usize,
    /// The byte of the file that the message is about.
    pub offset: usize,
    pub reason: Reason,
    /// What is told of it by the names of the script, if it is of a step or of a plan.
    pub named: Option<String>,
}

/// A query, as it is written and bound.
#[derive(Clone, Copy)]
pub(crate) struct Query<'a> {
    pub tree: &'a Select,
    pub blocks: &'a [Block],
}

/// A text that is refused, of the block of a number, from 0, and what it was judged in.
#[derive(Clone, Copy)]
pub(crate) struct Refused<'a> {
    pub number: usize,
    pub version: Version,
    pub text: &'a [u8],
    pub judged: &'a RefusedText<'a>,
}

/// Where in a text it is refused, and why.
#[derive(Drop)]
pub(crate) struct Found {
    pub at: usize,
    pub reason: Reason,
    /// The same by the names of the script.
    pub named: Option<String>,
}

/// What is told of the block of a number, if its text is refused.
pub(crate) fn block_message(
    alloc: Global,
    database: &Database,
    query: Query<'_>,
    number: usize,
    file: &[u8],
    told: &FileTold<'_>,
) -> Option<Message> {
    let own = told.blocks.get(number)?;
    let refused = Refused {
        number,
        version: own.version,
        text: file
            .get(own.start..end_of(file, told, number))
            .unwrap_or(&[]),
        judged: own.refused.as_ref()?,
    };
    let found = refusal(alloc, database, query, refused, own.told)?;
    Some(Message {
        block: number,
        offset: own.start.saturating_add(found.at),
        reason: found.reason,
        named: found.named,
    })
}

/// Where the text of the block of a number ends.
fn end_of(file: &[u8], told: &FileTold<'_>, number: usize) -> usize {
    match told.blocks.get(number.saturating_add(1)) {
        Some(next) => next.start,
        None => told.rest.unwrap_or(file.len()),
    }
}

/// Where and why a text is refused, if it is.
fn refusal(
    alloc: Global,
    database: &Database,
    query: Query<'_>,
    refused: Refused<'_>,
    told: Told,
) -> Option<Found> {
    match told {
        Told::Passes => None,
        Told::Faulty(fault) => Some(fault_found(refused, fault)),
        Told::Fails { place, .. } => {
            match rule_found(alloc, database, query, refused, place) {
                Some(found) => Some(found),
                None => Some(plain(told)),
            }
        }
    }
}

/// Where and why a text spells no plan and certificate.
fn fault_found(refused: Refused<'_>, fault: TextFault) -> Found {
    match fault {
        TextFault::Form { at, expected } => form_found(refused, at, expected),
        TextFault::Missing(missing) => missing_found(refused, missing),
        TextFault::States(bad) => state_found(refused.text, bad),
        TextFault::Memory => plain(Told::Faulty(fault)),
    }
}

/// No more than what is printed.
fn plain(told: Told) -> Found {
    Found {
        at: 0,
        reason: Reason::Plain(told),
        named: None,
    }
}

fn form_found(refused: Refused<'_>, at: usize, expected: Expected) -> Found {
    let left = refused.text.get(at..).unwrap_or(&[]);
    Found {
        at,
        reason: Reason::Form {
            expected,
            ending: ending_of(left, expected),
        },
        named: None,
    }
}

/// What there is to say of the line's end, where this is left of the text.
fn ending_of(left: &[u8], expected: Expected) -> Ending {
    if left.is_empty() {
        return Ending::Nothing;
    }
    match behind_last_word(left, expected) {
        Some([]) => Ending::Open,
        Some([b'\r', b'\n', ..]) => Ending::CarriageReturn,
        _ if is_other_version(left, expected) => Ending::OtherVersion,
        _ => Ending::Unremarkable,
    }
}

/// Whether a text begins with the number of a version that there isn't.
fn is_other_version(left: &[u8], expected: Expected) -> bool {
    let Expected::Word(Word::Certificate(_)) = expected else {
        return false;
    };
    match left.strip_prefix(b"CERTIFICATE ") {
        Some([b'1' | b'2' | b'3', b'\n' | b'\r', ..]) => false,
        Some([b'0'..=b'9', ..]) => true,
        _ => false,
    }
}

/// What is left behind the word that was wanted at the end of a line, if it stands there but for the end.
fn behind_last_word(left: &[u8], expected: Expected) -> Option<&[u8]> {
    let Expected::Word(word) = expected else {
        return None;
    };
    left.strip_prefix(word.bytes().strip_suffix(b"\n")?)
}

/// What makes a rule fail of a text; none where memory runs out.
fn rule_found(
    alloc: Global,
    database: &Database,
    query: Query<'_>,
    refused: Refused<'_>,
    place: StateKey,
) -> Option<Found> {
    let judged = refused.judged;
    let spelled = judged.spelled.as_ref()?;
    let names = BlockNames::new(alloc, database, query.tree, query.blocks, refused.number).ok()?;
    let naming = Naming {
        alloc,
        names: &names,
    };
    match &judged.failing {
        Some(kept) => step_failing(
            naming,
            &judged.own,
            &spelled.certificate,
            refused.text,
            &kept.comparison(),
        ),
        None => Some(target_missed(naming, &judged.own, spelled, refused.text, place)),
    }
}

/// The step that the check of a certificate fails by.
fn step_failing(
    naming: Naming<'_, '_>,
    own: &BlockSpace<'_>,
    certificate: &Certificate,
    text: &[u8],
    failing: &Comparison<'_>,
) -> Option<Found> {
    // the bound of a state that isn't listed is the target
    let spot = match state_at(certificate, failing.place()) {
        Some(number) => Spot::StateTables(number),
        None => Spot::Target,
    };
    Some(Found {
        at: offset_of(text, spot),
        reason: Reason::Step(low_step(own, failing, certificate.target)?),
        named: naming.step(own, failing),
    })
}
