//! Reads the whole text of a certificate: its version, block, plan, target and states.

ghost use Rattle.std.specs.Prelude.{IfOk, IfErr, map};
ghost use Rattle.definitions.specs.Certificates.Form.{Says};
ghost use Rattle.plan_tree.specs.Versions.{version_of};
ghost use Rattle.certificate_syntax.specs.Said.{plan_said, state_said, said_of};
ghost use Rattle.certificate_syntax.specs.Reading.{Reads, AllIn, StateIn, BlockIn, PlanLineIn, TextIn, SaysAll, SaysNothing, IsFaultOf};

use crate::fault::{Expected, FormFault};
use crate::number::{first_byte, number_before, number_between};
use crate::plan::plan;
use crate::stop::{TextStop, stop_before};
use crate::words::{Word, pass};
use crate::written::{Written, WrittenPlan, WrittenState};
use plan_tree::Version;
use std::alloc::Global;

/// A plan has at most so many words.
const MOST_WORDS: u8 = 64;

/// What bytes say, if they are the text of a certificate in the form of a version (own).
pub fn written_in(alloc: Global, version: Version, bytes: &[u8]) -> Result<Written, FormFault>
    ensures said { IfOk result (λ written. Says (version_of version) bytes.now (said_of written)) }
    ensures none { IfErr result (λ fault. SaysNothing (version_of version) bytes.now fault) }
{
    match whole(alloc, bytes, version) {
        Ok(written) => Ok(written),
        Err(stop) => Err(fault_of(bytes, stop)),
    }
}

fn fault_of(bytes: &[u8], stop: TextStop) -> FormFault
    ensures { IsFaultOf result stop }
{
    match stop {
        TextStop::Form { left, expected } => FormFault::Form {
            at: bytes.len().saturating_sub(left),
            expected,
        },
        TextStop::Memory => FormFault::Memory,
    }
}

/// All lines, and nothing behind them.
fn whole(alloc: Global, bytes: &[u8], version: Version) -> Result<Written, TextStop>
    ensures { SaysAll (version_of version) bytes.now result }
{
    let (written, rest) = lines(alloc, bytes, version)?;
    if rest.is_empty() {
        Ok(written)
    } else {
        Err(stop_before(rest, Expected::EndOfText))
    }
}

fn lines<'a>(
    alloc: Global,
    text: &'a [u8],
    version: Version,
) -> Result<(Written, &'a [u8]), TextStop>
    ensures { Reads said_of (TextIn (version_of version) text.now) result }
{
    let (block, text) = block_lines(text, version)?;
    let (plan, text) = plan_line(alloc, text, version)?;
    let (target, text) = number_between(text, Word::Target, Word::LineEnd)?;
    let (states, text) = states(alloc, text)?;
    let text = pass(text, Word::End)?;
    let written = Written {
        block,
        plan,
        target,
        states,
    };
    Ok((written, text))
}

/// The first two lines, the second of which has the number of the block.
fn block_lines(text: &[u8], version: Version) -> Result<(u64, &[u8]), TextStop>
    ensures { Reads (λ n. n) (BlockIn (version_of version) text.now) result }
{
    let text = pass(text, Word::Certificate(version))?;
    number_between(text, Word::Block, Word::LineEnd)
}

fn plan_line<'a>(
    alloc: Global,
    text: &'a [u8],
    version: Version,
) -> Result<(WrittenPlan, &'a [u8]), TextStop>
    ensures { Reads plan_said (PlanLineIn (version_of version) text.now) result }
{
    let text = pass(text, Word::Plan)?;
    let (plan, text) = plan(alloc, text, version, MOST_WORDS)?;
    let text = pass(text, Word::LineEnd)?;
    Ok((plan, text))
}

/// As many states as stand here.
fn states(alloc: Global, text: &[u8]) -> Result<(Vec<WrittenState>, &[u8]), TextStop>
    ensures { Reads (λ states. map state_said states.items) (AllIn StateIn 83 text.now) result }
{
    let mut states = Vec::new(alloc);
    let mut rest = text;
    'states: while first_byte(rest) == b'S' {
        let (state, behind) = state(rest)?;
        states.push(state)?;
        rest = behind;
    }
    Ok((states, rest))
}

fn state(text: &[u8]) -> Result<(WrittenState, &[u8]), TextStop>
    ensures { Reads state_said (StateIn text.now) result }
{
    let (tables, text) = number_between(text, Word::State, Word::Space)?;
    let (order, text) = number_before(text, Word::Space)?;
    let (cost, text) = number_before(text, Word::LineEnd)?;
    let state = WrittenState {
        tables,
        order,
        cost,
    };
    Ok((state, text))
}
