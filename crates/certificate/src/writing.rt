//! Plans and certificates, spelled. In a text blocks, tables, indexes, columns and conjuncts count from 1.

ghost use Rattle.std.specs.Prelude.{◌≡◌, ◌+◌, ◌++◌, map, codes, decimal, flat_map, IfOk, OnOk};
ghost use Rattle.definitions.specs.Printing.{line};
ghost use Rattle.definitions.specs.Certificates.CertifiedBlock as c;
ghost use Rattle.definitions.specs.Certificates.Text as spec;
ghost use Rattle.definitions.specs.Certificates.Writing.{path_written, plan_written, text_written};
ghost use Rattle.plan_tree.specs.Plans.{path_of, plan_of};
ghost use Rattle.plan_tree.specs.Versions.{version_of};
ghost use Rattle.plan_tree.specs.Certificates.{state_of, certificate_of};
ghost use Rattle.certificate.specs.Blocks.{IsOf, block_in};
ghost use Rattle.certificate.specs.Lines.{lines_of};

use crate::certified::{CertifiedBlock, from_one};
use itoa::Buffer;
use plan_space::Version;
use plan_tree::{Certificate, Inner, Path, Plan, State};
use std::alloc::{AllocError, Global};

/// The one text_written of a plan and a certificate of a block.
pub fn write_text(
    alloc: Global,
    block: &CertifiedBlock<'_>,
    plan: &Plan,
    certificate: &Certificate,
) -> Result<Vec<u8>, AllocError>
    ensures { (of : c.CertifiedBlock) → IsOf of block.now →
        IfOk result (λ text. text.items ≡ text_written of (plan_of plan.now) (certificate_of certificate.now)) }
{
    let mut text = Vec::new(alloc);
    let version = u128::from(version_number(block.version));
    let number = u128::from(block.number) + 1;
    write_line(&mut text, b"CERTIFICATE ", version)?;
    write_line(&mut text, b"BLOCK ", number)?;
    write_lines(&mut text, block, plan, certificate)?;
    Ok(text)
}

/// The number that the first line has for a version.
fn version_number(version: Version) -> u8
    ensures { result ≡ spec.number_of_version (version_of version) }
{
    match version {
        Version::One => 1,
        Version::Two => 2,
        Version::Three => 3,
    }
}

/// A line of a word and a number.
fn write_line(text: &mut Vec<u8>, word: &[u8], number: u128) -> Result<(), AllocError>
    ensures { OnOk result (text.new.items ≡ text.old.items ++ line (word.now ++ decimal number)) }
{
    text.extend_from_slice(word)?;
    write_number(text, number)?;
    text.extend_from_slice(b"\n")
}

/// The lines TARGET, STATE and END, which stand behind the plan's.
fn write_lines(
    text: &mut Vec<u8>,
    block: &CertifiedBlock<'_>,
    plan: &Plan,
    certificate: &Certificate,
) -> Result<(), AllocError>
    ensures { OnOk result (text.new.items ≡ text.old.items ++ lines_of
        (plan_written (block_in block.now) (plan_of plan.now)) (certificate_of certificate.now)) }
{
    text.extend_from_slice(b"PLAN ")?;
    write_plan(text, block, plan)?;
    text.extend_from_slice(b"\n")?;
    write_line(text, b"TARGET ", u128::from(certificate.target))?;
    write_states(text, certificate.states.as_slice())?;
    text.extend_from_slice(b"END\n")
}

fn write_plan(text: &mut Vec<u8>, block: &CertifiedBlock<'_>, plan: &Plan) -> Result<(), AllocError>
    ensures { OnOk result (text.new.items ≡ text.old.items ++ spec.plan_text
        (plan_written (block_in block.now) (plan_of plan.now))) }
{
    match plan {
        Plan::Access(path) => {
            text.extend_from_slice(b"ACCESS(")?;
            write_path(text, block, path)?;
            text.extend_from_slice(b")")
        }
        Plan::Loop { outer, path } => {
            text.extend_from_slice(b"LOOP(")?;
            write_plan(text, block, outer)?;
            text.extend_from_slice(b",")?;
            write_path(text, block, path)?;
            text.extend_from_slice(b")")
        }
        Plan::Merge {
            outer,
            conjunct,
            inner,
        } => {
            text.extend_from_slice(b"MERGE(")?;
            write_plan(text, block, outer)?;
            write_merged(text, block, *conjunct, inner)
        }
        Plan::Sort { input, order } => {
            text.extend_from_slice(b"SORT(")?;
            write_plan(text, block, input)?;
            text.extend_from_slice(b",")?;
            write_number(text, *order as u128)?;
            text.extend_from_slice(b")")
        }
    }
}

/// What stands in a merge behind its outer plan.
fn write_merged(
    text: &mut Vec<u8>,
    block: &CertifiedBlock<'_>,
    conjunct: usize,
    inner: &Inner,
) -> Result<(), AllocError>
    ensures { OnOk result (text.new.items ≡ text.old.items ++
        (codes "," ++ decimal (conjunct + 1) ++ codes "," ++ spec.sorted_text inner.now.sorted ++ spec.path_text
        (path_written (block_in block.now) (path_of inner.now.path)) ++ codes ")")) }
{
    text.extend_from_slice(b",")?;
    write_number(text, from_one(conjunct))?;
    text.extend_from_slice(b",")?;
    write_inner(text, block, inner)?;
    text.extend_from_slice(b")")
}

fn write_inner(
    text: &mut Vec<u8>,
    block: &CertifiedBlock<'_>,
    inner: &Inner,
) -> Result<(), AllocError>
    ensures { OnOk result (text.new.items ≡ text.old.items ++
        (spec.sorted_text inner.now.sorted ++ spec.path_text
        (path_written (block_in block.now) (path_of inner.now.path)))) }
{
    if inner.sorted {
        text.extend_from_slice(b"SORTED ")?;
    }
    write_path(text, block, &inner.path)
}

fn write_path(text: &mut Vec<u8>, block: &CertifiedBlock<'_>, path: &Path) -> Result<(), AllocError>
    ensures { OnOk result (text.new.items ≡ text.old.items ++ spec.path_text
        (path_written (block_in block.now) (path_of path.now))) }
{
    match path {
        Path::Segment { table } => {
            text.extend_from_slice(b"SEG ")?;
            write_number(text, from_one(*table))
        }
        Path::Index {
            table,
            index,
            backward,
        } => {
            text.extend_from_slice(b"IDX ")?;
            write_number(text, from_one(*table))?;
            text.extend_from_slice(b".")?;
            write_number(text, block.index_written(*table, *index))?;
            write_direction(text, *backward)
        }
        Path::Match {
            table,
            index,
            conjuncts,
            backward,
        } => {
            text.extend_from_slice(b"MATCH ")?;
            write_number(text, from_one(*table))?;
            text.extend_from_slice(b".")?;
            write_number(text, block.index_written(*table, *index))?;
            write_conjuncts(text, conjuncts.as_slice())?;
            write_direction(text, *backward)
        }
    }
}

fn write_conjuncts(text: &mut Vec<u8>, conjuncts: &[usize]) -> Result<(), AllocError>
    ensures { OnOk result (text.new.items ≡ text.old.items ++ spec.conjuncts_text (map (λ number.
        number + 1) conjuncts.now)) }
{
    'conjuncts: for conjunct in conjuncts {
        text.extend_from_slice(b"/")?;
        write_number(text, from_one(*conjunct))?;
    }
    Ok(())
}

fn write_direction(text: &mut Vec<u8>, backward: bool) -> Result<(), AllocError>
    ensures { OnOk result (text.new.items ≡ text.old.items ++ spec.direction_text backward) }
{
    if backward {
        text.extend_from_slice(b" BACK")?;
    }
    Ok(())
}

fn write_states(text: &mut Vec<u8>, states: &[State]) -> Result<(), AllocError>
    ensures { OnOk result (text.new.items ≡ text.old.items ++ flat_map spec.state_line (map state_of states.now)) }
{
    'states: for state in states {
        write_state(text, state)?;
    }
    Ok(())
}

fn write_state(text: &mut Vec<u8>, state: &State) -> Result<(), AllocError>
    ensures { OnOk result (text.new.items ≡ text.old.items ++ spec.state_line (state_of state.now)) }
{
    text.extend_from_slice(b"STATE ")?;
    write_number(text, state.tables.place() as u128)?;
    text.extend_from_slice(b" ")?;
    write_number(text, state.order as u128)?;
    text.extend_from_slice(b" ")?;
    write_number(text, u128::from(state.cost))?;
    text.extend_from_slice(b"\n")
}

fn write_number(text: &mut Vec<u8>, number: u128) -> Result<(), AllocError>
    ensures { OnOk result (text.new.items ≡ text.old.items ++ decimal number) }
{
    text.extend_from_slice(Buffer::new().format(number).as_bytes())
}
