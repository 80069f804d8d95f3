//! Texts of plans and their certificates, read.

ghost use Rattle.std.specs.Prelude.{◌≡◌, ◌≤◌, ◌+◌, IfOk, IfErr, OnOk, OnErr, length};
ghost use Rattle.definitions.specs.Limits.{most_from_tables};
ghost use Rattle.definitions.specs.Certificates.CertifiedBlock as c;
ghost use Rattle.definitions.specs.Certificates.Spelling.{PlanIsThere};
ghost use Rattle.certificate_syntax.specs.Said.{plan_said, said_of};
ghost use Rattle.certificate.specs.Blocks.{IsOf, block_in};
ghost use Rattle.certificate.specs.Reads.{IsCertificateMeant, IsMeant, IsLacking, IsRead, HasTextFault};

use crate::below::states_below;
use crate::certified::CertifiedBlock;
use crate::fault::{Missing, TextFault};
use crate::meant::plan_meant;
use crate::states::states_meant;
use crate::there::plan_there;
use certificate_syntax::{FormFault, Written, written_in};
use plan_tree::{Certificate, Plan};
use std::alloc::Global;

/// A plan and a certificate of it, as a text spells them.
#[derive(Drop)]
pub struct Spelled {
    /// None where the plan matches an index by more conjuncts than an index has columns, so that it is in no plan space.
    pub plan: Option<Plan>,
    pub certificate: Certificate,
}

/// The plan and the certificate of a block that a text spells (own).
///
/// # Errors
/// What is wrong with the text if it is no spelling, or that memory ran out.
pub fn read_text(
    alloc: Global,
    block: &CertifiedBlock<'_>,
    bytes: &[u8],
) -> Result<Spelled, TextFault>
    requires few { length block.now.indexes.now ≤ most_from_tables }
    ensures ok { (of : c.CertifiedBlock) → IsOf of block.now → IfOk result (IsRead of bytes.now) }
    ensures err { (of : c.CertifiedBlock) → IsOf of block.now → IfErr result (HasTextFault of bytes.now) }
{
    match written_in(alloc, block.version, bytes) {
        Ok(said) => read_meaning(alloc, block, &said),
        Err(FormFault::Form { at, expected }) => Err(TextFault::Form { at, expected }),
        Err(FormFault::Memory) => Err(TextFault::Memory),
    }
}

/// What is meant by what a text says.
fn read_meaning(
    alloc: Global,
    block: &CertifiedBlock<'_>,
    said: &Written,
) -> Result<Spelled, TextFault>
    requires few { length block.now.indexes.now ≤ most_from_tables }
    ensures ok { IfOk result (IsMeant (block_in block.now) (said_of said.now)) }
    ensures err { IfErr result (IsLacking (block_in block.now) (said_of said.now)) }
{
    let certificate = certificate_meant(alloc, block, said)?;
    match plan_meant(alloc, block, &said.plan) {
        Ok(plan) => Ok(Spelled { plan, certificate }),
        Err(_) => Err(TextFault::Memory),
    }
}

/// The certificate, if all numbers of a text are there.
fn certificate_meant(
    alloc: Global,
    block: &CertifiedBlock<'_>,
    said: &Written,
) -> Result<Certificate, TextFault>
    requires few { length block.now.indexes.now ≤ most_from_tables }
    ensures ok { IfOk result (IsCertificateMeant (block_in block.now) (said_of said.now)) }
    ensures err { IfErr result (IsLacking (block_in block.now) (said_of said.now)) }
{
    if let Err(missing) = text_there(block, said) {
        return Err(TextFault::Missing(missing));
    }
    let states = states_meant(alloc, block, said.states.as_slice())?;
    match states_below(said.target, states.as_slice()) {
        Ok(()) => Ok(Certificate {
            target: said.target,
            states,
        }),
        Err(bad) => Err(TextFault::States(bad)),
    }
}

/// Whether the numbers of a text but those of its states are there.
fn text_there(block: &CertifiedBlock<'_>, said: &Written) -> Result<(), Missing>
    ensures ok { OnOk result ((said.now.block ≡ block.now.number + 1) ×
        PlanIsThere (block_in block.now) (plan_said said.now.plan)) }
    ensures err { OnErr result ((said.now.block ≡ block.now.number + 1) ×
        PlanIsThere (block_in block.now) (plan_said said.now.plan) → ⊥) }
{
    if u128::from(said.block) != u128::from(block.number) + 1 {
        return Err(Missing::Block(said.block));
    }
    plan_there(block, &said.plan)
}
