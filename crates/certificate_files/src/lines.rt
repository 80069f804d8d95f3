//! The lines that are printed of a file.

ghost use Rattle.std.specs.Prelude.{◌≡◌, ◌++◌, OnOk};
ghost use Rattle.definitions.specs.Estimates.Version.{current_version};
ghost use Rattle.definitions.specs.Certificates.File.{lines_of};
ghost use Rattle.definitions.specs.Certificates.Verdicts.{verdict_text, rest_text, space_text};
ghost use Rattle.definitions.specs.Certificates.Verdicts as verdicts;
ghost use Rattle.cert_check.specs.Verdicts.{rule_of};
ghost use Rattle.plan_tree.specs.Versions.{version_of};
ghost use Rattle.certificate_files.specs.BlockLine.{told_line};
ghost use Rattle.certificate_files.specs.Telling.{told_of, fault_of};

use crate::telling::Told;
use cert_check::Rule;
use certificate::{TextFault, Version};
use itoa::Buffer;
use std::alloc::AllocError;

/// The line of the block of a number.
pub(crate) fn write_block(
    text: &mut Vec<u8>,
    number: u64,
    version: Version,
    told: Told,
) -> Result<(), AllocError>
    ensures { OnOk result (text.new.items ≡ text.old.items ++ told_line number (version_of version) (told_of told)) }
{
    text.extend_from_slice(b"block ")?;
    text.extend_from_slice(Buffer::new().format(u128::from(number) + 1).as_bytes())?;
    text.extend_from_slice(b" ")?;
    text.extend_from_slice(told_words(told))?;
    text.extend_from_slice(space_words(version))?;
    text.extend_from_slice(b"\n")
}

/// The line of what is left behind the last block's text, if there is something.
pub(crate) fn write_rest(text: &mut Vec<u8>, left: &[u8]) -> Result<(), AllocError>
    ensures { OnOk result (text.new.items ≡ text.old.items ++ rest_text (lines_of left.now)) }
{
    if left.is_empty() {
        return Ok(());
    }
    text.extend_from_slice(b"rest refused C1\n")
}

fn told_words(told: Told) -> &'static [u8]
    ensures { result.now ≡ verdict_text (told_of told) }
{
    match told {
        Told::Passes => b"pass",
        Told::Fails { rule, .. } => rule_words(rule),
        Told::Faulty(fault) => fault_words(fault),
    }
}

fn rule_words(rule: Rule) -> &'static [u8]
    ensures { result.now ≡ verdict_text (verdicts.FailsAt (rule_of rule)) }
{
    match rule {
        Rule::Accesses => b"refused K1",
        Rule::Joins => b"refused K2",
        Rule::Sorts => b"refused K3",
        Rule::Target => b"refused K4",
    }
}

/// A fault is told by its kind; want of memory is not told.
fn fault_words(fault: TextFault) -> &'static [u8]
    ensures { result.now ≡ verdict_text (verdicts.IsFaulty (fault_of fault)) }
{
    match fault {
        TextFault::Form { .. } | TextFault::Memory => b"refused C1",
        TextFault::Missing(_) => b"refused C2",
        TextFault::States(_) => b"refused C3",
    }
}

/// The plan space's version, unless it is the current one.
fn space_words(version: Version) -> &'static [u8]
    ensures { result.now ≡ space_text current_version (version_of version) }
{
    match version {
        Version::One => b" space 1",
        Version::Two => b" space 2",
        Version::Three => b"",
    }
}
