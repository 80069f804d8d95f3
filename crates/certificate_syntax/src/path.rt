//! Paths, each with the bracket behind it.

ghost use Rattle.std.specs.Prelude.{◌≡◌, ℕ, List, IsTrue, MatchOption, true, false, length, slice_index};
ghost use Rattle.std.specs.List.{list_all};
ghost use Rattle.definitions.specs.Certificates.Form.{is_number, is_direction, is_match};
ghost use Rattle.plan_tree.specs.Versions.{version_of};
ghost use Rattle.certificate_syntax.specs.Said.{path_said};
ghost use Rattle.certificate_syntax.specs.Reading.{Reads, IsBehindDigits, DirectionIn, AllIn, SlashedIn, MatchIn, PathIn};

use crate::fault::Expected;
use crate::number::{first_byte, number, number_between};
use crate::stop::{TextStop, stop_before};
use crate::words::{Word, pass};
use crate::written::WrittenPath;
use plan_tree::Version;
use std::alloc::Global;

pub(crate) fn path<'a>(
    alloc: Global,
    text: &'a [u8],
    version: Version,
) -> Result<(WrittenPath, &'a [u8]), TextStop>
    ensures { Reads path_said (PathIn (version_of version) text.now) result }
{
    match first_byte(text) {
        b'S' => segment(text, version),
        b'I' => index(text, version),
        b'M' => read_match(alloc, text, version),
        _ => Err(stop_before(text, Expected::Path)),
    }
}

fn segment(text: &[u8], version: Version) -> Result<(WrittenPath, &[u8]), TextStop>
    requires { slice_index text.now 0 ≡ 83 }
    ensures { Reads path_said (PathIn (version_of version) text.now) result }
{
    let (table, text) = number_between(text, Word::Segment, Word::Bracket)?;
    Ok((WrittenPath::Segment { table }, text))
}

fn index(text: &[u8], version: Version) -> Result<(WrittenPath, &[u8]), TextStop>
    requires { slice_index text.now 0 ≡ 73 }
    ensures { Reads path_said (PathIn (version_of version) text.now) result }
{
    let (table, text) = number_between(text, Word::Index, Word::Point)?;
    let (index, text) = number(text)?;
    let (backward, text) = direction(text, version)?;
    let path = WrittenPath::Index {
        table,
        index,
        backward,
    };
    Ok((path, text))
}

fn read_match<'a>(
    alloc: Global,
    text: &'a [u8],
    version: Version,
) -> Result<(WrittenPath, &'a [u8]), TextStop>
    requires { slice_index text.now 0 ≡ 77 }
    ensures { Reads path_said (PathIn (version_of version) text.now) result }
{
    let (table, text) = number_between(text, Word::Match, Word::Point)?;
    let (index, text) = number(text)?;
    let (conjuncts, text) = conjuncts(alloc, text, version)?;
    let (backward, text) = direction(text, version)?;
    let path = WrittenPath::Match {
        table,
        index,
        conjuncts,
        backward,
    };
    Ok((path, text))
}

/// Whether ` BACK` stands here, and the bracket behind it.
fn direction(text: &[u8], version: Version) -> Result<(bool, &[u8]), TextStop>
    ensures { Reads (λ b. b) (DirectionIn (version_of version) text.now) result }
{
    if first_byte(text) == b' ' {
        backward(text, version)
    } else {
        let text = pass(text, Word::Bracket)?;
        Ok((false, text))
    }
}

fn backward(text: &[u8], version: Version) -> Result<(bool, &[u8]), TextStop>
    requires { slice_index text.now 0 ≡ 32 }
    ensures { Reads (λ b. b) (DirectionIn (version_of version) text.now) result }
{
    if !reads_backward(version) {
        return Err(stop_before(text, Expected::Forward));
    }
    let behind = pass(text, Word::Back)?;
    let rest = pass(behind, Word::Bracket)?;
    Ok((true, rest))
}

fn reads_backward(version: Version) -> bool
    ensures { result ≡ is_direction (version_of version) true }
{
    !matches!(version, Version::One)
}

/// The conjuncts of a match.
fn conjuncts<'a>(
    alloc: Global,
    text: &'a [u8],
    version: Version,
) -> Result<(Vec<u64>, &'a [u8]), TextStop>
    requires { IsBehindDigits text.now }
    ensures { Reads (λ numbers. numbers.items) (MatchIn (version_of version) text.now) result }
{
    let (numbers, rest) = slashed_numbers(alloc, text)?;
    match match_fault(version, numbers.as_slice().len()) {
        Some(expected) => Err(stop_before(text, expected)),
        None => Ok((numbers, rest)),
    }
}

/// What is amiss where a match goes by so many conjuncts.
fn match_fault(version: Version, count: usize) -> Option<Expected>
    ensures { (numbers : List ℕ) → length numbers ≡ count → IsTrue (list_all is_number numbers)
        → MatchOption result (is_match (version_of version) numbers ≡ true)
        (λ _. is_match (version_of version) numbers ≡ false) }
{
    match version {
        Version::One => match count {
            0 => Some(Expected::Word(Word::Slash)),
            1 => None,
            _ => Some(Expected::OneConjunct),
        },
        Version::Two | Version::Three => match count {
            0 => Some(Expected::Word(Word::Slash)),
            _ => None,
        },
    }
}

/// As many numbers as stand here, each behind a slash.
fn slashed_numbers(alloc: Global, text: &[u8]) -> Result<(Vec<u64>, &[u8]), TextStop>
    ensures { Reads (λ numbers. numbers.items) (AllIn SlashedIn 47 text.now) result }
{
    let mut numbers = Vec::new(alloc);
    let mut rest = text;
    'numbers: while first_byte(rest) == b'/' {
        let (number, behind) = slashed_number(rest)?;
        numbers.push(number)?;
        rest = behind;
    }
    Ok((numbers, rest))
}

fn slashed_number(text: &[u8]) -> Result<(u64, &[u8]), TextStop>
    ensures { Reads (λ n. n) (SlashedIn text.now) result }
{
    let text = pass(text, Word::Slash)?;
    number(text)
}
