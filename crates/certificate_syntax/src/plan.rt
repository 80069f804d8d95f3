//! Reads a plan from the text of a certificate.

ghost use Rattle.std.specs.Prelude.{◌≡◌, ◌<◌, ℕ, slice_index};
ghost use Rattle.plan_tree.specs.Versions.{version_of};
ghost use Rattle.certificate_syntax.specs.Said.{plan_said};
ghost use Rattle.certificate_syntax.specs.Reading.{Reads, AroundIn, SortedIn, WrappedIn, PlanIn, around_text};
ghost use Rattle.certificate_syntax.specs.Words.{word_text};
ghost use Rattle.certificate_syntax.specs.declared.plan.Around.TheVariants as words;

use crate::fault::Expected;
use crate::number::{first_byte, number_between};
use crate::path::path;
use crate::stop::{TextStop, stop_before};
use crate::words::{Word, pass};
use crate::written::WrittenPlan;
use plan_tree::Version;
use std::alloc::Global;

/// What a plan does with the plan below it.
#[derive(Clone, Copy)]
enum Around {
    Loop,
    Merge,
    Sort,
}

/// A plan of so many words at most.
pub(crate) fn plan<'a>(
    alloc: Global,
    text: &'a [u8],
    version: Version,
    words: u8,
) -> Result<(WrittenPlan, &'a [u8]), TextStop>
    ensures { Reads plan_said (PlanIn (version_of version) words text.now) result }
{
    let Some(left) = words.checked_sub(1) else {
        return Err(stop_before(text, Expected::FewerWords));
    };
    if first_byte(text) == b'A' {
        return read_access(alloc, text, version);
    }
    let (around, text) = read_opening(text)?;
    let (below, text) = plan(alloc, text, version, left)?;
    read_behind(alloc, around, below, text, version)
}

fn read_access<'a>(
    alloc: Global,
    text: &'a [u8],
    version: Version,
) -> Result<(WrittenPlan, &'a [u8]), TextStop>
    requires { slice_index text.now 0 ≡ 65 }
    ensures { (words : ℕ) → 0 < words → Reads plan_said (PlanIn (version_of version) words text.now) result }
{
    let text = pass(text, Word::Access)?;
    let (path, text) = path(alloc, text, version)?;
    Ok((WrittenPlan::Access(path), text))
}

/// The word of a plan that has another one below it.
fn read_opening(text: &[u8]) -> Result<(Around, &[u8]), TextStop>
    ensures { Reads (λ a. a) (AroundIn text.now) result }
{
    match first_byte(text) {
        b'L' => open_word(text, Around::Loop, Word::Loop),
        b'M' => open_word(text, Around::Merge, Word::Merge),
        b'S' => open_word(text, Around::Sort, Word::Sort),
        _ => Err(stop_before(text, Expected::Plan)),
    }
}

fn open_word(text: &[u8], around: Around, word: Word) -> Result<(Around, &[u8]), TextStop>
    requires spelled { word_text word ≡ around_text around }
    requires first { slice_index text.now 0 ≡ slice_index (around_text around) 0 }
    ensures { Reads (λ a. a) (AroundIn text.now) result }
{
    let text = pass(text, word)?;
    Ok((around, text))
}

/// What stands behind the plan below.
fn read_behind<'a>(
    alloc: Global,
    around: Around,
    below: WrittenPlan,
    text: &'a [u8],
    version: Version,
) -> Result<(WrittenPlan, &'a [u8]), TextStop>
    ensures { Reads plan_said (WrappedIn (version_of version) around (plan_said below) text.now) result }
{
    match around {
        Around::Loop => read_loop(alloc, below, text, version),
        Around::Merge => read_merge(alloc, below, text, version),
        Around::Sort => read_sort(alloc, below, text, version),
    }
}

fn read_loop<'a>(
    alloc: Global,
    outer: WrittenPlan,
    text: &'a [u8],
    version: Version,
) -> Result<(WrittenPlan, &'a [u8]), TextStop>
    ensures { Reads plan_said (WrappedIn (version_of version) words.Loop (plan_said outer) text.now) result }
{
    let text = pass(text, Word::Comma)?;
    let (path, text) = path(alloc, text, version)?;
    let outer = Box::new(alloc, outer)?;
    Ok((WrittenPlan::Loop { outer, path }, text))
}

fn read_merge<'a>(
    alloc: Global,
    outer: WrittenPlan,
    text: &'a [u8],
    version: Version,
) -> Result<(WrittenPlan, &'a [u8]), TextStop>
    ensures { Reads plan_said (WrappedIn (version_of version) words.Merge (plan_said outer) text.now) result }
{
    let (conjunct, text) = number_between(text, Word::Comma, Word::Comma)?;
    let (sorted, text) = is_sorted(text)?;
    let (path, text) = path(alloc, text, version)?;
    let outer = Box::new(alloc, outer)?;
    let plan = WrittenPlan::Merge {
        outer,
        conjunct,
        sorted,
        path,
    };
    Ok((plan, text))
}

/// Whether `SORTED ` stands here.
fn is_sorted(text: &[u8]) -> Result<(bool, &[u8]), TextStop>
    ensures { Reads (λ b. b) (SortedIn text.now) result }
{
    if second_byte(text) == b'O' {
        let text = pass(text, Word::Sorted)?;
        Ok((true, text))
    } else {
        Ok((false, text))
    }
}

fn second_byte(text: &[u8]) -> u8
    ensures { result ≡ slice_index text.now 1 }
{
    match text {
        [_, second, ..] => *second,
        _ => 0,
    }
}

fn read_sort<'a>(
    alloc: Global,
    input: WrittenPlan,
    text: &'a [u8],
    version: Version,
) -> Result<(WrittenPlan, &'a [u8]), TextStop>
    ensures { Reads plan_said (WrappedIn (version_of version) words.Sort (plan_said input) text.now) result }
{
    let (order, text) = number_between(text, Word::Comma, Word::Bracket)?;
    let input = Box::new(alloc, input)?;
    Ok((WrittenPlan::Sort { input, order }, text))
}
