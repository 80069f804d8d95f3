//! What a statement prints and how it ends, and the lines of those that are refused.

ghost use Rattle.std.specs.Prelude.{◌≡◌, [], IfOk, IfErr, None, option_map};
ghost use Rattle.definitions.specs.Printing.{refusal_text, record_refusal_text};
ghost use Rattle.definitions.specs.Queries.Outcomes.{shown, Exception};
ghost use Rattle.sqlvalue.specs.RefusalMeaning.{refusal_of};
ghost use Rattle.sqlvalue.specs.Raises.{raise_of};
ghost use Rattle.sqlr.specs.declared.ended.Ended.TheVariants as ended;
ghost use Rattle.sqlr.specs.Outcomes.{Tells};
ghost use Rattle.sqlr.specs.declared.outcome.StepFault.TheVariants as fault;

use crate::ended::Ended;
use diagnostics::{Cause, Refused};
use sqlvalue::{Raise, Refusal, write_exception, write_record_refusal, write_refusal};
use std::alloc::{AllocError, Global};
use syntax::Name;

/// What is told of a statement beside its line.
#[derive(Drop)]
pub(crate) enum Told<'a> {
    Refused(Refused<'a>),
    Raised(Raise),
    /// The table that a LOAD has loaded.
    Loaded(&'a Name),
}

/// What a statement prints, how it ended, what is told of it, if it is refused, raises an exception or has loaded a file, and the work of
/// a SELECT that printed rows: how many it opened.
#[derive(Drop)]
pub struct Printed<'a> {
    pub text: Vec<u8>,
    pub ended: Ended,
    pub told: Option<Told<'a>>,
    pub work: Option<u64>,
}

/// Why a statement broke off.
#[derive(Clone, Copy)]
pub enum StepFault {
    Memory,
    Library,
}

impl From<AllocError> for StepFault {
    ghost from_gives = { λ _ f. f ≡ fault.Memory };

    fn from(_error: AllocError) -> StepFault {
        StepFault::Memory
    }
}

/// What a statement prints that is not refused.
pub fn done<'a>(text: Vec<u8>) -> Printed<'a>
    ensures text { result.text ≡ text }
    ensures ended { result.ended ≡ ended.Well }
    ensures work { result.work ≡ None }
{
    Printed {
        text,
        ended: Ended::Well,
        told: None,
        work: None,
    }
}

/// What a LOAD prints that has loaded its file into a table.
pub fn loaded<'a>(text: Vec<u8>, table: &'a Name) -> Printed<'a>
    ensures text { result.text ≡ text }
    ensures ended { result.ended ≡ ended.Well }
    ensures work { result.work ≡ None }
{
    Printed {
        told: Some(Told::Loaded(table)),
        ..done(text)
    }
}

/// The line of an exception that a query raises.
pub fn exception_line<'a>(alloc: Global, raise: Raise) -> Result<Printed<'a>, StepFault>
    ensures text { IfOk result (λ p. p.text.items ≡ shown [] (Exception (raise_of raise))) }
    ensures ended { IfOk result (λ p. p.ended ≡ ended.Faulted) }
    ensures work { IfOk result (λ p. p.work ≡ None) }
    ensures memory { IfErr result (λ f. f ≡ fault.Memory) }
{
    let mut text = Vec::new(alloc);
    write_exception(&mut text, raise)?;
    Ok(Printed {
        text,
        ended: Ended::Faulted,
        told: Some(Told::Raised(raise)),
        work: None,
    })
}

/// The line of a refused statement, and the cause that a sink is told beside it.
pub fn refusal_line<'a>(
    alloc: Global,
    refusal: Refusal,
    cause: Cause<'a>,
) -> Result<Printed<'a>, StepFault>
    ensures text { IfOk result (λ p. p.text.items ≡ refusal_text (refusal_of refusal)) }
    ensures ended { IfOk result (λ p. p.ended ≡ ended.Faulted) }
    ensures work { IfOk result (λ p. p.work ≡ None) }
    ensures memory { IfErr result (λ f. f ≡ fault.Memory) }
{
    let mut text = Vec::new(alloc);
    write_refusal(&mut text, refusal)?;
    Ok(Printed {
        text,
        ended: Ended::Faulted,
        told: Some(Told::Refused(Refused { refusal, cause })),
        work: None,
    })
}

/// The line of a statement that a fault refuses. One that is no refusal is want of memory.
pub fn refused_by<'a>(
    alloc: Global,
    refusal: Option<Refusal>,
    cause: Cause<'a>,
) -> Result<Printed<'a>, StepFault>
    ensures tells { IfOk result (Tells (option_map refusal_of refusal)) }
    ensures memory { IfErr result (λ f. f ≡ fault.Memory) }
{
    match refusal {
        Some(refusal) => refusal_line(alloc, refusal, cause),
        None => Err(StepFault::Memory),
    }
}

/// The line of a LOAD whose record of this number is refused.
pub fn refused_record<'a>(
    alloc: Global,
    refusal: Refusal,
    number: u64,
    cause: Cause<'a>,
) -> Result<Printed<'a>, StepFault>
    ensures text { IfOk result (λ p. p.text.items ≡ record_refusal_text (refusal_of refusal) number) }
    ensures ended { IfOk result (λ p. p.ended ≡ ended.Faulted) }
    ensures memory { IfErr result (λ f. f ≡ fault.Memory) }
{
    let mut text = Vec::new(alloc);
    write_record_refusal(&mut text, refusal, number)?;
    Ok(Printed {
        text,
        ended: Ended::Faulted,
        told: Some(Told::Refused(Refused { refusal, cause })),
        work: None,
    })
}
