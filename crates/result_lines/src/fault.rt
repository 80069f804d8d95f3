//! Why there are no rows to print.

ghost use Rattle.std.specs.Prelude.{◌≡◌};
ghost use Rattle.result_lines.specs.declared.fault.AnswerFault.TheVariants as answer_fault;

use sqlvalue::Raise;
use std::alloc::{AllocError, AllocFailed};

/// Why a block has no rows to print: an exception that it raises, or want of memory.
#[derive(Clone, Copy)]
pub enum AnswerFault {
    Raised(Raise),
    Memory,
}

impl From<Raise> for AnswerFault {
    ghost from_gives = { λ raise fault. fault ≡ answer_fault.Raised raise };

    fn from(raise: Raise) -> AnswerFault {
        AnswerFault::Raised(raise)
    }
}

impl From<AllocError> for AnswerFault {
    ghost from_gives = { λ _ fault. fault ≡ answer_fault.Memory };

    fn from(_error: AllocError) -> AnswerFault {
        AnswerFault::Memory
    }
}

impl<T: Drop> From<AllocFailed<T>> for AnswerFault {
    ghost from_gives = { λ _ fault. fault ≡ answer_fault.Memory };

    fn from(_error: AllocFailed<T>) -> AnswerFault {
        AnswerFault::Memory
    }
}
