//! How a run ends, and the exit status of that.

ghost use Rattle.std.specs.Prelude.{◌≡◌};
ghost use Rattle.sqlr.specs.Meaning.{status_of};

use thiserror::Error;

/// How a run or a check ended that did not break off; `status` has its exit status.
#[derive(Clone, Copy, PartialEq, Eq)]
pub enum Ended {
    /// No error line was printed.
    Well,
    /// An error line was printed.
    Faulted,
    /// A certificate was refused.
    Refused,
}

/// Why a run broke off.
#[derive(Clone, Copy, Debug, PartialEq, Eq, Error)]
pub enum RunFault {
    /// Memory was wanting, at a byte of the script: in the statement that names something there, or where
    /// its text is read.
    #[error("out of memory")]
    Memory { offset: usize },
    /// The library's device failed, for a LOAD whose file is named at a byte of the script.
    #[error("the library's device failed")]
    Library { offset: usize },
    #[error("the sink's device failed")]
    Sink,
}

/// The exit status of a run: 0 all well, 1 a statement refused, 2 broken off, 3 a certificate
/// refused (own).
pub fn status(run: &Result<Ended, RunFault>) -> u8
    ensures { result ≡ status_of run.now }
{
    match run {
        Ok(Ended::Well) => 0,
        Ok(Ended::Faulted) => 1,
        Ok(Ended::Refused) => 3,
        Err(_) => 2,
    }
}
