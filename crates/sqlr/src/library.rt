//! Where LOAD finds its files.

ghost use Rattle.std.specs.Prelude.{ℕ, List, Option, IfOk, OnErr};
ghost use Rattle.sqlr.specs.Devices.{answer_of, IsFetchBlamed};

use thiserror::Error;

/// Files by their names, which LOAD asks for.
pub trait Library: Drop {
    /// What may be answered: the library before, a name, the file's bytes or none, and the library
    /// after.
    ghost answers: { Self → List ℕ → Option (List ℕ) → Self → Type 0 };

    /// What a request may leave that gets no answer: the library before, a name, and the library after.
    ghost fails: { Self → List ℕ → Self → Type 0 };

    /// How often its device has failed.
    ghost failures: { Self → ℕ };

    /// The file of a name.
    fn fetch(&mut self, name: &str) -> Result<Fetched, FetchFault>
        ensures answer { IfOk result (λ fetched. answers self.old name.now (answer_of fetched) self.new) }
        ensures fault { OnErr result (fails self.old name.now self.new) }
        ensures blamed { IsFetchBlamed (failures self.old) (failures self.new) result };
}

/// What a library answers for a name.
#[derive(Drop)]
pub enum Fetched {
    /// There is no such file.
    Absent,
    Bytes(Vec<u8>),
}

/// Why a library does not answer.
#[derive(Clone, Copy, Debug, PartialEq, Eq, Error)]
pub enum FetchFault {
    #[error("the library's device failed")]
    Device,
    #[error("out of memory")]
    Memory,
}
