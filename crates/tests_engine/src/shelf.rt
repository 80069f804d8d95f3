//! A library of files in memory.

use sqlr::{FetchFault, Fetched, Library};
use std::alloc::Global;

/// A file: its name and what it holds.
#[derive(Clone, Copy)]
pub struct File<'a> {
    pub name: &'a str,
    pub bytes: &'a [u8],
}

/// A fixed list of files, of which the first of a name is the one that is found.
#[derive(Drop)]
pub struct Shelf<'a> {
    pub alloc: Global,
    pub files: &'a [File<'a>],
}

impl Library for Shelf<'_> {
    ghost use Rattle.std.specs.Prelude.{◌≡◌};
    ghost use Rattle.tests_engine.specs.Files.{bytes_of_file};

    ghost answers = { λ old name answer new. (new ≡ old) × (answer ≡ bytes_of_file old.files.now name) };

    ghost fails = { λ old name new. new ≡ old };

    ghost failures = { λ _. 0 };

    fn fetch(&mut self, name: &str) -> Result<Fetched, FetchFault> {
        'files: for file in self.files {
            if file.name == name {
                return match Vec::from_slice(self.alloc, file.bytes) {
                    Ok(bytes) => Ok(Fetched::Bytes(bytes)),
                    Err(_) => Err(FetchFault::Memory),
                };
            }
        }
        Ok(Fetched::Absent)
    }
}
