//! Files of the working folder.

use crate::standard_error::StandardError;
use sqlr::{Failures, FetchFault, Fetched, Library};
use std::alloc::Global;
use std::fs::{File, OpenFile};
use std::io::{self, ErrorKind, Read};
use std::rt::Runtime;
use std::sync::ledger::Ledger;

/// While a file above this size is loaded, in bytes, a notice tells of it.
const LARGE: u64 = 20_000_000;

const MEGABYTE: u64 = 1_000_000;

/// Files by their names as they stand, relative to the working folder.
#[derive(Drop)]
pub struct Folder<'a, L: Ledger, R: Runtime + AllocGlobal> {
    pub rt: &'a R,
    pub standard_error: &'a StandardError<'a, R>,
    pub failures: Failures<L>,
    /// What was wrong with the last file that could not be read.
    pub fault: Option<FileFault>,
}

/// A file that could not be read, by the name that it was asked for, and the system's reason.
#[derive(Drop)]
pub struct FileFault {
    pub name: String,
    pub reason: io::Error,
}

impl<L: Ledger, R: Runtime + AllocGlobal> Library for Folder<'_, L, R> {
    ghost use Rattle.std.specs.Prelude.{⊤};

    ghost answers = { λ _ _ _ _. ⊤ };

    ghost fails = { λ _ _ _. ⊤ };

    ghost failures = { λ s. s.failures };

    fn fetch(&mut self, name: &str) -> Result<Fetched, FetchFault> {
        let reason = match self.read(name) {
            Ok(bytes) => return Ok(Fetched::Bytes(bytes)),
            Err(reason) => reason,
        };
        let kind = reason.kind();
        if matches!(kind, ErrorKind::NotFound) {
            return Ok(Fetched::Absent);
        }
        self.fault = FileFault::new(self.rt.alloc(), name, reason);
        if matches!(kind, ErrorKind::OutOfMemory) {
            return Err(FetchFault::Memory);
        }
        self.failures.rise();
        Err(FetchFault::Device)
    }
}

impl<L: Ledger, R: Runtime + AllocGlobal> Folder<'_, L, R> {
    /// The bytes of a file; while a large one is read and loaded, a notice says so.
    fn read(&self, name: &str) -> io::Result<Vec<u8>> {
        let mut file = File::open(self.rt, name)?;
        let size = file.metadata()?.len();
        if size > LARGE {
            let megabytes = size / MEGABYTE;
            self.standard_error
                .show_notice(format_args!("loading {name}, {megabytes} MB"));
        }
        let mut bytes = Vec::new(self.rt.alloc());
        file.read_to_end(&mut bytes)?;
        Ok(bytes)
    }
}

/// Says where a file that isn't there is, if it lies beside the script.
pub fn tell_beside<R: Runtime + AllocGlobal>(
    rt: &R,
    standard_error: &StandardError<R>,
    script_name: &str,
    file: &str,
) {
    let Some((folder, _)) = script_name.rsplit_once('/') else {
        return;
    };
    if has_file(rt, folder, file) {
        standard_error.print(format_args!(
            "hint: {folder}/{file} is there: files are looked for from where one stands, so run the script in {folder}\n"
        ));
    }
}

/// Whether a folder has a file of a name that can be opened.
fn has_file<R: Runtime + AllocGlobal>(rt: &R, folder: &str, name: &str) -> bool {
    match format!(in rt.alloc(); "{folder}/{name}") {
        Ok(path) => File::open(rt, path.as_str()).is_ok(),
        Err(_) => false,
    }
}

impl FileFault {
    /// What was wrong with a file, or nothing where there is no memory for its name.
    fn new(alloc: Global, name: &str, reason: io::Error) -> Option<FileFault> {
        let name = String::from_str(alloc, name).ok()?;
        Some(FileFault { name, reason })
    }
}
