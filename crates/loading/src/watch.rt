//! Who is told how far a LOAD is.

/// How far a LOAD is (own).
#[derive(Clone, Copy, PartialEq, Eq)]
pub struct LoadProgress {
    /// How many records are loaded so far.
    pub records: u64,
    /// The byte of the file behind the last but one of them.
    pub bytes: u64,
    /// How many bytes the file has.
    pub of_bytes: u64,
}

/// Is told now and then how far a LOAD is, for people who wait for it. Nothing is promised of it (own).
pub trait LoadWatch {
    fn loaded(&self, progress: LoadProgress);
}
