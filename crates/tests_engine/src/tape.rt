//! Printed bytes in memory.

use sqlr::{Failures, Sink, SinkFault};
use std::sync::ledger::Ledger;

/// Takes bytes as long as it has room, and tells them.
#[derive(Drop)]
pub struct Tape<L: Ledger> {
    pub bytes: Vec<u8>,
    /// How many more bytes it takes before its device fails.
    pub room: usize,
    pub failures: Failures<L>,
}

impl<L: Ledger> Sink for Tape<L> {
    ghost use Rattle.std.specs.Prelude.{Some};

    ghost taken = { λ s. Some s.bytes.items };

    ghost failures = { λ s. s.failures };

    fn put(&mut self, bytes: &[u8]) -> Result<(), SinkFault> {
        let fitting = bytes.len().min(self.room);
        match self.bytes.extend_from_slice(&bytes[..fitting]) {
            Ok(()) if fitting == bytes.len() => {
                self.room -= fitting;
                Ok(())
            }
            _ => {
                self.failures.rise();
                Err(SinkFault)
            }
        }
    }
}
