//! How often a device has failed, counted for contracts alone.

use std::marker::Model;
use std::sync::ledger::{Book, Ledger, Share};

/// A count that only contracts see: it takes no bytes, and so cannot overflow.
#[derive(Drop)]
pub struct Failures<L: Ledger> {
    book: Book<L>,
    share: Share<L>,
}

impl<L: Ledger> Model for Failures<L> {
    ghost use Rattle.std.specs.Prelude.{ℕ, ◌<◌};

    ghost Value = { ℕ };

    ghost view = { λ f. f.book.total };

    ghost invariant = { λ f. 0 < f.share.parts };
}

impl<L: Ledger> Failures<L> {
    ghost use Rattle.std.specs.Prelude.{◌≡◌, ◌+◌, ◌<◌};

    /// A count of no failures.
    pub fn new(book: Book<L>, share: Share<L>) -> Failures<L>
        requires { 0 < share.parts }
        ensures { result ≡ book.total }
    {
        Failures { book, share }
    }

    /// Counts one failure more of the device.
    pub fn rise(&mut self)
        ensures { self.new ≡ self.old + 1 }
    {
        self.book.add(&mut self.share, 1);
    }
}
