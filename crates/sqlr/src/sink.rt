//! Where the printed bytes go.

ghost use Rattle.std.specs.Prelude.{◌≡◌, ◌<◌, ℕ, List, Option, OnOk, OnErr, map};
ghost use Rattle.std.specs.List.{AllByRecursion};
ghost use Rattle.definitions.specs.Binding.Formed.{IsFormedSomewhere};
ghost use Rattle.query_tree.specs.Bound.{block_of};
ghost use Rattle.sqlr.specs.Devices.{Took, TookBeginning};

use catalog::Database;
use diagnostics::{CheckedFile, Planned, Progress, Refused};
use sqlvalue::Raise;
use syntax::{LongList, Name};
use thiserror::Error;

/// Takes what is printed, a statement's text as a whole, and is told what is not printed.
pub trait Sink {
    /// The bytes that it has taken, where it tells them.
    ghost taken: { Self → Option (List ℕ) };

    /// How often its device has failed.
    ghost failures: { Self → ℕ };

    /// Takes bytes; one that fails has taken a beginning of them.
    fn put(&mut self, bytes: &[u8]) -> Result<(), SinkFault>
        ensures ok { OnOk result (Took (taken self.old) bytes.now (taken self.new)) }
        ensures fault { OnErr result (TookBeginning (taken self.old) bytes.now (taken self.new)) }
        ensures failed { OnErr result (failures self.old < failures self.new) }
        ensures unfailed { OnOk result (failures self.new ≡ failures self.old) };

    /// Is told why a script or a statement is refused, before its line is put, with the lists that are past their limits,
    /// whose elements its tree has not all, and with the database that it was refused over (own). It does nothing, unless a
    /// sink has another body.
    fn report(&mut self, _refused: &Refused, _long_lists: &[LongList], _database: &Database)
        ensures taken { taken self.new ≡ taken self.old }
        ensures counted { failures self.new ≡ failures self.old }
    {}

    /// Is told of an exception that a query raises and of what raised it, before its line is put (own). It does nothing, unless a sink has another body.
    fn report_exception(&mut self, _raise: Raise)
        ensures taken { taken self.new ≡ taken self.old }
        ensures counted { failures self.new ≡ failures self.old }
    {}

    /// Is told of a LOAD that has loaded its file into a table of the database, before its line is put (own). It does nothing, unless a sink has
    /// another body.
    fn report_load(&mut self, _table: &Name, _database: &Database)
        ensures taken { taken self.new ≡ taken self.old }
        ensures counted { failures self.new ≡ failures self.old }
    {}

    /// Is told what there is to know of the figures that the plans of a query's blocks rest on, before its first row is read, with the
    /// database that the query is over (own). It does nothing, unless a sink has another body.
    fn report_plans(&self, _planned: Planned<'_>, _database: &Database) {}

    /// Is told now and then how far a statement is (own). It does nothing, unless a sink has another body.
    fn report_progress(&self, _progress: Progress) {}

    /// Is told what was told of the certificates of a query's blocks, before its lines are put, with the
    /// database that the query is over (own). It does nothing, unless a sink has another body.
    fn report_certificates(&mut self, _checked: &CheckedFile, _database: &Database)
        requires { AllByRecursion (IsFormedSomewhere _database.now) (map block_of _checked.now.blocks.now) }
        ensures taken { taken self.new ≡ taken self.old }
        ensures counted { failures self.new ≡ failures self.old }
    {}
}

/// A sink's device has failed.
#[derive(Clone, Copy, Debug, PartialEq, Eq, Error)]
#[error("the sink's device failed")]
pub struct SinkFault;
