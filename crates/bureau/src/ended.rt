//! How a subcommand on a bureau's file ended, with the file.

ghost use Rattle.std.specs.Prelude.{◌≡◌};
ghost use Rattle.bureau.specs.{Outcomes.{made_with, with_file}, Work.{outcome_in}};

use bureau_work::Outcome;
use ledger_files::{Closed, Unfinished};
use ledger_tables::OpenFault;
use sqlite_disk::Disk;

/// The outcome of a subcommand whose work had this outcome itself: the fault if the bureau's file
/// could not be opened, or closed then.
fn with_file<D: Disk>(work: Outcome, file: &Result<Closed<D>, Unfinished<D>>) -> Outcome
    ensures { result ≡ with_file file.now work }
{
    match file {
        Ok(_) => work,
        Err(left) => work.then_fault(left.fault()),
    }
}

/// The outcome where a bureau's file was to be made.
pub fn outcome_of_made<D: Disk>(file: &Result<Closed<D>, OpenFault>) -> Outcome
    ensures { result ≡ made_with file.now }
{
    match file {
        Ok(_) => Outcome::Done,
        Err(fault) => Outcome::Fault(*fault),
    }
}

/// How a subcommand's work with a bureau's file ended, and what came of the file. It stays locked
/// as long as this is kept.
#[derive(Drop)]
pub struct Ended<D: Disk> {
    /// The outcome of the work itself.
    work: Outcome,
    /// The file, closed, or what is left of it.
    file: Result<Closed<D>, Unfinished<D>>,
}

impl<D: Disk> Ended<D> {
    /// The end of work with this outcome, and of its file.
    pub(crate) fn new(work: Outcome, file: Result<Closed<D>, Unfinished<D>>) -> Ended<D>
        ensures { (result.work ≡ work) × (result.file ≡ file) }
    {
        Ended { work, file }
    }

    /// The outcome of the subcommand: that of the work, or the fault if the file could not be
    /// opened, or closed after it.
    pub fn outcome(&self) -> Outcome
        ensures { result ≡ outcome_in self.now }
    {
        with_file(self.work, &self.file)
    }
}
