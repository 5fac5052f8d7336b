//! What is left of a bureau's files that were not closed.

ghost use Rattle.std.specs.Prelude.{◌≡◌};
ghost use Rattle.ledger_files.specs.Unfinished.{fault_in};

use ledger_tables::OpenFault;
use sqlite::{FileStore, Leftover};
use sqlite_disk::Disk;

/// Why the work with a bureau's file did not end with closing it, or its migration, and what is left
/// of the files then. They stay locked as long as this is kept.
pub enum Unfinished<D: Disk> {
    /// The file was not found, or does not begin as a database does. Nothing was done.
    Unfound(OpenFault),
    /// The files could not be opened as a bureau's, or not be migrated: there is nothing left of
    /// them in memory, or this. No work was done.
    Refused(OpenFault, Option<Leftover<D>>),
    /// The work was done, and the files were not closed.
    Unclosed(OpenFault, FileStore<D>),
}

impl<D: Disk> Unfinished<D> {
    /// The fault.
    pub fn fault(&self) -> OpenFault
        ensures { result ≡ fault_in self.now }
    {
        match self {
            Unfinished::Unfound(fault)
            | Unfinished::Refused(fault, _)
            | Unfinished::Unclosed(fault, _) => *fault,
        }
    }
}

impl<D: Disk + Drop> Drop for Unfinished<D> {
    fn drop(self) {
        match self {
            Unfinished::Unfound(_fault) => {}
            Unfinished::Refused(_fault, _rest) => {}
            Unfinished::Unclosed(_fault, _store) => {}
        }
    }
}
