//! What is left of an open that failed.

ghost use Rattle.sqlite.specs.Recovery.{Image};
ghost use Rattle.ledger_tables.specs.declared.openings.OpenFault.{OpenFault};
ghost use Rattle.ledger_files.specs.{
  Migrating.{AreNotMigrated, IsMigration},
  Opening.{AreRefused, IsCleanKept},
  Unfinished.{IsCleanRest, IsRefusal, MayLeaveRest},
};

use crate::rounds::leave;
use sqlite::{Connection, FileStore, Leftover};
use sqlite_disk::Disk;

/// What is handed back if files were not opened as a bureau's.
pub enum Kept<D: Disk> {
    /// They were opened, and are not a bureau's, or a fault came after that.
    Connection(Connection<FileStore<D>>),
    /// They were not opened.
    Left(Leftover<D>),
    /// They could not be reached.
    Nothing,
}

impl<D: Disk + Drop> Kept<D> {
    /// Returns what is left of the files, as a crash at this moment finds it. A failed open is then
    /// a step from the files that were found to whatever a crash leaves, and so is a failed
    /// migration.
    pub fn leave(self) -> Option<Leftover<D>>
        ensures refusal { (files : Image) → (fault : OpenFault)
            → (IsCleanKept self → AreRefused files fault self)
            → IsRefusal files (MayLeaveRest files result) }
        ensures migration { (files : Image) → (fault : OpenFault)
            → (IsCleanKept self → AreNotMigrated files fault self)
            → IsMigration files (MayLeaveRest files result) }
        ensures clean { IsCleanRest result → IsCleanKept self }
    {
        match self {
            Kept::Connection(conn) => Some(Leftover::Store(leave(conn))),
            Kept::Left(left) => Some(left),
            Kept::Nothing => None,
        }
    }
}

impl<D: Disk + Drop> Drop for Kept<D> {
    // A connection is let go of by `leave`, which is dear to prove, so here it is called.
    fn drop(self) {
        let _left = self.leave();
    }
}
