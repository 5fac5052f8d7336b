//! Closing a bureau's file, or a connection to it.

ghost use Rattle.std.specs.Prelude.{◌≡◌, ◌≤◌, ℕ, IfOk, IfErr};
ghost use Rattle.sqlite.specs.{
  FileStore.{recovers, view},
  Files.{file_state},
  Recovery.{Image},
  State.{HasCleanDisk},
  Tree.{Trees},
  View.{IsClean, doubt},
  WalFiles.{outcomes},
};
ghost use Rattle.sqlite_wal.specs.Reads.{AreClean};
ghost use Rattle.office.specs.Office.{Office};
ghost use Rattle.office_tables.specs.Standing.{Stands};
ghost use Rattle.ledger_tables.specs.Versions.{IsKnown};
ghost use Rattle.ledger_files.specs.{
  Closing.{HindersClosing, StandsAlone},
  Migrating.{IsMigrated, IsMigration},
  Rounds.{MayLeaveClosed},
};

use crate::closed::Closed;
use crate::opening::store_fault_of;
use ledger::Bureau;
use ledger_tables::OpenFault;
use sqlite::{Connection, FileStore};
use sqlite_disk::Disk;

/// The connection of a bureau in files.
// What names a store in files and calls a function over any store is dear to prove: so others call
// this.
pub(crate) fn connection_of<D: Disk + Drop>(
    bureau: Bureau<FileStore<D>>,
) -> Connection<FileStore<D>>
    ensures { result ≡ bureau.conn }
{
    bureau.into_connection()
}

/// Closes a connection: everything in the log is copied into its file. Returns both files, still
/// locked: from now on the file alone is the database, whatever a crash leaves, and the log may be
/// removed. Fails with 1 if there is no memory, and with 2 if the files fail now or a fault of them
/// came before; the two files together are then the database, as before.
pub fn close_connection<D: Disk + Drop>(
    conn: Connection<FileStore<D>>,
) -> Result<Closed<D>, (OpenFault, FileStore<D>)>
    ensures alone { IfOk result (λ closed. AreClean D.Disk closed.files.log closed.files.db
        → (office : Office) → Stands (file_state conn) office → (left : Image)
        → outcomes D.Disk closed.files.log closed.files.db left → StandsAlone left office) }
    ensures clean { IfOk result (λ closed. AreClean D.Disk closed.files.log closed.files.db
        → HasCleanDisk (file_state conn)) }
    ensures migration { IfOk result (λ closed. (first : Image) → (found : ℕ)
        → IsMigrated first found conn → IsMigration first (MayLeaveClosed closed)) }
    ensures kept { IfErr result (λ e. (db : Trees) → recovers e.1 db
        → (file_state conn).may_leave db) }
    ensures clean_still { IfErr result (λ e. doubt (file_state conn).is_clean
        ≤ doubt (view e.1).is_clean) }
    ensures cause { IfErr result (λ e. IsClean (view e.1) → HindersClosing conn e.1 e.0) }
    ensures known { IfErr result (λ e. IsKnown e.0) }
{
    match conn.close_files() {
        Ok(files) => Ok(Closed { files }),
        Err((error, store)) => Err((store_fault_of(error), store)),
    }
}

/// Closes a bureau: everything in the log is copied into its file. Returns both files, still
/// locked: from now on the file alone is the bureau, whatever a crash leaves, and the log may be
/// removed. Fails with 1 if there is no memory, and with 2 if the files fail now or a fault of them
/// came before; the two files together are then the bureau, as before.
pub fn close<D: Disk + Drop>(
    bureau: Bureau<FileStore<D>>,
) -> Result<Closed<D>, (OpenFault, FileStore<D>)>
    ensures alone { IfOk result (λ closed. AreClean D.Disk closed.files.log closed.files.db
        → (office : Office) → Stands (file_state bureau.conn) office → (left : Image)
        → outcomes D.Disk closed.files.log closed.files.db left → StandsAlone left office) }
    ensures clean { IfOk result (λ closed. AreClean D.Disk closed.files.log closed.files.db
        → HasCleanDisk (file_state bureau.conn)) }
    ensures kept { IfErr result (λ e. (db : Trees) → recovers e.1 db
        → (file_state bureau.conn).may_leave db) }
    ensures clean_still { IfErr result (λ e. doubt (file_state bureau.conn).is_clean
        ≤ doubt (view e.1).is_clean) }
    ensures cause { IfErr result (λ e. IsClean (view e.1) → HindersClosing bureau.conn e.1 e.0) }
{
    close_connection(connection_of(bureau))
}
