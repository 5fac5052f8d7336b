//! Raising a bureau's file of an earlier version to this program's version.

ghost use Rattle.std.specs.Prelude.{◌≡◌, ◌≤◌, ℕ, Err, IfErr, IfOk, Ok};
ghost use Rattle.sqlite.specs.{
  Effect.{Database, IsDatabase},
  FileStore.{recovers, view},
  Files.{HoldsDatabase, file_state},
  Held.{state},
  Recovery.{Image},
  State.{HasCleanDisk, IsLive, Opens},
  Tree.{Trees},
  View.{doubt},
  WalFiles.{image_at, outcomes},
};
ghost use Rattle.sqlite_wal.specs.Reads.{AreClean};
ghost use Rattle.office.specs.Office.{Office};
ghost use Rattle.ledger_tables.specs.{
  Disks.{StaysClean},
  Schema.{own_version},
  Versions.{IsAnswer, IsNotOld},
};
ghost use Rattle.ledger.specs.{
  Migrating.{IsKeptOf, IsNoFaultOfVersion, IsRaised, LeavesEitherVersion, as_opened},
  Older.{LeftOf, StandsOf},
  Standing.{Stands},
};
ghost use Rattle.database_files.specs.Damage.{IsDamaged};
ghost use Rattle.ledger_files.specs.{
  Closing.{StandsAlone},
  Migrating.{AreNotMigrated, IsMidway, IsMigrated, IsMigration, IsVersionIn, IsVersionOf},
  Opening.{HoldsOnly, IsAnswerFor, IsCleanKept},
  Rounds.{MayLeaveClosed},
  Unfinished.{IsFoundAs, IsUnmigrated, fault_in},
};

use crate::closed::Closed;
use crate::closing::close_connection;
use crate::kept::Kept;
use crate::opening::handed_on;
use crate::places::Place;
use crate::unfinished::Unfinished;
use crate::working::let_go;
use database_files::connect;
use ledger_tables::{OpenFault, VERSION};
use sqlite::{Alter, Connection, FileFrom, FileStore, Start};
use sqlite_disk::Disk;
use std::alloc::Global;

/// Raises the tables of a connection that was just opened, and returns the version that they had.
// It is over any store, so that `migrate_from`, which names a store in files, makes one call only.
fn raised<S: Alter + Drop>(
    alloc: Global,
    mut conn: Connection<S>,
) -> Result<(u32, Connection<S>), (OpenFault, Connection<S>)>
    ensures opened { Opens (state S.Store conn) → IsLive (state S.Store conn)
        → (version : ℕ) → (office : Office)
        → LeftOf version (state S.Store conn).committed.trees office
        → StandsOf version (state S.Store conn) office }
    ensures raised { IfOk result (λ done. IsRaised S.Store conn done.1 done.0) }
    ensures midway { IfOk result (λ done. LeavesEitherVersion S.Store conn done.1) }
    ensures version { IfOk result (λ done. HasCleanDisk (state S.Store done.1)
        → Opens (state S.Store conn) → IsLive (state S.Store conn) → (db : Database)
        → IsDatabase db → (state S.Store conn).committed.trees ≡ db.trees
        → IsVersionIn db done.0) }
    ensures answer { IfOk result (λ done. HasCleanDisk (state S.Store done.1)
        → Opens (state S.Store conn) → IsLive (state S.Store conn) → (db : Database)
        → IsDatabase db → (state S.Store conn).committed.trees ≡ db.trees
        → IsAnswer db (as_opened (Ok done.0))) }
    ensures answer_still { IfErr result (λ e. HasCleanDisk (state S.Store e.1)
        → Opens (state S.Store conn) → IsLive (state S.Store conn) → (db : Database)
        → IsDatabase db → (state S.Store conn).committed.trees ≡ db.trees
        → IsAnswer db (as_opened (Err e.0))) }
    ensures alone { IfOk result (λ done. done.0 ≡ own_version
        → HasCleanDisk (state S.Store done.1) → Opens (state S.Store conn)
        → HoldsOnly (state S.Store done.1) (state S.Store conn).committed.trees) }
    ensures known { IfErr result (λ e. IsNoFaultOfVersion S.Store conn e.1 e.0) }
    ensures kept { IfErr result (λ e. e.0 ≡ OpenFault.NoMemory → IsKeptOf S.Store conn e.1) }
    ensures left { IfErr result (λ e. LeavesEitherVersion S.Store conn e.1) }
    ensures untouched { IfErr result (λ e. e.0 ≡ OpenFault.NotABureau
        → HasCleanDisk (state S.Store e.1) → Opens (state S.Store conn)
        → HoldsOnly (state S.Store e.1) (state S.Store conn).committed.trees) }
    ensures clean { IfOk result (λ done. StaysClean S.Store conn done.1) }
    ensures clean_still { IfErr result (λ e. StaysClean S.Store conn e.1) }
{
    match ledger::migrate(alloc, &mut conn) {
        Ok(version) => Ok((version, conn)),
        Err(fault) => Err((fault, conn)),
    }
}

/// Opens the file at a path, and raises its tables to this program's version, in one commit.
/// Returns the version that they had, and the connection, to be closed; if that was this version,
/// nothing was written. Fails with 50 if the file is not a bureau's or is of a later version, with
/// 1 if there is no memory, and else with 2. The contents of the files are then handed back, as far
/// as they were reached: after 1 and 50 they hold what they held, after 2 they may be raised.
pub fn migrate_from<S: Start>(
    rt: &HostRuntime,
    path: &str,
    start: S,
) -> Result<(u32, Connection<FileStore<FileFrom<S>>>), (OpenFault, Kept<FileFrom<S>>)>
    ensures raised { IfOk result (λ done. IsMigrated (image_at S.Start) done.0 done.1) }
    ensures midway { IfOk result (λ done. IsMidway (image_at S.Start) done.1) }
    ensures version { IfOk result (λ done. HasCleanDisk (file_state done.1)
        → IsVersionOf (image_at S.Start) done.0) }
    ensures answer { IfOk result (λ done. HasCleanDisk (file_state done.1)
        → IsAnswerFor (image_at S.Start) (as_opened (Ok done.0))) }
    ensures alone { IfOk result (λ done. done.0 ≡ own_version → HasCleanDisk (file_state done.1)
        → (db : Trees) → HoldsDatabase (image_at S.Start) db
        → HoldsOnly (file_state done.1) db) }
    ensures sound { IfOk result (λ done. HasCleanDisk (file_state done.1)
        → ¬ IsDamaged (image_at S.Start).log) }
    ensures refused { IfErr result (λ e. IsCleanKept e.1
        → AreNotMigrated (image_at S.Start) e.0 e.1) }
    ensures told { IfErr result (λ e. IsNotOld e.0) }
{
    let conn = match connect(rt, path, start) {
        Ok(conn) => conn,
        Err((error, left)) => return Err(handed_on(error, left)),
    };
    match raised(rt.alloc(), conn) {
        Ok(done) => Ok(done),
        Err((fault, conn)) => Err((fault, Kept::Connection(conn))),
    }
}

/// Closes the file of a connection whose tables had this version and were raised. Fails with 1 only
/// if nothing was raised, since 1 says that the file is as it was; otherwise with 2.
pub fn close_migrated<D: Disk + Drop>(
    version: u32,
    conn: Connection<FileStore<D>>,
) -> Result<Closed<D>, (OpenFault, FileStore<D>)>
    ensures alone { IfOk result (λ closed. AreClean D.Disk closed.files.log closed.files.db
        → (office : Office) → Stands (file_state conn) office → (left : Image)
        → outcomes D.Disk closed.files.log closed.files.db left → StandsAlone left office) }
    ensures migration { IfOk result (λ closed. (first : Image) → IsMigrated first version conn
        → IsMigration first (MayLeaveClosed closed)) }
    ensures clean { IfOk result (λ closed. AreClean D.Disk closed.files.log closed.files.db
        → HasCleanDisk (file_state conn)) }
    ensures kept { IfErr result (λ e. (db : Trees) → recovers e.1 db
        → (file_state conn).may_leave db) }
    ensures clean_still { IfErr result (λ e. doubt (file_state conn).is_clean
        ≤ doubt (view e.1).is_clean) }
    ensures memory { IfErr result (λ e. e.0 ≡ OpenFault.NoMemory → version ≡ own_version) }
    ensures told { IfErr result (λ e. IsNotOld e.0) }
{
    match close_connection(conn) {
        Ok(closed) => Ok(closed),
        Err((fault, store)) if version == VERSION => Err((fault, store)),
        Err((_, store)) => Err((OpenFault::Store, store)),
    }
}

/// A bureau's file that was raised to this program's version, or was of it already.
#[derive(Drop)]
pub struct Migrated<D: Disk> {
    version: u32,
    closed: Closed<D>,
}

impl<D: Disk> Migrated<D> {
    /// The version that the file had.
    pub fn version(&self) -> u32
        ensures { result ≡ self.now.version }
    {
        self.version
    }
}

/// Ends a migration of the file at a place from this version. Its log is removed while its file is
/// still locked, so that no other program has begun to write to that log. If the file is not
/// closed, the log stays.
fn end<D: Disk + Drop>(
    rt: &HostRuntime,
    version: u32,
    conn: Connection<FileStore<D>>,
    place: &Place,
) -> Result<Migrated<D>, Unfinished<D>>
    ensures migration { IfOk result (λ done. (files : Image) → IsMigrated files version conn
        → IsMigration files (MayLeaveClosed done.closed)) }
    ensures version { IfOk result (λ done. (files : Image)
        → (HasCleanDisk (file_state conn) → IsVersionOf files version)
        → AreClean D.Disk done.closed.files.log done.closed.files.db
        → IsVersionOf files done.version) }
    ensures unmigrated { IfErr result (λ left. (files : Image) → IsMidway files conn
        → IsUnmigrated files left) }
    ensures memory { IfErr result (λ left. fault_in left ≡ OpenFault.NoMemory
        → version ≡ own_version) }
{
    match close_migrated(version, conn) {
        Ok(closed) => {
            place.remove_log(rt, &closed);
            Ok(Migrated { version, closed })
        }
        Err((fault, store)) => Err(Unfinished::Unclosed(fault, store)),
    }
}

/// Raises the bureau's file at a path to this program's version. After it the file alone is the
/// bureau; if it was of this version, it holds what it held. It stays locked as long as what is
/// returned is kept. Fails with 50 if the file is not a bureau's or is of a later version, with 1 if
/// there is no memory, and else with 2. After 1 and 50 it holds what it held, after 2 it may be
/// raised; it can be migrated again. If it was raised and could not be closed, its log stays. Either
/// way whatever a crash leaves is of the same office, in the version that it had or in this
/// program's.
pub fn migrate<S: Start>(
    rt: &HostRuntime,
    path: &str,
    start: S,
) -> Result<Migrated<FileFrom<S>>, Unfinished<FileFrom<S>>>
    ensures migration { IfOk result (λ done. IsMigration (image_at S.Start)
        (MayLeaveClosed done.closed)) }
    ensures version { IfOk result (λ done. IsFoundAs (image_at S.Start) done) }
    ensures unmigrated { IfErr result (IsUnmigrated (image_at S.Start)) }
{
    let place = match Place::find(rt, path) {
        Ok(place) => place,
        Err(fault) => return Err(Unfinished::Unfound(fault)),
    };
    let log = place.log_length(rt);
    match migrate_from(rt, &place.file, start) {
        Ok((version, conn)) => end(rt, version, conn, &place),
        Err((fault, kept)) => Err(Unfinished::Refused(fault, let_go(rt, kept, &place, log))),
    }
}
