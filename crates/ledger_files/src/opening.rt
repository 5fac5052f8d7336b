//! Opening a bureau's file.

ghost use Rattle.std.specs.Prelude.{◌≡◌, false, Ok, IfOk, IfErr};
ghost use Rattle.sqlite.specs.{
  Effect.{Database, IsDatabase},
  Held.{state},
  Files.{file_state, HoldsDatabase},
  State.{HasCleanDisk, Opens, IsLive},
  Tree.{Trees},
  WalFiles.{image_at},
};
ghost use Rattle.ledger_tables.specs.{Disks.{StaysClean}, Versions.{IsAnswer, IsKnown}};
ghost use Rattle.office.specs.Office.{Office};
ghost use Rattle.ledger.specs.{
  Adopting.{StandsStill, IsNoFaultOfTables, IsTold, handed, verdict},
  Standing.{LeftAs, Stands},
};
ghost use Rattle.database_files.specs.Damage.{IsDamaged};
ghost use Rattle.ledger_files.specs.{
  Opening.{AreOf, AreRefused, HoldsOnly, IsAnswerFor, IsCleanKept, IsToldOpen, kept_of, store_fault},
};

use crate::closing::connection_of;
use crate::kept::Kept;
use database_files::connect;
use ledger::Bureau;
use ledger_tables::OpenFault;
use sqlite::{Alter, Connection, Error, ErrorCode, FileFrom, FileStore, Leftover, Start, Unknown};
use sqlite_std_file::File;
use std::alloc::Global;

/// Proves that a connection that was just opened represents the office of its trees, and that a
/// crash leaves its trees alone. It is called only for its clauses.
fn opened_stands<S: Alter>(conn: &Connection<S>)
    ensures stands { Opens (state S.Store conn.now) → IsLive (state S.Store conn.now)
        → (office : Office) → LeftAs (state S.Store conn.now).committed.trees office
        → Stands (state S.Store conn.now) office }
    ensures holds { Opens (state S.Store conn.now)
        → HoldsOnly (state S.Store conn.now) (state S.Store conn.now).committed.trees }
{}

/// Adopts a connection that was just opened: the bureau represents the office of its trees.
// It is over any store, so that `open_from`, which names a store in files, makes one call only.
fn adopted<S: Alter + Drop>(
    alloc: Global,
    conn: Connection<S>,
) -> Result<Bureau<S>, (OpenFault, Connection<S>)>
    ensures opened { Opens (state S.Store conn) → IsLive (state S.Store conn)
        → (office : Office) → LeftAs (state S.Store conn).committed.trees office
        → Stands (state S.Store conn) office }
    ensures holds { HasCleanDisk (state S.Store (handed result)) → Opens (state S.Store conn)
        → HoldsOnly (state S.Store (handed result)) (state S.Store conn).committed.trees }
    ensures whole { IfOk result (λ bureau. bureau.broken ≡ false) }
    ensures told { IsTold S.Store conn (handed result) (verdict result) }
    ensures answer { HasCleanDisk (state S.Store (handed result)) → Opens (state S.Store conn)
        → IsLive (state S.Store conn) → (db : Database) → IsDatabase db
        → (state S.Store conn).committed.trees ≡ db.trees → IsAnswer db (verdict result) }
    ensures stands { IfOk result (λ bureau. StandsStill S.Store conn bureau.conn) }
    ensures kept { IfErr result (λ e. StandsStill S.Store conn e.1) }
    ensures known { IfErr result (λ e. IsNoFaultOfTables S.Store conn e.1 e.0) }
    ensures clean { IfOk result (λ bureau. StaysClean S.Store conn bureau.conn) }
    ensures clean_still { IfErr result (λ e. StaysClean S.Store conn e.1) }
{
    opened_stands(&conn);
    Bureau::adopt(alloc, conn)
}

/// The fault of the store's error: 1 if there is no memory, else 2.
pub fn store_fault_of(error: Error) -> OpenFault
    ensures memory { error ≡ Error.SqliteFailure ErrorCode.OutOfMemory
        → result ≡ OpenFault.NoMemory }
    ensures told { result ≡ store_fault error }
    ensures known { IsKnown result }
{
    match error {
        Error::SqliteFailure(ErrorCode::OutOfMemory) => OpenFault::NoMemory,
        _ => OpenFault::Store,
    }
}

/// Hands on an error by which files could not be opened, and all that is left of the files.
pub fn handed_on<S: Start>(
    error: Error,
    left: Option<Leftover<FileFrom<S>>>,
) -> (OpenFault, Kept<FileFrom<S>>)
    ensures all { result ≡ (store_fault error, kept_of left) }
    ensures known { IsKnown result.0 }
{
    let kept = match left {
        Some(left) => Kept::Left(left),
        None => Kept::Nothing,
    };
    (store_fault_of(error), kept)
}

/// Opens the file at a path as a bureau. Fails with 50 if it is not a bureau's or is of a later
/// version, with 51 if it is of an earlier version, with 1 if there is no memory, and else with 2;
/// so it does where the log is damaged, to which nothing is written then. The contents of the files
/// are then handed back, as far as they were reached; after 50 and 51 they hold what they held.
pub fn open_from<S: Start>(
    rt: &HostRuntime,
    path: &str,
    start: S,
) -> Result<Bureau<FileStore<FileFrom<S>>>, (OpenFault, Kept<FileFrom<S>>)>
    ensures found { IfOk result (λ bureau. HasCleanDisk (file_state bureau.conn)
        → (office : Office) → AreOf (image_at S.Start) office
        → ∥ Stands (file_state bureau.conn) office ∥₁) }
    ensures whole { IfOk result (λ bureau. bureau.broken ≡ false) }
    ensures version { IfOk result (λ bureau. HasCleanDisk (file_state bureau.conn)
        → IsAnswerFor (image_at S.Start) (Ok tt)) }
    ensures opened { IfOk result (λ bureau. HasCleanDisk (file_state bureau.conn)
        → IsToldOpen (image_at S.Start) bureau.conn (Ok tt)) }
    ensures holds { IfOk result (λ bureau. HasCleanDisk (file_state bureau.conn) → (db : Trees)
        → HoldsDatabase (image_at S.Start) db → HoldsOnly (file_state bureau.conn) db) }
    ensures sound { IfOk result (λ bureau. HasCleanDisk (file_state bureau.conn)
        → ¬ IsDamaged (image_at S.Start).log) }
    ensures refused { IfErr result (λ e. IsCleanKept e.1
        → AreRefused (image_at S.Start) e.0 e.1) }
{
    let conn = match connect(rt, path, start) {
        Ok(conn) => conn,
        Err((error, left)) => return Err(handed_on(error, left)),
    };
    match adopted(rt.alloc(), conn) {
        Ok(bureau) => Ok(bureau),
        Err((fault, conn)) => Err((fault, Kept::Connection(conn))),
    }
}

/// Opens the file at a path as [`open_from`] does, for one who wants its connection alone.
pub fn open_connection(
    rt: &HostRuntime,
    path: &str,
) -> Result<Connection<FileStore<File>>, (OpenFault, Kept<File>)> {
    match open_from(rt, path, Unknown) {
        Ok(bureau) => Ok(connection_of(bureau)),
        Err((fault, kept)) => Err((fault, kept)),
    }
}
