//! Creating a new bureau's file.

ghost use Rattle.std.specs.Prelude.{◌≡◌, [], IfErr, IfOk};
ghost use Rattle.sqlite.specs.{
  Files.{file_state},
  Held.{state},
  State.{HasCleanDisk, IsLive, Opens},
  WalFiles.{image_at},
};
ghost use Rattle.office_tables.specs.Standing.{Stands};
ghost use Rattle.ledger_tables.specs.{Disks.{StaysClean}, Versions.{IsKnown}};
ghost use Rattle.ledger_files.specs.Making.{AreEmpty, IsFirst, IsWithoutTables};

use crate::closed::Closed;
use crate::closing::close_connection;
use crate::opening::store_fault_of;
use crate::places::{NEW_FILE_MODE, Part, beside, is_free, remove_second_name, sync_folder_of};
use ledger::Bureau;
use ledger_tables::OpenFault;
use sqlite::{Alter, Connection, FileFrom, FileStore, Start};
use std::alloc::Global;
use std::fs;

/// Makes the tables of a bureau without jobs over a connection that was just opened.
// It is over any store, so that `open_new`, which names a store in files, makes one call only.
fn created<S: Alter + Drop>(alloc: Global, conn: Connection<S>) -> Result<Connection<S>, OpenFault>
    ensures made { IfOk result (λ made. HasCleanDisk (state S.Store made)
        → Opens (state S.Store conn) → IsLive (state S.Store conn)
        → IsWithoutTables (state S.Store conn).committed.trees → Stands (state S.Store made) []) }
    ensures clean { IfOk result (λ made. StaysClean S.Store conn made) }
    ensures known { IfErr result IsKnown }
{
    match Bureau::create(alloc, conn) {
        Ok(bureau) => Ok(bureau.into_connection()),
        Err((fault, _conn)) => Err(OpenFault::from(fault)),
    }
}

/// Opens the empty file at a path, and makes the tables of a bureau without jobs in it.
pub fn open_new<S: Start>(
    rt: &HostRuntime,
    path: &str,
    start: S,
) -> Result<Connection<FileStore<FileFrom<S>>>, OpenFault>
    ensures first { IfOk result (λ conn. HasCleanDisk (file_state conn)
        → AreEmpty (image_at S.Start) → Stands (file_state conn) []) }
    ensures known { IfErr result IsKnown }
{
    let conn = match Connection::open_from(rt, path, false, start) {
        Ok(conn) => conn,
        Err((error, _left)) => return Err(store_fault_of(error)),
    };
    match created(rt.alloc(), conn) {
        Ok(conn) => Ok(conn),
        Err(fault) => Err(fault),
    }
}

/// Creates a bureau in the empty file at a path, and closes it, so that all of it is in this one
/// file.
fn make_closed<S: Start>(
    rt: &HostRuntime,
    path: &str,
    start: S,
) -> Result<Closed<FileFrom<S>>, OpenFault>
    ensures first { IfOk result (IsFirst (image_at S.Start)) }
    ensures known { IfErr result IsKnown }
{
    let conn = match open_new(rt, path, start) {
        Ok(conn) => conn,
        Err(fault) => return Err(fault),
    };
    match close_connection(conn) {
        Ok(closed) => Ok(closed),
        Err((fault, _store)) => Err(fault),
    }
}

/// Links a file that is whole at a path, unless something is there. The disk keeps the new name.
fn publish(rt: &HostRuntime, part: &Part, path: &str) -> Result<(), OpenFault>
    ensures { IfErr result IsKnown }
{
    if fs::hard_link(rt, part.place().file.as_str(), path).is_err() {
        return Err(OpenFault::Store);
    }
    sync_folder_of(rt, path);
    Ok(())
}

/// Creates a bureau in a file of this name, and links it at a path, unless something is there.
fn make_part<S: Start>(
    rt: &HostRuntime,
    part: &Part,
    path: &str,
    start: S,
) -> Result<Closed<FileFrom<S>>, OpenFault>
    ensures first { IfOk result (IsFirst (image_at S.Start)) }
    ensures known { IfErr result IsKnown }
{
    let place = part.place();
    let closed = make_closed(rt, &place.file, start)?;
    place.remove_log(rt, &closed);
    publish(rt, part, path)?;
    Ok(closed)
}

/// Creates a bureau's file at a path where there is nothing.
fn make<S: Start>(rt: &HostRuntime, path: &str, start: S) -> Result<Closed<FileFrom<S>>, OpenFault>
    ensures first { IfOk result (IsFirst (image_at S.Start)) }
    ensures known { IfErr result IsKnown }
{
    let part = Part::reserve(rt, path, NEW_FILE_MODE)?;
    let made = make_part(rt, &part, path, start);
    part.remove(rt);
    made
}

/// Whether there is no file at a path, and no log or journal beside it: a new file would be taken
/// for the one that they belong to.
pub fn is_place_free(rt: &HostRuntime, path: &str) -> Result<bool, OpenFault>
    ensures { IfErr result IsKnown }
{
    for end in ["", "-wal", "-journal"] {
        if !is_free(rt, &beside(rt, path, end)?) {
            return Ok(false);
        }
    }
    Ok(true)
}

/// Creates a new bureau's file at a path where there is no file yet, and no log or journal of one.
/// It is created under another name beside it, so that it is there whole or not at all, even if the
/// program is stopped. It stays locked as long as what is returned is kept; whatever a crash leaves
/// of it represents the office without jobs. Fails with 2 if something is in its way, and changes
/// nothing then; with 1 if there is no memory.
pub fn init<S: Start>(
    rt: &HostRuntime,
    path: &str,
    start: S,
) -> Result<Closed<FileFrom<S>>, OpenFault>
    ensures first { IfOk result (IsFirst (image_at S.Start)) }
    ensures known { IfErr result IsKnown }
{
    remove_second_name(rt, path)?;
    if !is_place_free(rt, path)? {
        return Err(OpenFault::Store);
    }
    make(rt, path, start)
}
