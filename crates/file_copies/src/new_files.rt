//! A new file that is made under another name beside its path, and gets its own only if it is found
//! to be what it should be.

ghost use Rattle.std.specs.Prelude.{IsTrue, OnOk};

use ledger_files::{
    CopyFault, Kept, Part, Place, close_connection, is_place_free, open_connection, sync,
    sync_folder_of,
};
use ledger_tables::OpenFault;
use sqlite::{Connection, FileStore, Leftover};
use sqlite_std_file::File;
use std::fs;

/// Whether a name is that of a log or a journal of another file.
fn is_of_log(name: &str) -> bool {
    name.ends_with("-wal") || name.ends_with("-journal") || name.ends_with("-shm")
}

/// Checks that there is nothing at the path of a new file.
fn check_place(rt: &HostRuntime, new: &str) -> Result<(), CopyFault> {
    match is_place_free(rt, new) {
        Ok(true) => Ok(()),
        Ok(false) => Err(CopyFault::Taken),
        Err(fault) => Err(CopyFault::Copy(fault)),
    }
}

/// Checks that a new file may have a path: it is no log's, and there is nothing.
pub(crate) fn check_name(rt: &HostRuntime, new: &str) -> Result<(), CopyFault> {
    if is_of_log(new) {
        return Err(CopyFault::Name);
    }
    check_place(rt, new)
}

/// Makes an empty file of a mode beside a path, under a name that no other file has.
pub(crate) fn reserve(rt: &HostRuntime, new: &str, mode: u32) -> Result<Part, CopyFault> {
    match Part::reserve(rt, new, mode) {
        Ok(part) => Ok(part),
        Err(fault) => Err(CopyFault::Copy(fault)),
    }
}

/// Opens a new file, as a bureau's.
pub(crate) fn open_part(
    rt: &HostRuntime,
    part: &Place,
) -> Result<Connection<FileStore<File>>, CopyFault> {
    match open_connection(rt, &part.file) {
        Ok(conn) => Ok(conn),
        Err((fault, _kept)) => Err(CopyFault::Unread(fault)),
    }
}

/// Lets a new file go that was opened and not written to. The log that the open made is removed.
pub(crate) fn release_part(rt: &HostRuntime, part: &Place, store: FileStore<File>) {
    part.restore_log(rt, &Kept::Left(Leftover::Store(store)), None);
}

/// Closes a new file, so that all of it is in this one file.
pub(crate) fn close_new(
    rt: &HostRuntime,
    part: &Place,
    conn: Connection<FileStore<File>>,
) -> Result<(), CopyFault> {
    match close_connection(conn) {
        Ok(closed) => {
            part.remove_log(rt, &closed);
            Ok(())
        }
        Err((fault, _store)) => Err(CopyFault::Copy(fault)),
    }
}

/// Gives a new file its name, unless something has that name, or not all of it is in its one file.
/// Returns how many bytes it has.
fn publish(rt: &HostRuntime, part: &Place, new: &str) -> Result<u64, CopyFault> {
    let length = match sync(rt, &part.file) {
        Ok(length) => length,
        Err(error) => return Err(CopyFault::of(&error)),
    };
    if part.log_length(rt).is_some() {
        return Err(CopyFault::Copy(OpenFault::Store));
    }
    check_place(rt, new)?;
    match fs::hard_link(rt, part.file.as_str(), new) {
        Ok(()) => {
            sync_folder_of(rt, new);
            Ok(length)
        }
        Err(error) => Err(CopyFault::of_link(&error)),
    }
}

/// Gives a new file its name if it was made, and found to be what it should be.
fn publish_found(
    rt: &HostRuntime,
    part: &Place,
    new: &str,
    made: Result<(), CopyFault>,
    is_found: bool,
) -> Result<u64, CopyFault>
    ensures { OnOk result (IsTrue is_found) }
{
    made?;
    if !is_found {
        return Err(CopyFault::NotSame);
    }
    publish(rt, part, new)
}

/// Ends the making of a new file: it gets its name if it was made, and found to be what it should
/// be. Its other name is removed. Returns how many bytes it has.
pub(crate) fn end(
    rt: &HostRuntime,
    part: Part,
    new: &str,
    made: Result<(), CopyFault>,
    is_found: bool,
) -> Result<u64, CopyFault>
    ensures { OnOk result (IsTrue is_found) }
{
    let published = publish_found(rt, part.place(), new, made, is_found);
    part.remove(rt);
    published
}
