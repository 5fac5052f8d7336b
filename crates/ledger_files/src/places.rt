//! Where a bureau's file lies.

ghost use Rattle.std.specs.{Prelude.{◌≡◌, IfErr}, IoError.{error_kind}};
ghost use Rattle.ledger_tables.specs.Versions.{IsKnown, IsNotOld};
ghost use Rattle.ledger_files.specs.Places.{AreLocked, BeginsAs, path_fault};

mod parts;

use crate::closed::Closed;
use crate::kept::Kept;
use database_files::{Undoing, is_headless, is_torn};
use ledger_tables::OpenFault;
pub use parts::{Part, remove_second_name};
use sqlite::Unknown;
use sqlite_disk::Disk;
use std::fs::{File, Metadata, OpenOptions};
use std::io::{ErrorKind, Read};
use std::os::unix::fs::{MetadataExt, OpenOptionsExt};
use std::{fs, io};

/// Who may read and write a new file: its owner, and all others may read it.
pub const NEW_FILE_MODE: u32 = 0o644;

/// The first bytes of a database's file.
const BEGINNING: [u8; 16] = *b"SQLite format 3\0";

/// The paths of a bureau's file and of its log. Nothing else here knows the name of a log, so what
/// happens to one is all in the methods.
#[derive(Drop)]
pub struct Place {
    pub file: String,
    log: String,
}

impl Place {
    /// The place of the bureau's file at a path. Links are followed, since the log is beside the
    /// file itself. The file must begin as a database does: this comes before it is opened as one,
    /// since that would create a missing file, and fill an empty one. If it has a second name, since
    /// the program that made it was stopped, that name goes.
    pub fn find(rt: &HostRuntime, path: &str) -> Result<Place, OpenFault>
        ensures { IfErr result IsNotOld }
    {
        let place = match fs::canonicalize(rt, path) {
            Ok(real) => Place::at(beside(rt, real.as_str(), "")?, rt)?,
            Err(error) => return Err(fault_of(&error)),
        };
        look(rt, &place.file)?;
        look_at_folder(rt, &place.file)?;
        remove_second_name(rt, &place.file)?;
        Ok(place)
    }

    /// The place of a file at a path without links.
    fn at(file: String, rt: &HostRuntime) -> Result<Place, OpenFault>
        ensures { IfErr result IsKnown }
    {
        let log = beside(rt, &file, "-wal")?;
        Ok(Place { file, log })
    }

    /// Copies the log, if there is one, into a new log of a mode beside another file. Fails if that
    /// has one.
    pub fn copy_log(&self, rt: &HostRuntime, to: &Place, mode: u32) -> io::Result<()> {
        if self.log_length(rt).is_none() {
            return Ok(());
        }
        make_file(rt, &to.log, mode)?;
        copy_bytes(rt, &self.log, &to.log)
    }

    /// The length of the log, if there is one.
    pub fn log_length(&self, rt: &HostRuntime) -> Option<u64> {
        match fs::symlink_metadata(rt, self.log.as_str()) {
            Ok(found) => Some(found.len()),
            Err(_) => None,
        }
    }

    /// Whether the log has bytes and no header behind which recovery looks: it was being emptied, or
    /// is damaged, which nothing tells apart. An open would empty it.
    pub fn has_headless_log(&self, rt: &HostRuntime) -> bool {
        match File::open(rt, &self.log) {
            Ok(mut log) => is_headless(self.log_length(rt).unwrap_or(0), first_of(&mut log)),
            Err(_) => false,
        }
    }

    /// Whether the log ends in a commit that is not whole, though it was written to its end, or as it
    /// was when the power went. An open would drop that. It is not asked where there is no log, since
    /// the files are opened for it.
    pub fn has_torn_log(&self, rt: &HostRuntime) -> bool {
        if self.log_length(rt).is_none() {
            return false;
        }
        match sqlite_std_file::open(rt, &self.file, Unknown) {
            Ok(mut files) => matches!(is_torn(rt.alloc(), &mut files.log), Ok(true)),
            Err(_) => false,
        }
    }

    /// Removes the log of the files that are here. They were closed: they hold their database with
    /// the log and without it. They are still locked, so that no other program has this log.
    pub fn remove_log<D: Disk>(&self, rt: &HostRuntime, _closed: &Closed<D>) {
        remove(rt, &self.log);
    }

    /// Undoes what an open that failed, or a look, did to the log, which had this length before, if
    /// there was one. What the open handed back must still keep the files locked: the log of files
    /// that were not reached is another program's.
    pub fn restore_log<D: Disk>(&self, rt: &HostRuntime, _kept: &Kept<D>, before: Option<u64>)
        requires { AreLocked _kept.now }
    {
        let Some(now) = self.log_length(rt) else {
            return;
        };
        match Undoing::of(before, now) {
            Undoing::Keep => {}
            Undoing::Remove => remove(rt, &self.log),
            Undoing::Cut(length) => cut(rt, &self.log, length),
        }
    }
}

/// The first byte of a file, if it can be read.
fn first_of(file: &mut File) -> Option<u8> {
    let mut byte = [0u8];
    match file.read_exact(&mut byte) {
        Ok(()) => Some(byte[0]),
        Err(_) => None,
    }
}

/// Whether the first bytes of a file are a database's, or could not be read for an error of this
/// kind.
fn judge_beginning(read: Result<[u8; 16], ErrorKind>) -> Result<(), OpenFault>
    ensures { BeginsAs read result }
{
    match read {
        Ok(bytes) if bytes == BEGINNING => Ok(()),
        Ok(_) | Err(ErrorKind::UnexpectedEof) => Err(OpenFault::NotABureau),
        Err(_) => Err(OpenFault::Store),
    }
}

/// The first bytes of a file, or the kind of the error by which they cannot be read.
fn read_beginning(file: &mut File) -> Result<[u8; 16], ErrorKind> {
    let mut bytes = [0u8; 16];
    match file.read_exact(&mut bytes) {
        Ok(()) => Ok(bytes),
        Err(error) => Err(error.kind()),
    }
}

/// Checks that there is a file at a path, and that it begins as a database does.
pub fn look(rt: &HostRuntime, path: &str) -> Result<(), OpenFault>
    ensures { IfErr result IsNotOld }
{
    match fs::metadata(rt, path) {
        Ok(found) if found.is_file() => {}
        _ => return Err(OpenFault::Store),
    }
    match File::open(rt, path) {
        Ok(mut file) => judge_beginning(read_beginning(&mut file)),
        Err(error) => Err(fault_of(&error)),
    }
}

/// Checks that the folder of the file at a path can be read: an open that finds that it cannot would
/// leave an empty log.
fn look_at_folder(rt: &HostRuntime, path: &str) -> Result<(), OpenFault>
    ensures { IfErr result IsNotOld }
{
    match open_folder_of(rt, path) {
        Ok(_) => Ok(()),
        Err(error) => Err(fault_of(&error)),
    }
}

/// The fault where a path cannot be used: 1 for want of memory, else 2.
pub fn fault_of(error: &io::Error) -> OpenFault
    ensures told { result ≡ path_fault (error_kind error.now) }
    ensures known { IsKnown result }
{
    match error.kind() {
        ErrorKind::OutOfMemory => OpenFault::NoMemory,
        _ => OpenFault::Store,
    }
}

/// The path with more letters at its end.
pub fn beside(rt: &HostRuntime, path: &str, end: &str) -> Result<String, OpenFault>
    ensures { IfErr result IsKnown }
{
    match format!(in rt.alloc(); "{path}{end}") {
        Ok(name) => Ok(name),
        Err(_) => Err(OpenFault::NoMemory),
    }
}

/// Makes an empty file of a mode. Fails if there is anything at this path.
fn make_file(rt: &HostRuntime, path: &str, mode: u32) -> io::Result<()> {
    let mut options = OpenOptions::new();
    options.write(true).create_new(true).mode(mode);
    drop(options.open(rt, path)?);
    Ok(())
}

/// Copies the bytes of a file into one that is there, and has the disk keep them.
pub fn copy_bytes(rt: &HostRuntime, from: &str, to: &str) -> io::Result<()> {
    let mut source = File::open(rt, from)?;
    let mut target = OpenOptions::new().write(true).open(rt, to)?;
    io::copy(&mut source, &mut target)?;
    target.sync_all()
}

/// Removes what is at a path, if it can be removed.
fn remove(rt: &HostRuntime, path: &str) {
    let _ = fs::remove_file(rt, path);
}

/// Cuts a file to a length.
fn cut(rt: &HostRuntime, path: &str, length: u64) {
    if let Ok(file) = OpenOptions::new().write(true).open(rt, path) {
        let _ = file.set_len(length);
    }
}

/// Whether these are of one file, under whatever names.
fn is_one_file(one: &Metadata, other: &Metadata) -> bool {
    one.dev() == other.dev() && one.ino() == other.ino()
}

/// Whether the files at two paths are one, by links or by two names.
pub fn are_one_file(rt: &HostRuntime, first: &str, second: &str) -> bool {
    match (fs::metadata(rt, first), fs::metadata(rt, second)) {
        (Ok(one), Ok(other)) => is_one_file(&one, &other),
        _ => false,
    }
}

/// Whether there is nothing at a path.
pub fn is_free(rt: &HostRuntime, path: &str) -> bool {
    match fs::symlink_metadata(rt, path) {
        Ok(_) => false,
        Err(error) => error.kind() == ErrorKind::NotFound,
    }
}

/// Has the disk keep the bytes of a file. Returns how many there are.
pub fn sync(rt: &HostRuntime, path: &str) -> io::Result<u64> {
    let file = fs::open(rt, path)?;
    file.sync_all()?;
    Ok(file.metadata()?.len())
}

/// Opens the folder of the file at a path.
fn open_folder_of(rt: &HostRuntime, path: &str) -> io::Result<File> {
    let mut folder = fs::canonicalize(rt, path)?;
    folder.pop();
    fs::open(rt, folder.as_str())
}

/// Has the disk keep the names of a folder: that of the file at a path.
pub fn sync_folder_of(rt: &HostRuntime, path: &str) {
    if let Ok(folder) = open_folder_of(rt, path) {
        let _ = folder.sync_all();
    }
}
