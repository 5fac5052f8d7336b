//! A bureau's file that is looked into, or that something is made of.

ghost use Rattle.ledger_files.specs.Places.{AreLocked};

use crate::copy_faults::CopyFault;
use crate::kept::Kept;
use crate::opening::open_connection;
use crate::places::{Place, copy_bytes};
use crate::working::let_go;
use ledger_tables::OpenFault;
use sqlite::{Connection, FileStore, Leftover};
use sqlite_std_file::File;
use std::os::unix::fs::MetadataExt;
use std::{fs, io};

/// Who may read and write a file, in its mode.
const ACCESS: u32 = 0o777;

/// Its owner may read and write it, in a file's mode.
const OWNED: u32 = 0o600;

/// A bureau's file that is to be after it what it was.
#[derive(Drop)]
pub struct Source {
    place: Place,
    /// The length that its log had before it was opened, if there was one.
    log: Option<u64>,
}

impl Source {
    /// Opens the bureau's file at a path. From then on no other program has it. If it cannot be
    /// opened, its log becomes what it was. It is not opened if that would change what the log has.
    pub fn open(
        rt: &HostRuntime,
        path: &str,
    ) -> Result<(Source, Connection<FileStore<File>>), OpenFault> {
        let place = Place::find(rt, path)?;
        // Before the looks: where the log goes meanwhile, they make an empty one.
        let log = place.log_length(rt);
        if place.has_headless_log(rt) || place.has_torn_log(rt) {
            return Err(OpenFault::Store);
        }
        match open_connection(rt, &place.file) {
            Ok(conn) => Ok((Source { place, log }, conn)),
            Err((fault, kept)) => {
                drop(let_go(rt, kept, &place, log));
                Err(fault)
            }
        }
    }

    /// Who may read and write the file, and its owner in any case.
    pub fn mode(&self, rt: &HostRuntime) -> Result<u32, CopyFault> {
        match fs::metadata(rt, self.place.file.as_str()) {
            Ok(found) => Ok((found.mode() & ACCESS) | OWNED),
            Err(error) => Err(CopyFault::of(&error)),
        }
    }

    /// Copies the file, and its log if it had one, to another place, whose log is to have a mode.
    pub fn copy_to(&self, rt: &HostRuntime, to: &Place, mode: u32) -> io::Result<()> {
        copy_bytes(rt, &self.place.file, &to.file)?;
        match self.log {
            Some(_) => self.place.copy_log(rt, to, mode),
            None => Ok(()),
        }
    }

    /// Lets the file go. Its log becomes what it was while the file is still locked.
    pub fn release(self, rt: &HostRuntime, store: FileStore<File>) {
        self.release_kept(rt, Kept::Left(Leftover::Store(store)));
    }

    /// The same, where this is left of the open that reached the file.
    pub fn release_kept(self, rt: &HostRuntime, kept: Kept<File>)
        requires { AreLocked kept }
    {
        self.place.restore_log(rt, &kept, self.log);
    }
}

/// The fault by which the file at a path cannot be opened as a bureau's, if there is one. The file
/// and its log are after it what they were.
pub fn find_fault(rt: &HostRuntime, path: &str) -> Option<OpenFault> {
    match Source::open(rt, path) {
        Ok((source, conn)) => {
            source.release_kept(rt, Kept::Connection(conn));
            None
        }
        Err(fault) => Some(fault),
    }
}
