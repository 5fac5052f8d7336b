//! What hinders the use of a bureau's file, in words for who has to do something about it.

ghost use Rattle.std.specs.Prelude.{◌≡◌};
ghost use Rattle.ledger_tables.specs.declared.openings.OpenFault.TheVariants as opening;
ghost use Rattle.ledger_files.specs.Hindrances.{IsHindranceOf, IsOfForeignFile, IsOfUnusedFile};

use crate::places::{Place, beside, look};
use database_files::{Damage, DamagedLog};
use ledger_tables::{OpenFault, VERSION};
use sqlite::{File, Unknown};
use sqlite_std_file::OpenError;
use std::fmt::{Display, Formatter};
use std::fs::OpenOptions;
use std::io::ErrorKind;
use std::{fmt, fs, io};

const NO_MEMORY: &str = "there is not enough memory; end other programs, or use a larger computer";

const DENIED: &str = "you may not read and write it, or its folder; ls -l shows who may";

const IN_USE: &str = "another program has it open; end that, or ask the bureau over HTTP";

const JOURNAL: &str = "another program left a journal beside it; open it once with sqlite3, which \
                       plays that back";

const HEADLESS: &str =
    "its log (-wal) has no header: it was being emptied, or is damaged; first copy \
                        both files; bureau migrate then empties it";

const TORN: &str = "its log (-wal) ends in a commit that is not whole: the power went, or it is \
                    damaged; first copy both files; bureau migrate then drops it";

const UNSEEN: &str = "it could not be read or written: its disk is full, fails, or may not be \
                      written to; df and ls -ld show the first and the last";

const FOREIGN: &str = "this is a database, and no bureau's of this version or an earlier one; a \
                       later version of this program may have made it";

/// What hinders the use of the file at a path as a bureau's, as far as a look can tell. Its
/// `Display` says it in words, with the way out, and is to stand behind the path.
#[derive(Drop)]
pub enum Hindrance {
    /// There is no memory.
    NoMemory,
    /// There is nothing at the path.
    Missing,
    /// A folder is at the path.
    Folder,
    /// A device or a pipe is at the path.
    NoFile,
    /// The file, its log or its folder may not be read and written.
    Denied,
    /// The file lies on a disk that is only read.
    ReadOnly,
    /// Another program has the file open.
    InUse,
    /// Another program left a journal beside the file, which only it can play back.
    Journal,
    /// The log is damaged.
    Log(DamagedLog<File>),
    /// The log has bytes and no header.
    Headless,
    /// The log ends in a commit that is not whole.
    Torn,
    /// A file could not be read or written, and no look tells why.
    Unseen,
    /// The file has no bytes.
    Empty,
    /// The file does not begin as a database does.
    NoDatabase,
    /// The file is a database, and no bureau's that is known here.
    Foreign,
    /// The file is of this earlier version.
    Old(u32),
}

/// What hinders where a file cannot be reached for this error.
fn hindrance_by(error: &io::Error) -> Hindrance
    ensures { IsOfUnusedFile result }
{
    match error.kind() {
        ErrorKind::NotFound | ErrorKind::NotADirectory => Hindrance::Missing,
        ErrorKind::PermissionDenied => Hindrance::Denied,
        ErrorKind::ReadOnlyFilesystem => Hindrance::ReadOnly,
        _ => Hindrance::Unseen,
    }
}

/// What hinders where a file and its log could not be opened for this error.
fn hindrance_of_opening(error: &OpenError) -> Hindrance
    ensures { IsOfUnusedFile result }
{
    match error {
        OpenError::Busy => Hindrance::InUse,
        OpenError::HotJournal => Hindrance::Journal,
        OpenError::Io(error) => hindrance_by(error),
        OpenError::OutOfMemory => Hindrance::Unseen,
    }
}

/// Whether there is a journal of another program beside a file.
fn has_journal(rt: &HostRuntime, path: &str) -> bool {
    match beside(rt, path, "-journal") {
        Ok(name) => fs::symlink_metadata(rt, name.as_str()).is_ok(),
        Err(_) => false,
    }
}

/// What hinders the use of a file with its log. Nothing is written: both are there.
fn hindrance_of_log(rt: &HostRuntime, place: &Place) -> Hindrance
    ensures { IsOfUnusedFile result }
{
    let files = match sqlite_std_file::open(rt, &place.file, Unknown) {
        Ok(files) => files,
        Err(error) => return hindrance_of_opening(&error),
    };
    match DamagedLog::find(rt.alloc(), files) {
        Some(log) => Hindrance::Log(log),
        None if place.has_headless_log(rt) => Hindrance::Headless,
        None if place.has_torn_log(rt) => Hindrance::Torn,
        None => Hindrance::Unseen,
    }
}

/// What hinders the use of a file that may be read and written.
fn hindrance_of_place(rt: &HostRuntime, path: &str) -> Hindrance
    ensures { IsOfUnusedFile result }
{
    let Ok(place) = Place::find(rt, path) else {
        return Hindrance::Denied;
    };
    if place.log_length(rt).is_some() {
        return hindrance_of_log(rt, &place);
    }
    if has_journal(rt, &place.file) {
        return Hindrance::Journal;
    }
    Hindrance::Unseen
}

/// What hinders the use of a file.
fn hindrance_of_file(rt: &HostRuntime, path: &str) -> Hindrance
    ensures { IsOfUnusedFile result }
{
    match OpenOptions::new().read(true).write(true).open(rt, path) {
        Ok(_) => hindrance_of_place(rt, path),
        Err(error) => hindrance_by(&error),
    }
}

/// What hinders the use of what is at a path.
fn hindrance_at(rt: &HostRuntime, path: &str) -> Hindrance
    ensures { IsOfUnusedFile result }
{
    match fs::metadata(rt, path) {
        Ok(found) if found.is_file() => hindrance_of_file(rt, path),
        Ok(found) if found.is_dir() => Hindrance::Folder,
        Ok(_) => Hindrance::NoFile,
        Err(error) => hindrance_by(&error),
    }
}

/// What a file is that is no bureau's, by its first bytes.
fn foreign_at(rt: &HostRuntime, path: &str) -> Hindrance
    ensures { IsOfForeignFile result }
{
    match fs::metadata(rt, path) {
        Ok(found) if found.len() == 0 => Hindrance::Empty,
        _ if look(rt, path).is_ok() => Hindrance::Foreign,
        _ => Hindrance::NoDatabase,
    }
}

/// What hinders the use of the file at a path as a bureau's, which failed with this fault. Nothing
/// is written.
pub fn find_hindrance(rt: &HostRuntime, path: &str, fault: OpenFault) -> Hindrance
    ensures { IsHindranceOf fault result }
{
    match fault {
        OpenFault::NoMemory => Hindrance::NoMemory,
        OpenFault::Store => hindrance_at(rt, path),
        OpenFault::NotABureau => foreign_at(rt, path),
        OpenFault::Old(version) => Hindrance::Old(version),
    }
}

/// Writes what of a log is damaged, and what to do first.
fn write_damage<W: fmt::Write>(formatter: &mut Formatter<W>, damage: Damage) -> fmt::Result {
    match damage {
        Damage::Header => formatter.write_str("its log (-wal) is damaged in its header")?,
        Damage::Commit { sound, frames } => {
            let first = sound.saturating_add(1);
            write!(
                formatter,
                "its log (-wal) is damaged in the commit from frame {first} of {frames}"
            )?;
        }
    }
    formatter.write_str("; first copy both files")
}

/// Writes of which version a file is, and the way out.
fn write_old<W: fmt::Write>(formatter: &mut Formatter<W>, version: u32) -> fmt::Result {
    write!(
        formatter,
        "it is of version {version}, and this program's files are of version {VERSION}; copy it, \
         and then bureau migrate raises it"
    )
}

impl Display for Hindrance {
    fn fmt<W: fmt::Write>(&self, formatter: &mut Formatter<W>) -> fmt::Result {
        formatter.write_str(match self {
            Hindrance::NoMemory => NO_MEMORY,
            Hindrance::Missing => "there is no such file; bureau init makes a new one",
            Hindrance::Folder => "this is a folder; name a bureau's file",
            Hindrance::NoFile => "this is a device or a pipe; name a bureau's file",
            Hindrance::Denied => DENIED,
            Hindrance::ReadOnly => "its disk is mounted to be read only; copy it to another one",
            Hindrance::InUse => IN_USE,
            Hindrance::Journal => JOURNAL,
            Hindrance::Headless => HEADLESS,
            Hindrance::Torn => TORN,
            Hindrance::Unseen => UNSEEN,
            Hindrance::Empty => "this file is empty; remove it, and bureau init makes a new one",
            Hindrance::NoDatabase => "this is no bureau's file; bureau init makes one",
            Hindrance::Foreign => FOREIGN,
            Hindrance::Log(log) => return write_damage(formatter, log.damage()),
            Hindrance::Old(version) => return write_old(formatter, *version),
        })
    }
}
