//! Opening the files at a path as a database, unless their log is damaged.

ghost use Rattle.std.specs.Prelude.{◌≡◌, None, IfErr, IfOk, IfSome, IsTrue};
ghost use Rattle.sqlite.specs.{
  Files.{IsOpened, file_state, image_of},
  Recovery.{Image},
  Start.{FindsIn},
  State.{HasCleanDisk},
  WalFiles.{image_at},
};
ghost use Rattle.sqlite_std_file.specs.File.{IsFresh, file_is_usable};
ghost use Rattle.database_files.specs.{
  Connecting.{AreAsFound, IsOutOfReach, IsUnconnected, look_error},
  Damage.{IsDamaged},
};

use crate::damage::find_damage;
use sqlite::{Connection, Error, ErrorCode, FileFrom, FileStore, Files, Leftover, Options, Start};
use sqlite_disk::Disk;
use sqlite_std_file::OpenError;
use std::alloc::Global;
use std::hash::{BuildHasher, RandomState};
use std::io::ErrorKind;

/// The error of a log that is damaged.
const CORRUPT: Error = Error::SqliteFailure(ErrorCode::DatabaseCorrupt);

/// The error of files that cannot be reached.
const CANNOT_OPEN: Error = Error::SqliteFailure(ErrorCode::CannotOpen);

/// The error where there is no memory.
const NO_MEMORY: Error = Error::SqliteFailure(ErrorCode::OutOfMemory);

/// The error of files that could not be reached.
fn reach_error(error: OpenError) -> Error
    ensures { IsOutOfReach result }
{
    match error {
        OpenError::Busy => Error::SqliteFailure(ErrorCode::DatabaseBusy),
        OpenError::OutOfMemory => NO_MEMORY,
        OpenError::Io(error) if error.kind() == ErrorKind::OutOfMemory => NO_MEMORY,
        OpenError::Io(_) | OpenError::HotJournal => CANNOT_OPEN,
    }
}

/// The error where a log could not be looked at.
fn look_error(error: sqlite_wal::Error) -> Error
    ensures { result ≡ look_error error }
{
    match error {
        sqlite_wal::Error::OutOfMemory => NO_MEMORY,
        sqlite_wal::Error::Full => Error::SqliteFailure(ErrorCode::DiskFull),
        _ => Error::SqliteFailure(ErrorCode::SystemIoFailure),
    }
}

/// The settings of the store of a database: its salts are made from a random number.
fn random_options(rt: &HostRuntime) -> Result<Options, Error>
    ensures { IfErr result IsOutOfReach }
{
    match RandomState::new(rt) {
        Ok(state) => Ok(Options::new(state.hash_one(&0u8))),
        Err(_) => Err(CANNOT_OPEN),
    }
}

/// Opens files as a database, unless their log is damaged: then nothing is written.
fn open_sound<D: Disk + Drop>(
    alloc: Global,
    mut files: Files<D>,
    options: Options,
) -> Result<Connection<FileStore<D>>, (Error, Leftover<D>)>
    requires log { IsTrue (D.Disk.is_usable files.log) }
    requires db { IsTrue (D.Disk.is_usable files.db) }
    ensures opened { IfOk result (λ conn. HasCleanDisk (file_state conn) → IsOpened conn) }
    ensures found { IfOk result (λ conn. HasCleanDisk (file_state conn)
        → FindsIn (image_of D.Disk files) (file_state conn)) }
    ensures sound { IfOk result (λ conn. HasCleanDisk (file_state conn)
        → ¬ IsDamaged (image_of D.Disk files).log) }
    ensures cause { IfErr result (λ e. (image : Image) → AreAsFound D.Disk image files
        → IsUnconnected image e.0 e.1) }
{
    match find_damage(alloc, &mut files.log) {
        Ok(None) => Connection::open_files_with(alloc, files, options, false),
        Ok(Some(_)) => Err((CORRUPT, Leftover::Files(files))),
        Err(error) => Err((look_error(error), Leftover::Files(files))),
    }
}

/// Opens the files at a path as a database, unless their log is damaged: then nothing is written.
/// From then on no other program has them. What they held is what `start` says. An error comes with
/// what is left of the files, once they were reached.
pub fn connect<S: Start>(
    rt: &HostRuntime,
    path: &str,
    start: S,
) -> Result<Connection<FileStore<FileFrom<S>>>, (Error, Option<Leftover<FileFrom<S>>>)>
    ensures opened { IfOk result (λ conn. HasCleanDisk (file_state conn) → IsOpened conn) }
    ensures found { IfOk result (λ conn. HasCleanDisk (file_state conn)
        → FindsIn (image_at S.Start) (file_state conn)) }
    ensures sound { IfOk result (λ conn. HasCleanDisk (file_state conn)
        → ¬ IsDamaged (image_at S.Start).log) }
    ensures unreached { IfErr result (λ e. e.1 ≡ None → IsOutOfReach e.0) }
    ensures cause { IfErr result (λ e. IfSome e.1 (IsUnconnected (image_at S.Start) e.0)) }
{
    let files = match sqlite_std_file::open(rt, path, start) {
        Ok(files) => files,
        Err(error) => return Err((reach_error(error), None)),
    };
    let options = match random_options(rt) {
        Ok(options) => options,
        Err(error) => return Err((error, None)),
    };
    match open_sound(rt.alloc(), files, options) {
        Ok(conn) => Ok(conn),
        Err((error, left)) => Err((error, Some(left))),
    }
}
