//! Why a new file is not made of a bureau's.

use crate::places::fault_of;
use ledger_tables::OpenFault;
use std::io;
use std::io::ErrorKind;

/// Why a new file is not made of a bureau's file, or of two.
pub enum CopyFault {
    /// The file, or the first of two, cannot be opened as a bureau's.
    File(OpenFault),
    /// The second file cannot be opened as a bureau's.
    Second(OpenFault),
    /// The two files are one.
    OneFile,
    /// The name of the new file is that of another file's log.
    Name,
    /// There is something at the path of the new file, or a log or a journal beside it.
    Taken,
    /// The new file cannot be made.
    Copy(OpenFault),
    /// The disk of the new file knows no hard links, by which it would get its name.
    Linkless,
    /// The new file was not filled: what was to fill it has kept why not.
    NotFilled,
    /// The new file was made, and does not open as a bureau's.
    Unread(OpenFault),
    /// The new file was not found to be what it should be.
    NotSame,
}

impl CopyFault {
    /// The fault of an error while the new file is made.
    pub fn of(error: &io::Error) -> CopyFault {
        CopyFault::Copy(fault_of(error))
    }

    /// The fault of an error where the new file gets its name by a hard link.
    pub fn of_link(error: &io::Error) -> CopyFault {
        match error.kind() {
            ErrorKind::AlreadyExists => CopyFault::Taken,
            ErrorKind::PermissionDenied | ErrorKind::Unsupported => CopyFault::Linkless,
            _ => CopyFault::of(error),
        }
    }
}
