//! A bureau's files that were closed.

ghost use Rattle.ledger_files.specs.Closing.{StandWithoutLog};

use sqlite_disk::{Disk, Files};

/// A bureau's file and its log that were closed: everything in the log is in the file too, so the
/// log may be removed. Whoever has this value has both still locked. Nothing else lets the log of a
/// bureau be removed.
#[derive(Drop)]
pub struct Closed<D: Disk> {
    /// The file and its log.
    pub(crate) files: Files<D>,
    ghost without_log: { StandWithoutLog D.Disk files },
}
