//! A bureau's disks, kept in memory, of which one fails after some calls.
//!
//! The proof of a function that names a store in files takes many times as long as that of one over
//! any store. `session_over` alone names one, and makes one call over it.

ghost use Rattle.std.specs.Prelude.{IsTrue, IfOk};
ghost use Rattle.sqlite_disk.specs.Memory.{memory_is_usable};

use crate::trials::sessions::Session;
use sqlite::{Connection, Files, Options};
use sqlite_disk::{Disk, Fuse, Memory};
use std::alloc::Global;
use std::test::Fail;

/// A copy of a disk.
fn copy(alloc: Global, disk: &Memory) -> Result<Memory, Fail>
    ensures { IfOk result (λ copy. IsTrue (memory_is_usable copy)) }
{
    let mut copy = Memory::new(alloc);
    copy.write_at(0, disk.bytes())?;
    Ok(copy)
}

/// Disks without a bureau.
pub(crate) fn empty_disks(alloc: Global) -> Files<Memory> {
    Files {
        log: Memory::new(alloc),
        db: Memory::new(alloc),
    }
}

/// The number of calls of each disk that do not fail.
#[derive(Clone, Copy)]
pub(crate) struct Calls {
    log: u64,
    db: u64,
}

/// No call fails.
pub(crate) const ALL: Calls = Calls {
    log: u64::MAX,
    db: u64::MAX,
};

/// The disk that fails.
#[derive(Clone, Copy)]
pub(crate) enum Failing {
    Log,
    Database,
}

impl Failing {
    /// This disk fails after `calls` calls, the other one never.
    pub(crate) fn after(self, calls: u64) -> Calls {
        match self {
            Failing::Log => Calls { log: calls, ..ALL },
            Failing::Database => Calls { db: calls, ..ALL },
        }
    }
}

/// What a session told, the ticks of its commands, and the disks after it.
#[derive(Drop)]
pub(crate) struct Ended {
    pub(crate) told: String,
    pub(crate) ticks: u64,
    pub(crate) disks: Files<Memory>,
}

/// The end of a session that left these disks.
fn end_of(alloc: Global, session: &Session, files: &Files<Fuse<Memory>>) -> Result<Ended, Fail> {
    let told = str::from_utf8(&session.told).ok().ok_or("a text")?;
    let told = told.replace(alloc, "\n", "/")?;
    let log = copy(alloc, files.log.inner())?;
    let db = copy(alloc, files.db.inner())?;
    Ok(Ended {
        told,
        ticks: session.meter.ticks(),
        disks: Files { log, db },
    })
}

/// The end of a session of these stages over copies of disks that fail after these numbers of
/// calls. Disks that cannot be opened tell nothing. The log is often copied into the database file.
pub(crate) fn session_over(
    alloc: Global,
    disks: &Files<Memory>,
    calls: Calls,
    stages: &str,
) -> Result<Ended, Fail> {
    let files = Files {
        log: Fuse::new(copy(alloc, &disks.log)?, calls.log),
        db: Fuse::new(copy(alloc, &disks.db)?, calls.db),
    };
    let mut options = Options::new(1);
    options.checkpoint_frames = 3;
    let mut session = Session::new(alloc);
    let files = match Connection::open_files(alloc, files, options) {
        Ok(conn) => session.over(alloc, conn, stages)?.close(),
        Err((_, left)) => left.into_files(),
    };
    end_of(alloc, &session, &files)
}

/// What stages tell over copies of disks that do not fail.
pub(crate) fn told_on(alloc: Global, disks: &Files<Memory>, stages: &str) -> Result<String, Fail> {
    let Ended { told, .. } = session_over(alloc, disks, ALL, stages)?;
    Ok(told)
}

/// The disks after stages over copies of disks that do not fail, if the stages tell just this.
pub(crate) fn disks_after(
    alloc: Global,
    disks: &Files<Memory>,
    stages: &str,
    wanted: &str,
) -> Result<Files<Memory>, Fail> {
    let Ended { told, disks, .. } = session_over(alloc, disks, ALL, stages)?;
    if told.as_str() != wanted {
        return Err("another reply")?;
    }
    Ok(disks)
}
