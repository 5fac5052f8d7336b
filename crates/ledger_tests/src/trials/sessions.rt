//! Sessions: stages in turn, over the connection to a bureau's tables.

use crate::trials::stages::after;
use machine::Meter;
use sqlite::{Alter, Connection};
use std::alloc::Global;
use std::io::Write;
use std::test::Fail;

/// A session: the meter of its commands, what its stages told, and whether the store failed.
#[derive(Drop)]
pub(crate) struct Session {
    pub(crate) meter: Meter,
    pub(crate) told: Vec<u8>,
    has_failed: bool,
}

impl Session {
    /// A session that has not begun.
    pub(crate) fn new(alloc: Global) -> Session {
        Session {
            meter: Meter::new(),
            told: Vec::new(alloc),
            has_failed: false,
        }
    }

    /// Tells a fault. The session ends with fault 2.
    pub(crate) fn tell_fault(&mut self, number: u8) -> Result<(), Fail> {
        self.has_failed = number == 2;
        Ok(write!(&mut self.told, "fault {number}\n")?)
    }

    /// The store of a connection after stages, which `#` parts.
    pub(crate) fn over<S: Alter + Drop>(
        &mut self,
        alloc: Global,
        conn: Connection<S>,
        stages: &str,
    ) -> Result<S, Fail> {
        let mut conn = conn;
        for stage in stages.split_terminator('#') {
            if !self.has_failed {
                conn = after(alloc, conn, stage, self)?;
            }
        }
        Ok(conn.into_store())
    }
}
