//! Readers and writers that give and take little, or fail.

use counter::Status;
use std::io;
use std::io::{ErrorKind, Read, Write};

/// A reader that gives one byte a call, and after the last one ends or fails.
#[derive(Drop)]
pub(crate) struct Dripping<'a> {
    pub(crate) rest: &'a [u8],
    pub(crate) fails: bool,
}

impl Dripping<'_> {
    /// Returns a reader that gives one byte, and then fails.
    pub(crate) fn torn() -> Dripping<'static> {
        Dripping {
            rest: b",",
            fails: true,
        }
    }
}

impl Read for Dripping<'_> {
    fn read(&mut self, buf: &mut [u8]) -> io::Result<usize> {
        let Some((byte, rest)) = self.rest.split_first() else {
            return if self.fails {
                Err(io::Error::from(ErrorKind::TimedOut))
            } else {
                Ok(0)
            };
        };
        let Some(place) = buf.first_mut() else {
            return Ok(0);
        };
        *place = *byte;
        self.rest = rest;
        Ok(1)
    }
}

/// A writer that takes few bytes a call. When it has no room left, it takes none, or fails.
#[derive(Drop)]
pub(crate) struct Narrow {
    pub(crate) taken: Vec<u8>,
    /// The number of bytes that it takes a call, at most.
    pub(crate) most: usize,
    pub(crate) room: usize,
    pub(crate) fails: bool,
}

impl Write for Narrow {
    fn write(&mut self, buf: &[u8]) -> io::Result<usize> {
        let count = buf.len().min(self.room).min(self.most);
        if count == 0 && self.fails {
            return Err(io::Error::from(ErrorKind::BrokenPipe));
        }
        if self.taken.extend_from_slice(&buf[..count]).is_err() {
            return Err(io::Error::from(ErrorKind::OutOfMemory));
        }
        self.room -= count;
        Ok(count)
    }

    fn flush(&mut self) -> io::Result<()> {
        Ok(())
    }
}

/// A writer that takes some bytes, and then none, and fails if it is flushed.
#[derive(Drop)]
pub(crate) struct Full {
    /// The number of bytes that it still takes.
    pub(crate) room: usize,
}

impl Write for Full {
    fn write(&mut self, buf: &[u8]) -> io::Result<usize> {
        let taken = buf.len().min(self.room);
        self.room -= taken;
        Ok(taken)
    }

    fn flush(&mut self) -> io::Result<()> {
        Err(io::Error::from(ErrorKind::StorageFull))
    }
}

/// Whether a call ends with status 1 and wrote only that a device failed.
pub(crate) fn is_device_fault(status: Status, errors: &[u8]) -> bool {
    status == Status::NotDone && errors == b"fault device\n".as_slice()
}
