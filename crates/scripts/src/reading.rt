//! Reading the bytes of a script.

ghost use Rattle.std.specs.Prelude.{IfOk};
ghost use Rattle.scripts.specs.Reading.{IsReadOf};

use std::alloc::Global;
use std::io;
use std::io::{ErrorKind, Read};
use texts::read_up_to;

/// Why the bytes of a script were not read.
#[derive(Clone, Copy, Debug, PartialEq, Eq)]
pub enum ReadFault {
    /// There is no memory for the bytes.
    NoMemory,
    /// The reader failed.
    ReadFailed,
}

/// The fault of a reader that fails with an error.
impl From<io::Error> for ReadFault {
    ghost use Rattle.std.specs.Prelude.{◌≡◌};
    ghost use Rattle.std.specs.IoError.{error_kind};
    ghost use Rattle.scripts.specs.Reading.{read_fault};

    ghost from_gives = { λ error fault. fault ≡ read_fault (error_kind error) };

    fn from(error: io::Error) -> ReadFault {
        match error.kind() {
            ErrorKind::OutOfMemory => ReadFault::NoMemory,
            _ => ReadFault::ReadFailed,
        }
    }
}

/// How many bytes are read at most: those of a script and one more, so that a longer script is
/// noticed.
const MOST_READ: u64 = 4_000_001;

/// Reads a reader to its end, or up to 4,000,001 bytes. Fails if there is no memory or if the
/// reader fails.
pub fn read_script<R: Read + Drop>(alloc: Global, reader: R) -> Result<Vec<u8>, ReadFault>
    ensures { IfOk result (λ bytes. IsReadOf (R.remaining reader) bytes.items) }
{
    Ok(read_up_to(alloc, reader, MOST_READ)?)
}
