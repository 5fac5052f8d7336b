//! Reading up to a limit.

ghost use Rattle.std.specs.Prelude.{IfOk};
ghost use Rattle.texts.specs.Reading.{IsReadUpTo};

use std::alloc::Global;
use std::io;
use std::io::Read;

/// Reads a reader to its end, or up to so many bytes. Fails if the reader fails, or with
/// [`OutOfMemory`](std::io::ErrorKind::OutOfMemory) if there is no memory.
pub fn read_up_to<R: Read + Drop>(alloc: Global, reader: R, most: u64) -> io::Result<Vec<u8>>
    ensures { IfOk result (λ bytes. IsReadUpTo most (R.remaining reader) bytes.items) }
{
    let mut bytes = Vec::new(alloc);
    reader.take(most).read_to_end(&mut bytes)?;
    Ok(bytes)
}
