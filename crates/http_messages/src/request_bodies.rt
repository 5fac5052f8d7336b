//! The body of a request.

ghost use Rattle.std.specs.Prelude.{◌≡◌, ◌<◌, ◌++◌, length, Ok, Err, IfOk, IfSome};
ghost use Rattle.http_messages.specs.RequestBodies.{IsBodyOf, IsFilled, IsFilledAfter, LosesMissing};

use crate::fault::RequestFault;
use std::alloc::Global;
use std::io::Read;

/// The result of reading to the end of a buffer.
#[derive(Drop)]
enum Filled {
    /// The buffer is full.
    Whole,
    /// The reader ended before the buffer was full.
    Ended,
    /// The reader failed before the buffer was full.
    Failed,
}

/// The result of reading the body of a request.
#[derive(Drop)]
pub enum Body {
    /// All of it was read.
    Whole(Vec<u8>),
    /// The reader ended before the body did.
    Short,
}

/// Reads until a buffer is full, or the reader ends or fails.
fn fill<R: Read>(reader: &mut R, buffer: &mut [u8]) -> Filled
    ensures size { length buffer.new ≡ length buffer.old }
    ensures filled { IsFilled (R.remaining reader.old) (R.remaining reader.new)
        buffer.new result }
{
    let mut filled = 0usize;
    while filled < buffer.len() {
        match reader.read(&mut buffer[filled..]) {
            Ok(0) => return Filled::Ended,
            Ok(count) => filled += count,
            Err(_) => return Filled::Failed,
        }
    }
    Filled::Whole
}

/// Puts these bytes into a buffer that is longer, and reads the rest of it.
fn fill_after<R: Read>(reader: &mut R, buffer: &mut [u8], begun: &[u8]) -> Filled
    requires { length begun.now < length buffer.old }
    ensures size { length buffer.new ≡ length buffer.old }
    ensures filled { IsFilledAfter begun.now (R.remaining reader.old) (R.remaining reader.new)
        buffer.new result }
{
    buffer[..begun.len()].copy_from_slice(begun);
    fill(reader, &mut buffer[begun.len()..])
}

/// The body that was read into a buffer.
fn body_in(bytes: Vec<u8>, filled: Filled) -> Result<Body, RequestFault>
    ensures whole { filled ≡ Filled.Whole → result ≡ Ok (Body.Whole bytes) }
    ensures ended { filled ≡ Filled.Ended → result ≡ Ok Body.Short }
    ensures failed { filled ≡ Filled.Failed → result ≡ Err RequestFault.ReadFailed }
{
    match filled {
        Filled::Whole => Ok(Body::Whole(bytes)),
        Filled::Ended => Ok(Body::Short),
        Filled::Failed => Err(RequestFault::ReadFailed),
    }
}

/// Reads the body of a request, which has `count` bytes; `begun` is the bytes after the head that
/// were already read. It takes no byte after the body from the reader. Fails if there is no memory
/// or if the reader fails.
pub fn read_body<R: Read>(
    alloc: Global,
    reader: &mut R,
    begun: &[u8],
    count: u32,
) -> Result<Body, RequestFault>
    ensures body { IfOk result (λ body. IfSome (R.remaining reader.old)
        (λ rest. IsBodyOf (begun.now ++ rest) count body)) }
    ensures taken { IfOk result (λ body. LosesMissing begun.now count (R.remaining reader.old)
        (R.remaining reader.new) body) }
{
    let count = count as usize;
    let mut bytes = vec![in alloc; 0u8; count]?;
    if begun.len() >= count {
        bytes.as_mut_slice().copy_from_slice(&begun[..count]);
        return Ok(Body::Whole(bytes));
    }
    let filled = fill_after(reader, bytes.as_mut_slice(), begun);
    body_in(bytes, filled)
}
