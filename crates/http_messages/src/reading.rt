//! Reading the head of a request.

ghost use Rattle.std.specs.{Prelude.{◌≡◌, ◌≤◌, length, take}, Io.KnownBytes.{Consumes, IsAtEnd}};
ghost use Rattle.http_messages.specs.Reading.{ComesTo, IsSoFar};

use httparse::spans::{HeaderSpan, RequestSpans, parse_request};
use httparse::{Error, Status};
use std::io::Read;

/// How the reading of a head ended.
#[derive(Drop)]
pub(crate) enum Outcome {
    /// The bytes begin with a head.
    Whole(RequestSpans),
    /// The bytes are not the beginning of any head.
    NoHead,
    /// The bytes begin with a start line and more header fields than a head may have.
    TooManyFields,
    /// The bytes are as many as a head may have, and no head ends in them, though one may end after
    /// them.
    TooLong,
    /// The reader ended before a head did.
    Ended,
    /// The reader failed.
    Failed,
}

/// The number of bytes read, and how the reading ended.
#[derive(Drop)]
pub(crate) struct HeadRead {
    pub(crate) filled: usize,
    pub(crate) outcome: Outcome,
}

/// The outcome for the first bytes of a buffer, or `None` while a head may still end after them.
fn outcome_of(bytes: &[u8], fields: &mut [HeaderSpan]) -> Option<Outcome>
    requires room { length fields.old ≡ 64 }
    ensures room { length fields.new ≡ 64 }
    ensures outcome { IsSoFar bytes.now fields.new result }
{
    match parse_request(bytes, fields) {
        Ok(Status::Complete(spans)) => Some(Outcome::Whole(spans)),
        Ok(Status::Partial) => None,
        Err(Error::TooManyHeaders) => Some(Outcome::TooManyFields),
        Err(_) => Some(Outcome::NoHead),
    }
}

/// Reads until a head is whole, is refused, fills the buffer, or the reader ends or fails.
pub(crate) fn read_head<R: Read>(
    reader: &mut R,
    buffer: &mut [u8],
    fields: &mut [HeaderSpan],
) -> HeadRead
    requires room { length fields.old ≡ 64 }
    ensures within { result.filled ≤ length buffer.new }
    ensures sizes { (length buffer.new ≡ length buffer.old) × (length fields.new ≡ 64) }
    ensures consumed { Consumes (R.remaining reader.old) (R.remaining reader.new)
        (take result.filled buffer.new) }
    ensures outcome { ComesTo (take result.filled buffer.new) fields.new (length buffer.old)
        (IsAtEnd (R.remaining reader.new)) result.outcome }
{
    let mut filled = 0usize;
    loop {
        if let Some(outcome) = outcome_of(&buffer[..filled], fields) {
            return HeadRead { filled, outcome };
        }
        if filled == buffer.len() {
            let outcome = Outcome::TooLong;
            return HeadRead { filled, outcome };
        }
        match reader.read(&mut buffer[filled..]) {
            Ok(0) => {
                let outcome = Outcome::Ended;
                return HeadRead { filled, outcome };
            }
            Ok(count) => filled += count,
            Err(_) => {
                let outcome = Outcome::Failed;
                return HeadRead { filled, outcome };
            }
        }
    }
}
