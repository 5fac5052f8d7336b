//! The bytes of an answer.

ghost use Rattle.std.specs.Prelude.{◌≡◌};
ghost use Rattle.http_messages.specs.Fixed.{fault_bytes, fault_status};
ghost use Rattle.exchanges.specs.Messages.{bytes_in};

use http::StatusCode;
use http_messages::Fault;

/// The bytes to be written.
#[derive(Drop)]
pub(crate) enum Bytes {
    /// Bytes that are part of the program.
    Fixed(&'static [u8]),
    /// Bytes that were made for this answer.
    Made(Vec<u8>),
}

/// An answer: its status and its bytes.
#[derive(Drop)]
pub(crate) struct Message {
    pub(crate) status: StatusCode,
    pub(crate) bytes: Bytes,
}

impl Bytes {
    /// Returns the bytes.
    pub(crate) fn as_slice(&self) -> &[u8]
        ensures { result.now ≡ bytes_in self.now }
    {
        match self {
            Bytes::Fixed(bytes) => bytes,
            Bytes::Made(bytes) => bytes.as_slice(),
        }
    }
}

/// The answer to a command that met a fault.
pub(crate) fn fault_message(fault: Fault) -> Message
    ensures status { result.status ≡ fault_status fault }
    ensures bytes { bytes_in result.bytes ≡ fault_bytes fault }
{
    Message {
        status: fault.status(),
        bytes: Bytes::Fixed(fault.answer()),
    }
}
