//! Why no request was read.

use std::alloc::AllocError;

/// Why no request was read.
#[derive(Clone, Copy, Debug, PartialEq, Eq)]
pub enum RequestFault {
    /// There was no memory for the request.
    NoMemory,
    /// The reader failed before the request ended.
    ReadFailed,
}

impl From<AllocError> for RequestFault {
    ghost use Rattle.std.specs.Prelude.{◌≡◌};
    ghost use Rattle.http_messages.specs.declared.fault.RequestFault.TheVariants.{NoMemory};

    ghost from_gives = { λ _ fault. fault ≡ NoMemory };

    fn from(_: AllocError) -> RequestFault {
        RequestFault::NoMemory
    }
}
