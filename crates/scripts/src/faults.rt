//! Why bytes are not a script.

ghost use Rattle.std.specs.Prelude.{◌≡◌};
ghost use Rattle.scripts.specs.declared.faults.ScriptFault.TheVariants.{NoMemory};

use std::alloc::AllocError;

/// Why bytes are not a script. None of their commands is applied.
#[derive(Clone, Copy, Debug, PartialEq, Eq)]
pub enum ScriptFault {
    /// The number, from 1, of the first line that is not part of a command.
    BadLine(usize),
    /// There are more than 4,000,000 bytes.
    TooLong,
    /// There is no memory for the commands.
    NoMemory,
}

impl From<AllocError> for ScriptFault {
    ghost from_gives = { λ _ fault. fault ≡ NoMemory };

    fn from(_error: AllocError) -> Self {
        ScriptFault::NoMemory
    }
}
