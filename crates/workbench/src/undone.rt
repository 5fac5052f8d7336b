//! Why a subcommand is not done.

ghost use Rattle.std.specs.Prelude.{◌≡◌};
ghost use Rattle.workbench.specs.declared.undone.Undone.TheVariants.{Memory};

use command_line::Status;
use std::alloc::AllocError;
use std::io;

/// Why a subcommand is not done.
#[derive(Clone, Copy)]
pub(crate) enum Undone {
    /// There is no memory. That is still to be told.
    Memory,
    /// What is wrong was told; the program ends with this status.
    Told(Status),
}

impl From<AllocError> for Undone {
    ghost from_gives = { λ _ undone. undone ≡ Memory };

    fn from(_error: AllocError) -> Undone {
        Undone::Memory
    }
}

/// Nothing but want of memory is an error of a subcommand, since the second output has none.
impl From<io::Error> for Undone {
    ghost from_gives = { λ _ undone. undone ≡ Memory };

    fn from(_error: io::Error) -> Undone {
        Undone::Memory
    }
}
