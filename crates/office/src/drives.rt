//! Commands that drive the machine of a job.

ghost use Rattle.std.specs.Prelude.{◌≡◌};
ghost use Rattle.office.specs.Kept.{drive_command};

use crate::commands::JobCommand;
use units::Switches;

/// A command on one job that drives its machine.
#[derive(Clone, Copy)]
pub enum Drive {
    /// As [`JobCommand::Slice`].
    Slice { limit: u32 },
    /// As [`JobCommand::Start`].
    Start { switches: Switches },
}

impl Drive {
    /// The same as a command on a job.
    pub fn command(self) -> JobCommand
        ensures { result ≡ drive_command self }
    {
        match self {
            Drive::Slice { limit } => JobCommand::Slice { limit },
            Drive::Start { switches } => JobCommand::Start { switches },
        }
    }
}
