//! How the program ends.

ghost use Rattle.std.specs.{Prelude.{◌≡◌, IfOk, IfErr}, Process.{exit_status}};
ghost use Rattle.command_line.specs.Printed.{status_code};

use std::io;
use std::process::ExitCode;

/// How the program ends. Its code is the exit status.
#[derive(Clone, Copy, Debug, PartialEq, Eq)]
pub enum Status {
    /// Everything was done, and a machine that ran is at a halt.
    Done,
    /// A fault or a refusal was printed, or a machine that ran is not at a halt.
    NotDone,
    /// The arguments do not ask for a task.
    Misused,
    /// The bureau's file could not be used.
    Unusable,
}

impl Status {
    /// The exit status.
    pub fn code(self) -> u8
        ensures { result ≡ status_code self }
    {
        match self {
            Status::Done => 0,
            Status::NotDone => 1,
            Status::Misused => 2,
            Status::Unusable => 3,
        }
    }
}

/// The exit status of an outcome. An error is one of [`Unfailing`](crate::Unfailing), which has
/// none.
pub fn exit_code(outcome: io::Result<Status>) -> ExitCode
    ensures ok { IfOk outcome (λ status. exit_status result ≡ status_code status) }
    ensures err { IfErr outcome (λ _. exit_status result ≡ status_code Status.NotDone) }
{
    match outcome {
        Ok(status) => ExitCode::from(status.code()),
        Err(_) => ExitCode::from(Status::NotDone.code()),
    }
}
