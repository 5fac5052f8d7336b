//! The exit status after a run.

ghost use Rattle.std.specs.Prelude.{◌≡◌};
ghost use Rattle.local_runs.specs.Statuses.{status_at};

use command_line::Status;
use machine::StandingAt;

/// How the program ends after a run that ended with this standing.
pub fn status_at(standing: StandingAt) -> Status
    ensures { result ≡ status_at standing }
{
    match standing {
        StandingAt::Halted { .. } => Status::Done,
        StandingAt::Running | StandingAt::Checked { .. } => Status::NotDone,
    }
}
