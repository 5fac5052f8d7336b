//! Commands that need the summary of a job alone, and the flags that they set.

ghost use Rattle.std.specs.Prelude.{◌≡◌};
ghost use Rattle.office.specs.Kept.{flag_command, on_flags};

use crate::commands::JobCommand;
use crate::replies::Reply;
use crate::summaries::Summary;

/// The flags of a job after a command, and the reply to the command.
#[derive(Drop)]
pub struct NewFlags {
    pub held: bool,
    pub collected: bool,
    pub reply: Reply,
}

/// A command on one job that needs the job's summary alone, and not its machine.
#[derive(Clone, Copy)]
pub enum FlagCommand {
    /// As [`JobCommand::Hold`].
    Hold,
    /// As [`JobCommand::Release`].
    Release,
    /// As [`JobCommand::Collect`].
    Collect,
    /// As [`JobCommand::Standing`]: it leaves the flags as they are.
    Standing,
}

impl FlagCommand {
    /// The same as a command on a job.
    pub fn command(self) -> JobCommand
        ensures { result ≡ flag_command self }
    {
        match self {
            FlagCommand::Hold => JobCommand::Hold,
            FlagCommand::Release => JobCommand::Release,
            FlagCommand::Collect => JobCommand::Collect,
            FlagCommand::Standing => JobCommand::Standing,
        }
    }

    /// The flags of a job with this summary after the command, if that is not refused, and the
    /// reply.
    pub fn on_flags(self, job: &Summary) -> NewFlags
        ensures { result ≡ on_flags self job.now }
    {
        let (held, collected, reply) = match self {
            FlagCommand::Hold => (true, job.collected, Reply::Held),
            FlagCommand::Release => (false, job.collected, Reply::Released),
            FlagCommand::Collect => {
                let reply = Reply::Collected {
                    cards: job.cards,
                    lines: job.lines,
                };
                (job.held, true, reply)
            }
            FlagCommand::Standing => (job.held, job.collected, Reply::Standing(*job)),
        };
        NewFlags {
            held,
            collected,
            reply,
        }
    }
}
