//! The words of commands on a job.

ghost use Rattle.std.specs.Prelude.{[], ◌∷◌};
ghost use Rattle.scripts.specs.Commands.{AreFound};

use crate::values::{number_of, switches_of};
use office::JobCommand;

/// The command of a line without a word after the job's number.
pub(crate) fn plain_command(verb: &[u8]) -> Option<JobCommand>
    ensures { AreFound verb.now [] result }
{
    match verb {
        b"hold" => Some(JobCommand::Hold),
        b"release" => Some(JobCommand::Release),
        b"collect" => Some(JobCommand::Collect),
        b"standing" => Some(JobCommand::Standing),
        _ => None,
    }
}

/// The command of a line with one word after the job's number.
pub(crate) fn worded_command(verb: &[u8], word: &[u8]) -> Option<JobCommand>
    ensures { AreFound verb.now (word.now ∷ []) result }
{
    match verb {
        b"slice" => Some(JobCommand::Slice {
            limit: number_of(word),
        }),
        b"start" => match switches_of(word) {
            Some(switches) => Some(JobCommand::Start { switches }),
            None => None,
        },
        _ => None,
    }
}
