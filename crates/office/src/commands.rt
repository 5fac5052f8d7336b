//! What customers hand in, and the commands to the office.

ghost use Rattle.std.specs.Prelude.{◌≡◌};
ghost use Rattle.office.specs.Kept.{is_query, is_for_free, refused_if, slice_refusal, last_refusal, job_refusal};

use crate::refusals::Refusal;
use crate::stackers::Stacker;
use crate::stretches::MOST_GRANTED;
use crate::summaries::Summary;
use cards::Deck;
use units::Switches;

/// The kind of a deck that is handed in.
#[derive(Clone, Copy, Debug, PartialEq, Eq)]
pub enum Kind {
    /// Cards that load themselves.
    Object,
    /// A source, and data after it.
    Autocoder,
}

impl Kind {
    ghost use Rattle.office.specs.Numbers.{kind_number};

    /// The number of the kind in a job's row: 0 or 1.
    pub fn number(self) -> u32
        ensures { result ≡ kind_number self }
    {
        match self {
            Kind::Object => 0,
            Kind::Autocoder => 1,
        }
    }
}

/// What a customer hands in.
#[derive(Drop)]
pub struct Contents {
    pub kind: Kind,
    /// The number of positions of storage of the machine.
    pub size: u32,
    /// The switches at the first start.
    pub switches: Switches,
    pub deck: Deck,
}

/// A command on one job. The last three are queries, which change nothing.
#[derive(Clone, Copy)]
pub enum JobCommand {
    /// Runs the job for at most `limit` instructions.
    Slice { limit: u32 },
    /// Starts the job again from a halt, with the switches set anew.
    Start { switches: Switches },
    /// Keeps the job from being run or collected.
    Hold,
    /// Ends a hold.
    Release,
    /// Marks the job as collected, and returns the numbers of its cards and lines. After it only
    /// queries are allowed.
    Collect,
    /// The standing of the job.
    Standing,
    /// The cards that the job has punched, all or those of one pocket.
    Cards { from: Stacker },
    /// The lines that the job has printed.
    Lines,
}

/// A command to the bureau. A job is named by its customer and a number.
#[derive(Drop)]
pub enum Command {
    /// Hands in a job.
    Submit {
        customer: String,
        number: u32,
        contents: Contents,
    },
    /// A command on the job of this name.
    Job {
        customer: String,
        number: u32,
        command: JobCommand,
    },
    /// The jobs of a customer, by number.
    Jobs {
        customer: String,
    },
    /// All jobs that are running and not held, by customer and then by number.
    Queue,
}

/// The reason, if the test is true.
fn refused_if(test: bool, reason: Refusal) -> Option<Refusal>
    ensures { result ≡ refused_if test reason }
{
    if test { Some(reason) } else { None }
}

/// Why a slice is refused for a job that is not held.
fn slice_refusal(limit: u32, job: &Summary) -> Option<Refusal>
    ensures { result ≡ slice_refusal limit job.now }
{
    if !job.standing.goes_on() {
        return Some(Refusal::NotRunning);
    }
    let granted = job.granted as u64 + limit as u64;
    refused_if(granted > MOST_GRANTED, Refusal::TooMuch)
}

impl JobCommand {
    /// Whether it is a query.
    pub fn is_query(self) -> bool
        ensures { result ≡ is_query self }
    {
        matches!(
            self,
            JobCommand::Standing | JobCommand::Cards { .. } | JobCommand::Lines
        )
    }

    /// Whether it requires a job that is not held.
    fn is_for_free(self) -> bool
        ensures { result ≡ is_for_free self }
    {
        matches!(
            self,
            JobCommand::Slice { .. } | JobCommand::Start { .. } | JobCommand::Collect
        )
    }

    /// The last tests of a command: those after the test for a hold.
    fn last_refusal(self, job: &Summary) -> Option<Refusal>
        ensures { result ≡ last_refusal self job.now }
    {
        match self {
            JobCommand::Slice { limit } => slice_refusal(limit, job),
            JobCommand::Start { .. } => refused_if(!job.standing.is_at_halt(), Refusal::NotAtHalt),
            JobCommand::Hold => refused_if(job.held, Refusal::AlreadyHeld),
            JobCommand::Release => refused_if(!job.held, Refusal::NotHeld),
            JobCommand::Collect => refused_if(job.standing.goes_on(), Refusal::NotAtHalt),
            JobCommand::Standing => None,
            JobCommand::Cards { .. } => None,
            JobCommand::Lines => None,
        }
    }

    /// Why the command is refused for a job with this summary, if it is.
    pub fn refusal(self, job: &Summary) -> Option<Refusal>
        ensures { result ≡ job_refusal self job.now }
    {
        if self.is_query() {
            return None;
        }
        if job.collected {
            return Some(Refusal::Collected);
        }
        if self.is_for_free() && job.held {
            return Some(Refusal::Held);
        }
        self.last_refusal(job)
    }
}
