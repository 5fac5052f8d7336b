//! The replies to commands.

use crate::lists::{JobList, Listing, PunchedCards, QueueList};
use crate::refusals::Refusal;
use crate::summaries::Summary;
use machine::StandingAt;

/// The reply to a command.
#[derive(Drop)]
pub enum Reply {
    /// The job was taken, and this number of cards is loaded.
    Taken { cards: u32 },
    /// The job ran: the number of executed instructions, and the standing after them.
    Ran { executed: u32, standing: StandingAt },
    /// The job was started again from its halt.
    Started,
    /// The job is held.
    Held,
    /// The job is no longer held.
    Released,
    /// The job was collected: the numbers of cards and lines that it has made.
    Collected { cards: u32, lines: u32 },
    /// The standing of the job, with its counts and flags.
    Standing(Summary),
    /// The cards that the job has punched, all or those of one pocket.
    Cards(PunchedCards),
    /// The lines that the job has printed.
    Lines(Listing),
    /// A customer's jobs.
    Jobs(JobList),
    /// The jobs that are running and not held.
    Queue(QueueList),
    /// The command was refused.
    Refused(Refusal),
}
