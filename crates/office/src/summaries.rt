//! The summary of a job.

use machine::StandingAt;

/// The summary of a job: its standing, its counts and its flags.
#[derive(Clone, Copy, Debug, PartialEq, Eq)]
pub struct Summary {
    pub standing: StandingAt,
    pub held: bool,
    pub collected: bool,
    /// The number of instructions granted, over all stretches.
    pub granted: u32,
    /// The number of cards punched, in all.
    pub cards: u32,
    /// The number of lines printed, in all.
    pub lines: u32,
}
