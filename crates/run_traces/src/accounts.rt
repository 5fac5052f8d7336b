//! What is told of a run.

use machine::StandingAt;

/// What is told of a run, and how it ended.
#[derive(Drop)]
pub struct Account {
    /// The text.
    pub text: Vec<u8>,
    /// The standing of the machine at the end of the run.
    pub standing: StandingAt,
}
