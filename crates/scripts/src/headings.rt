//! The heading of a submission: its line without its cards.

use office::Kind;
use units::Switches;

/// The heading of a submission.
#[derive(Drop)]
pub struct Heading {
    /// The customer's name.
    pub customer: String,
    /// The number of the job.
    pub number: u32,
    /// The kind of the deck.
    pub kind: Kind,
    /// The number of positions of storage of the machine.
    pub size: u32,
    /// The switches at the first start.
    pub switches: Switches,
    /// The number of cards that follow.
    pub cards: usize,
}
