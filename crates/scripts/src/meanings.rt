//! The meaning of a line.

use crate::headings::Heading;
use office::Command;

/// The meaning of a line.
#[derive(Drop)]
pub enum Meaning {
    /// A command that has no cards.
    Command(Command),
    /// A submission; its cards follow.
    Heading(Heading),
    /// Neither. The line is bad.
    Nothing,
}
