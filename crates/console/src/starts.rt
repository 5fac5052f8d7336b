//! Starts.

use units::Switches;

/// A start that the operator gave to a machine at a halt.
#[derive(Clone, Copy)]
pub struct Start {
    /// How many instructions were attempted before it.
    pub made: u32,
    /// The switches that were set.
    pub switches: Switches,
}
