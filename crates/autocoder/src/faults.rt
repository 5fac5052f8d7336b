//! The faults of a source.

ghost use Rattle.std.specs.Prelude.{◌≡◌, ◌≢◌, [], IsTrue, IsFalse};
ghost use Rattle.autocoder.specs.Faults.{fault_list};

use autocoder_layout::{CardFault, Layout, SourceFault};

/// A source with faults.
#[derive(Drop)]
pub struct Faulty {
    /// The layout of the source, in which a card with a fault may have its slot all the same.
    pub layout: Layout,
    /// The faults in card order, at most one for each card.
    pub faults: Vec<CardFault>,
}

/// Why a source has no program.
#[derive(Drop)]
pub enum Faults {
    /// The source has faults.
    Source(Faulty),
    /// There was no memory for the work.
    NoMemory,
}

/// The list of faults if there was no memory: fault 1 at card 0.
const NO_MEMORY: [CardFault; 1] = [CardFault {
    card: 0,
    fault: SourceFault::NoMemory,
}];

impl Faults {
    /// The faults in card order, at most one for each card. Without memory it is fault 1 at card 0.
    pub fn list(&self) -> &[CardFault]
        ensures { result.now ≡ fault_list self.now }
    {
        match self {
            Faults::Source(source) => &source.faults,
            Faults::NoMemory => &NO_MEMORY,
        }
    }
}

/// Whether there are faults.
pub(crate) fn has_some(faults: &[CardFault]) -> bool
    ensures some { IsTrue result → faults.now ≢ [] }
    ensures none { IsFalse result → faults.now ≡ [] }
{
    !faults.is_empty()
}
