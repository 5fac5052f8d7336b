//! What is wrong with a card of a source.

ghost use Rattle.std.specs.Prelude.{◌≡◌};
ghost use Rattle.autocoder_layout.specs.Faults.{fault_number};

use autocoder_statements::StatementFault;

/// Why a source has no image.
#[derive(Clone, Copy)]
pub enum SourceFault {
    /// There was no memory for the work.
    NoMemory,
    /// The card cannot be read.
    Statement(StatementFault),
    /// An earlier card defines the label.
    TakenLabel,
    /// A name that no card defines, or that no earlier card defines if only these count.
    UnknownName,
    /// An address or a position that is not in storage.
    Outside,
    /// A filled position of the card that loads the program.
    Reserved,
    /// A position that an earlier card fills.
    Filled,
    /// The source has no end.
    NoEnd,
}

impl SourceFault {
    /// The number that is printed for the fault.
    pub fn number(self) -> u8
        ensures { result ≡ fault_number self }
    {
        match self {
            SourceFault::NoMemory => 1,
            SourceFault::Statement(fault) => fault.number(),
            SourceFault::TakenLabel => 44,
            SourceFault::UnknownName => 45,
            SourceFault::Outside => 46,
            SourceFault::Reserved => 47,
            SourceFault::Filled => 48,
            SourceFault::NoEnd => 49,
        }
    }
}
