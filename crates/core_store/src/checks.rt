//! The checks that stop the machine.

ghost use Rattle.std.specs.Prelude.{◌≡◌};
ghost use Rattle.core_store.specs.Checks.{check_name};

/// Why the machine stops during an instruction.
#[derive(Clone, Copy, Debug, PartialEq, Eq)]
pub enum Check {
    /// An address that cannot be read or is outside the storage, or a field that would pass
    /// position 000.
    Address,
    /// There is no instruction of the machine at register I.
    Instruction,
    /// A character without a numeric value in arithmetic.
    Data,
    /// Operands that would overwrite each other.
    Overlap,
    /// No card is left to read.
    ReaderEmpty,
    /// The punch has made its greatest number of cards.
    PunchFull,
    /// The printer has made its greatest number of lines or forms.
    PrinterFull,
}

impl Check {
    /// The check's name, as reports and replies print it.
    pub fn name(self) -> &'static str
        ensures { result.now ≡ check_name self }
    {
        match self {
            Check::Address => "ADDRESS",
            Check::Instruction => "INSTRUCTION",
            Check::Data => "DATA",
            Check::Overlap => "OVERLAP",
            Check::ReaderEmpty => "READER EMPTY",
            Check::PunchFull => "PUNCH FULL",
            Check::PrinterFull => "PRINTER FULL",
        }
    }
}
