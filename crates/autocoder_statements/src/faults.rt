//! What is wrong with a card of a source.

ghost use Rattle.std.specs.Prelude.{◌≡◌};
ghost use Rattle.autocoder_statements.specs.Statements.{fault_number};

/// The lowest fault of a card.
#[derive(Clone, Copy)]
pub enum StatementFault {
    /// There is a character after a blank in the columns of the label or of the operation.
    BrokenField,
    /// The assembler does not know the operation.
    UnknownOperation,
    /// The operand field does not have the form that the operation requires.
    Operand,
    /// The label is not a name, or is missing, or is present on a card that may not have one.
    Label,
}

impl StatementFault {
    /// The number that is printed for the fault.
    pub fn number(self) -> u8
        ensures { result ≡ fault_number self }
    {
        match self {
            StatementFault::BrokenField => 40,
            StatementFault::UnknownOperation => 41,
            StatementFault::Operand => 42,
            StatementFault::Label => 43,
        }
    }
}
