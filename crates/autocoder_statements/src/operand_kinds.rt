//! What an operand is for.

/// What the address in an operand is for.
#[derive(Clone, Copy, PartialEq, Eq)]
pub enum OperandKind {
    /// The position of the next instruction after a branch. It cannot be a literal.
    Branch,
    /// The position of a field. It may be a literal.
    Field,
}
