//! An instruction as it is carried out.

use bcd::Code;

/// An instruction, by its characters and the positions at which it works. Without an address in
/// the instruction, these are the registers as they are. What its characters name is a `Decoded`.
#[derive(Clone, Copy)]
pub struct Instruction {
    /// The first character, which names the operation.
    pub first: Code,
    /// The last character.
    pub last: Code,
    /// The number of characters.
    pub length: u16,
    pub a: u16,
    pub b: u16,
}
