//! Instructions by their own characters.

ghost use Rattle.std.specs.Prelude.{◌≡◌};
ghost use Rattle.machine.specs.Shapes.{instruction_at};

use crate::instruction::Instruction;
use addresses::Tagged;
use bcd::Code;

/// The addresses of an instruction, as its characters name them.
#[derive(Clone, Copy)]
pub enum Addresses {
    /// None: it works at registers A and B.
    Absent,
    /// A single one, for both operands.
    One(Tagged),
    /// One for each operand.
    Two(Tagged, Tagged),
}

/// What the characters of an instruction say by themselves. At which positions it works may also
/// depend on the registers and on the index locations.
#[derive(Clone, Copy)]
pub struct Shape {
    /// The first character, which names the operation.
    pub first: Code,
    /// The last character.
    pub last: Code,
    /// The number of characters.
    pub length: u16,
    pub addresses: Addresses,
}

impl Shape {
    /// The instruction of this shape that works at these positions.
    #[inline(always)]
    pub fn working_at(&self, a: u16, b: u16) -> Instruction
        ensures { result ≡ instruction_at self.now a b }
    {
        Instruction {
            first: self.first,
            last: self.last,
            length: self.length,
            a,
            b,
        }
    }
}
