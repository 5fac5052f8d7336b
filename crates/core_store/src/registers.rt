//! The registers.

ghost use Rattle.std.specs.Prelude.{◌≡◌, ◌<◌, ◌≤◌};
ghost use Rattle.core_store.specs.{Storage.{largest_size}, Operands.{lowered, lowered_by}};

use crate::LARGEST_SIZE;

/// The result of the last comparison: the second operand, B, compared with the first, A.
#[derive(Clone, Copy, Debug, PartialEq, Eq)]
pub enum Compared {
    Equal,
    Low,
    High,
}

/// The address registers, each a number modulo 16000, and the two indicators of arithmetic.
#[derive(Clone, Copy, Debug, PartialEq, Eq)]
pub struct Registers {
    /// The position of the next instruction.
    pub i: u16,
    /// The position of the first operand.
    pub a: u16,
    /// The position of the second operand.
    pub b: u16,
    /// The result of the last comparison.
    pub compare: Compared,
    /// Whether a sum was too long for its field since the last test of this indicator.
    pub overflow: bool,
}

/// A register lowered by `count` positions, modulo 16000.
#[inline(always)]
pub fn lower(register: u16, count: u16) -> u16
    requires register { register < largest_size }
    requires count { count ≤ largest_size }
    ensures { result ≡ lowered register count }
{
    if register >= count {
        register - count
    } else {
        register + LARGEST_SIZE - count
    }
}

impl Registers {
    /// Lowers A and B by the number of characters processed at each.
    #[inline(always)]
    pub fn lower(&mut self, a_count: u16, b_count: u16)
        requires a { self.old.a < largest_size }
        requires b { self.old.b < largest_size }
        requires a_count { a_count ≤ largest_size }
        requires b_count { b_count ≤ largest_size }
        ensures { self.new ≡ lowered_by self.old a_count b_count }
    {
        self.a = lower(self.a, a_count);
        self.b = lower(self.b, b_count);
    }

    /// Sets A and B to the positions before so many characters that end at `a` and at `b`.
    #[inline(always)]
    pub fn pass(&mut self, a: u16, a_count: u16, b: u16, b_count: u16)
        requires a { a < largest_size }
        requires b { b < largest_size }
        requires a_count { a_count ≤ a }
        requires b_count { b_count ≤ b }
        ensures { self.new ≡ lowered_by (record self.old { a = a; b = b }) a_count b_count }
    {
        self.a = a - a_count;
        self.b = b - b_count;
    }
}
