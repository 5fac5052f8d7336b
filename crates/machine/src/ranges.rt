//! The range of a machine's picture, and the test of it.
//!
//! The picture of every machine is in range, and every picture in range is the picture of some
//! machine.

ghost use Rattle.std.specs.Prelude.{◌↔◌, IsTrue};
ghost use Rattle.machine.specs.Ranges.{IsInRange, AreAddresses, HasSize};

use crate::parts::Parts;
use core_store::{Core, LARGEST_SIZE, Registers, Size};

/// Whether the registers hold addresses.
fn are_addresses(registers: &Registers) -> bool
    ensures { IsTrue result ↔ AreAddresses registers.now }
{
    registers.i < LARGEST_SIZE && registers.a < LARGEST_SIZE && registers.b < LARGEST_SIZE
}

impl<C: Core> Parts<C> {
    /// Whether the storage has one of the sizes.
    fn has_size(&self) -> bool
        ensures { IsTrue result ↔ HasSize self.now.works.storage }
    {
        Size::of_positions(u32::from(self.core.size())).is_some()
    }

    /// Whether this picture is in range.
    pub fn is_in_range(&self) -> bool
        ensures { IsTrue result ↔ IsInRange self.now }
    {
        self.has_size() && are_addresses(&self.registers) && self.units.is_in_range()
    }
}
