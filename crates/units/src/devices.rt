//! Which units work in one operation.

ghost use Rattle.std.specs.Prelude.{◌≡◌, ⊤, [], ◌∷◌, codes};

use bitflags::{Flag, Flags, bitflag_items};

/// A set of units that work together in one operation. The operations `1` to `7` name it by a sum.
#[derive(Clone, Copy, PartialEq, Eq, Debug)]
pub struct Devices(u8);

bitflag_items! {
    impl Devices: u8 {
        const READER = 1;
        const PRINTER = 2;
        const PUNCH = 4;
    }
}

impl Flags for Devices {
    type Bits = u8;

    ghost exact = { ⊤ };

    ghost table = { (codes "READER", 1) ∷ (codes "PRINTER", 2) ∷ (codes "PUNCH", 4) ∷ [] };

    ghost set_of = { λ d. d.0 };

    fn flags<'a>() -> &'a [Flag<Devices>] {
        Devices::FLAGS
    }

    fn bits(&self) -> u8 {
        self.0
    }

    fn from_bits_retain(bits: u8) -> Devices {
        Devices(bits)
    }
}

impl Devices {
    /// The units of a sum, 1 to 7, which is the character of the operation: the reader is 1, the
    /// printer 2, the punch 4.
    #[inline(always)]
    pub fn of_sum(sum: u8) -> Devices
        ensures { result ≡ record { 0 = sum } }
    {
        Devices(sum)
    }
}
