//! The sense switches.

ghost use Rattle.std.specs.Prelude.{⊤, [], ◌∷◌, ◌≡◌, ◌↔◌, codes, IsTrue};
ghost use Rattle.units.specs.Switches.{AreSeven, seven};

use bitflags::{Flag, Flags, bitflag_items};

/// The seven sense switches of the console, A to G, each on or off.
#[derive(Clone, Copy, PartialEq, Eq, Debug)]
pub struct Switches(u8);

bitflag_items! {
    impl Switches: u8 {
        const A = 1;
        const B = 2;
        const C = 4;
        const D = 8;
        const E = 16;
        const F = 32;
        const G = 64;
    }
}

impl Flags for Switches {
    type Bits = u8;

    ghost exact = { ⊤ };

    ghost table = { (codes "A", 1) ∷ (codes "B", 2) ∷ (codes "C", 4) ∷ (codes "D", 8)
        ∷ (codes "E", 16) ∷ (codes "F", 32) ∷ (codes "G", 64) ∷ [] };

    ghost set_of = { λ s. s.0 };

    fn flags<'a>() -> &'a [Flag<Switches>] {
        Switches::FLAGS
    }

    fn bits(&self) -> u8 {
        self.0
    }

    fn from_bits_retain(bits: u8) -> Switches {
        Switches(bits)
    }
}

impl Switches {
    /// The same switches without the eighth bit of the byte, which is not a switch.
    pub fn seven(self) -> Switches
        ensures set { result ≡ seven self }
        ensures are { AreSeven result }
    {
        Switches(self.0 % 128)
    }

    /// Whether no bit is on but those of the seven switches.
    pub fn are_seven(self) -> bool
        ensures { IsTrue result ↔ AreSeven self }
    {
        self.0 < 128
    }
}
