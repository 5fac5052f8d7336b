//! The meter of attempted instructions.

ghost use Rattle.std.specs.Prelude.{◌≡◌};
ghost use Rattle.machine.specs.Run.{risen};

use std::marker::Model;

/// A 64-bit count of attempted instructions that stays at its greatest value.
#[derive(Drop)]
pub struct Meter {
    ticks: u64,
}

impl Model for Meter {
    ghost use Rattle.std.specs.Prelude.{ℕ};

    ghost Value = { ℕ };

    ghost view = { λ m. m.ticks };
}

impl Meter {
    /// Returns a meter at 0.
    pub fn new() -> Self
        ensures { result ≡ 0 }
    {
        Meter { ticks: 0 }
    }

    /// The number of attempted instructions.
    pub fn ticks(&self) -> u64
        ensures { result ≡ self.now }
    {
        let Meter { ticks } = self;
        *ticks
    }

    /// Counts so many more instructions.
    pub(crate) fn advance(&mut self, count: u32)
        ensures { self.new ≡ risen self.old count }
    {
        self.ticks = self.ticks.saturating_add(u64::from(count));
    }
}
