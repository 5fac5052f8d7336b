//! Why an operation was not carried out.

ghost use Rattle.std.specs.Prelude.{◌≡◌};
ghost use Rattle.units.specs.declared.fault.Fault.TheVariants.{Stopped};

use core_store::Check;

/// Why an operation was not carried out. Nothing was changed.
#[derive(Clone, Copy, Debug, PartialEq, Eq)]
pub enum Fault {
    /// A check of the machine.
    Stopped(Check),
    /// No memory for a line or card that the operation would have made.
    NoMemory,
}

impl From<Check> for Fault {
    ghost from_gives = { λ check fault. fault ≡ Stopped check };

    #[inline(always)]
    fn from(check: Check) -> Self {
        Fault::Stopped(check)
    }
}
