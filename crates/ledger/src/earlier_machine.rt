//! What a machine had before it was driven.

ghost use Rattle.std.specs.Prelude.{IfOk};
ghost use Rattle.machine.specs.Ranges.{IsInRange};
ghost use Rattle.ledger.specs.Saving.{IsEarlier};

use crate::page_saving::copy_of;
use core_store::PlaneCore;
use machine::Parts;
use std::alloc::{AllocError, Global};
use units::Pocket;

/// What a machine had before a command that drives it, of the things whose rows are written only
/// where they have changed.
#[derive(Drop)]
pub struct EarlierMachine {
    /// Its storage.
    pub storage: PlaneCore,
    /// The pocket chosen for its next card.
    pub chosen: Pocket,
}

impl EarlierMachine {
    /// What this machine has now.
    pub fn of(alloc: Global, machine: &Parts<PlaneCore>) -> Result<EarlierMachine, AllocError>
        requires { IsInRange machine.now }
        ensures { IfOk result (λ earlier. IsEarlier earlier machine.now) }
    {
        Ok(EarlierMachine {
            storage: copy_of(alloc, &machine.core)?,
            chosen: machine.units.punch.chosen,
        })
    }
}
