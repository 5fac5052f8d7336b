//! The parts of a machine.

ghost use Rattle.std.specs.Prelude.{◌≡◌};
ghost use Rattle.machine.specs.{Run.{event_of}, Standings.{standing_of}};

use crate::standings::{Event, Standing, StandingAt};
use core_store::{Core, Registers};
use std::marker::Model;
use units::Units;

/// The picture of a machine: storage, registers, units and standing. Between two calls the picture
/// is the whole state.
#[derive(Drop)]
pub struct Parts<C: Core> {
    pub core: C,
    pub registers: Registers,
    pub units: Units,
    pub standing: Standing,
}

impl<C: Core> Model for Parts<C> {
    ghost use Rattle.std.specs.Prelude.{◌≤◌, length};
    ghost use Rattle.machine.specs.Run.{State};

    ghost Value = { State };

    ghost view = { λ p. record {
      works = record { storage = C.cells p.core; registers = p.registers; units = p.units };
      standing = p.standing;
    } };

    ghost invariant = { λ p. 1400 ≤ length (C.cells p.core) };
}

impl<C: Core> Parts<C> {
    /// The standing of the machine, with its address.
    pub fn standing_at(&self) -> StandingAt
        ensures { result ≡ standing_of self.now }
    {
        StandingAt::new(self.standing, self.registers.i)
    }

    /// What a step returns that has left this standing.
    pub(crate) fn event(&self) -> Event
        ensures { result ≡ event_of self.now.standing }
    {
        self.standing.event()
    }
}
