//! Whole runs of a deck by itself, outside a bureau.

ghost use Rattle.std.specs.Prelude.{◌≡◌, ◌<◌, length, IfOk};
ghost use Rattle.units.specs.declared.profiles.Profile.TheVariants.{Selecting};
ghost use Rattle.machine.specs.Run.{after, loaded, most_instructions};

use crate::meter::Meter;
use crate::runs::Machine;
use cards::Deck;
use core_store::{PlaneCore, Size};
use std::alloc::{AllocError, Global};
use units::{Profile, Switches};

/// The most instructions for which a deck runs by itself.
pub const MOST_INSTRUCTIONS: u32 = 1_000_000;

/// Returns the machine, with stacker selection, that has run a deck by itself: up to a halt, a
/// check, or [`MOST_INSTRUCTIONS`] attempts. Fails only if there is no memory.
pub fn machine_after(
    alloc: Global,
    deck: Deck,
    size: Size,
    switches: Switches,
) -> Result<Machine<PlaneCore>, AllocError>
    requires { 0 < length deck }
    ensures { IfOk result (λ machine.
        machine ≡ after (loaded deck size switches Selecting) most_instructions) }
{
    let mut machine = Machine::load(alloc, deck, size, switches, Profile::Selecting)?;
    machine.run(MOST_INSTRUCTIONS, &mut Meter::new())?;
    Ok(machine)
}
