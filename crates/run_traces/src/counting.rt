//! How many attempts of a run began at each address.

ghost use Rattle.std.specs.Prelude.{◌≡◌, ◌+◌, ◌<◌, ◌==◌, ℕ, if◌then◌else◌, [], length, slice_index_or, None, IfOk, OnOk};
ghost use Rattle.core_store.specs.Storage.{largest_size};
ghost use Rattle.machine.specs.Run.{State, after, most_instructions};
ghost use Rattle.run_traces.specs.{
  Ends.{end_of},
  Profiles.{CountsNext, IsCounted},
  declared.counting.Begun.{Begun},
  Shown.{characters_next},
};

use crate::ends::goes_on;
use crate::shown::push_characters;
use core_store::{Core, LARGEST_SIZE};
use machine::{MOST_INSTRUCTIONS, Machine, Meter, Parts};
use std::alloc::{AllocError, Global};

/// The attempts that began at an address.
#[derive(Drop)]
pub(crate) struct Begun {
    /// How many they are.
    pub(crate) count: u32,
    /// The characters of the first one's instruction.
    pub(crate) characters: Vec<u8>,
}

/// The characters of the instruction that a machine attempts next.
fn characters_next<C: Core>(alloc: Global, parts: &Parts<C>) -> Result<Vec<u8>, AllocError>
    ensures { IfOk result (λ text. text.items ≡ characters_next parts.now) }
{
    let mut text = Vec::new(alloc);
    push_characters(&mut text, &parts.core, parts.registers.i)?;
    Ok(text)
}

/// Counts the attempt that a machine makes next.
fn count_next<C: Core>(alloc: Global, place: &mut Begun, parts: &Parts<C>) -> Result<(), AllocError>
    requires { place.old.count < most_instructions }
    ensures count { OnOk result (place.new.count ≡ place.old.count + 1) }
    ensures characters { OnOk result (place.new.characters.items
        ≡ (if place.old.count == 0 then characters_next parts.now
        else place.old.characters.items)) }
{
    if place.count == 0 {
        place.characters = characters_next(alloc, parts)?;
    }
    place.count += 1;
    Ok(())
}

/// No attempts, at each address.
pub(crate) fn none_begun(alloc: Global) -> Result<Vec<Begun>, AllocError>
    ensures { IfOk result (λ places. (m : State) → IsCounted m 0 places.items) }
{
    let mut places = Vec::new(alloc);
    for _address in 0..LARGEST_SIZE {
        places.push(Begun {
            count: 0,
            characters: Vec::new(alloc),
        })?;
    }
    Ok(places)
}

/// Counts the attempt that a machine makes next, at the address at which it begins.
fn count_attempt<C: Core>(
    alloc: Global,
    places: &mut Vec<Begun>,
    parts: &Parts<C>,
) -> Result<(), AllocError>
    requires inside { parts.now.works.registers.i < length places.old.items }
    requires few { (other : Begun) →
        (slice_index_or places.old.items parts.now.works.registers.i other).count
        < most_instructions }
    ensures { OnOk result (CountsNext parts.now places.old.items places.new.items) }
{
    count_next(alloc, &mut places[parts.registers.i as usize], parts)
}

/// Runs a machine to the end of a whole run, and counts its attempts. Returns how many they are.
pub(crate) fn count_run<C: Core>(
    alloc: Global,
    machine: &mut Machine<C>,
    places: &mut Vec<Begun>,
) -> Result<u32, AllocError>
    requires { IsCounted machine.old 0 places.old.items }
    ensures machine { OnOk result (machine.new
        ≡ after machine.old (end_of machine.old most_instructions None)) }
    ensures attempts { IfOk result (λ made.
        made ≡ end_of machine.old most_instructions None) }
    ensures counts { IfOk result (λ made. IsCounted machine.old made places.new.items) }
{
    let mut meter = Meter::new();
    for made in 0..MOST_INSTRUCTIONS {
        if !goes_on(machine.parts(), None) {
            return Ok(made);
        }
        count_attempt(alloc, places, machine.parts())?;
        machine.step(&mut meter)?;
    }
    Ok(MOST_INSTRUCTIONS)
}
