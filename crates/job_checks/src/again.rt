//! Running a job again.

ghost use Rattle.std.specs.Prelude.{◌≡◌, ◌<◌, ℕ, [], List, length, take, IfOk, OnOk};
ghost use Rattle.cards.specs.{Decks.{deck_bytes}, declared.decks.Card.{Card}};
ghost use Rattle.core_store.specs.{Storage.{positions_of}, declared.sizes.Size.{Size as AnySize}};
ghost use Rattle.machine.specs.Run.{State, after, loaded as begun, started};
ghost use Rattle.office.specs.Jobs.{all_off, resumed};
ghost use Rattle.job_checks.specs.{
  Again.{GoesThrough, HasResumed, IsLoading, LoadsAs, StartsAtHalts},
  Stops.{IfDiffers},
};

use crate::differences::{Difference, Stop};
use bitflags::Flags;
use cards::Deck;
use core_store::{PlaneCore, Size};
use ledger_rows::deck_bytes;
use machine::{Machine, Meter, Standing};
use office::{Contents, Kind, NewFault, Stretch, are_stretches, commands_keep_jobs, new_job};
use std::alloc::{AllocError, Global};
use units::{Profile, Switches};

/// The deck that was handed in, and the deck that the job's machine loads, each with its bytes.
#[derive(Drop)]
pub(crate) struct Loaded {
    pub deck: Deck,
    pub deck_bytes: Vec<u8>,
    pub loaded: Deck,
    pub loaded_bytes: Vec<u8>,
}

/// The deck that the machine of these contents loads, or why they are refused.
fn loaded_for(alloc: Global, contents: &Contents) -> Result<Deck, Stop>
    ensures loads { IfOk result (LoadsAs contents.now) }
    ensures refused { IfDiffers result ((size : AnySize) → (loaded : List Card)
        → contents.now.size ≡ positions_of size
        → ¬ IsLoading contents.now.kind contents.now.deck loaded) }
{
    // A law, for the proof: it does nothing.
    commands_keep_jobs();
    match new_job::<PlaneCore>(alloc, contents) {
        Ok(job) => {
            let machine = job.parts().machine;
            Ok(machine.units.hopper.deck.copy(alloc)?)
        }
        Err(NewFault::Refused(reason)) => Err(Stop::Differs(Difference::Refused(reason))),
        Err(NewFault::NoMemory) => Err(Stop::NoMemory),
    }
}

/// The deck that the machine of a job loads, or why the job is refused.
pub(crate) fn load(alloc: Global, kind: Kind, size: Size, deck: Deck) -> Result<Loaded, Stop>
    ensures loading { IfOk result (λ it. IsLoading kind deck it.loaded
        × (it.deck_bytes.items ≡ deck_bytes deck)
        × (it.loaded_bytes.items ≡ deck_bytes it.loaded)) }
    ensures same { IfOk result (λ it. it.deck ≡ deck) }
    ensures card { IfOk result (λ it. 0 < length it.loaded) }
    ensures refused { IfDiffers result ((loaded : List Card) → ¬ IsLoading kind deck loaded) }
{
    let contents = Contents {
        kind,
        size: size.positions() as u32,
        switches: Switches::from_bits_retain(0),
        deck,
    };
    let loaded = loaded_for(alloc, &contents)?;
    let deck_bytes = deck_bytes(alloc, &contents.deck)?;
    let loaded_bytes = ledger_rows::deck_bytes(alloc, &loaded)?;
    let Contents { deck, .. } = contents;
    Ok(Loaded {
        deck,
        deck_bytes,
        loaded,
        loaded_bytes,
    })
}

/// Starts a machine that is at a halt, and runs it for a stretch.
fn resume(
    machine: &mut Machine<PlaneCore>,
    stretch: Stretch,
    meter: &mut Meter,
) -> Result<(), AllocError>
    requires { machine.old.standing ≡ Standing.Halted }
    ensures { OnOk result
        (machine.new ≡ after (started machine.old stretch.switches) stretch.granted) }
{
    machine.start(stretch.switches);
    machine.run(stretch.granted, meter)?;
    Ok(())
}

/// Goes through these stretches, each of which begins at a halt.
fn go_on(machine: &mut Machine<PlaneCore>, stretches: &[Stretch]) -> Result<(), Stop>
    ensures goes { OnOk result (GoesThrough machine.old machine.new stretches.now) }
    ensures other { IfDiffers result (¬ StartsAtHalts machine.old stretches.now) }
{
    let mut meter = Meter::new();
    for at in 0..stretches.len() {
        if machine.parts().standing != Standing::Halted {
            return Err(Stop::Differs(Difference::NotAtHalt(at + 1)));
        }
        resume(machine, stretches[at], &mut meter)?;
    }
    Ok(())
}

/// Runs a job again: from the load button through its stretches.
pub(crate) fn run_again(
    alloc: Global,
    loaded: Deck,
    size: Size,
    profile: Profile,
    stretches: &[Stretch],
) -> Result<Machine<PlaneCore>, Stop>
    requires { 0 < length loaded }
    ensures resumed { IfOk result (HasResumed (begun loaded size all_off profile) stretches.now) }
    ensures other { IfDiffers result ((m : State)
        → ¬ HasResumed (begun loaded size all_off profile) stretches.now m) }
{
    if !are_stretches(stretches) {
        return Err(Stop::Differs(Difference::NoStretches));
    }
    let Some((first, others)) = stretches.split_first() else {
        return Err(Stop::Differs(Difference::NoStretches));
    };
    let mut machine = Machine::load(alloc, loaded, size, first.switches, profile)?;
    machine.run(first.granted, &mut Meter::new())?;
    match go_on(&mut machine, others) {
        Ok(()) => Ok(machine),
        Err(stop) => Err(stop),
    }
}
