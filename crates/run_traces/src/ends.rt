//! How far a run goes.

ghost use Rattle.std.specs.Prelude.{◌≡◌, ◌<◌, length, None, IfOk, OnOk};
ghost use Rattle.machine.specs.Run.{after, attempts, loaded};
ghost use Rattle.run_traces.specs.Ends.{end_of, goes_on, stands_at};
ghost use Rattle.units.specs.declared.profiles.Profile.TheVariants.{Selecting};

use cards::Deck;
use core_store::{Core, PlaneCore, Size};
use machine::{Machine, Meter, Parts};
use std::alloc::{AllocError, Global};
use units::{Profile, Switches};

/// Whether a machine stands at a stop.
fn stands_at<C: Core>(parts: &Parts<C>, stop: Option<u16>) -> bool
    ensures { result ≡ stands_at stop parts.now }
{
    match stop {
        None => false,
        Some(address) => parts.standing.is_running() && parts.registers.i == address,
    }
}

/// Whether a machine goes on.
pub(crate) fn goes_on<C: Core>(parts: &Parts<C>, stop: Option<u16>) -> bool
    ensures { result ≡ goes_on stop parts.now }
{
    parts.standing.is_running() && !stands_at(parts, stop)
}

/// Does so many steps. Returns how many instructions were attempted: none where the machine does
/// not run. Fails only if there is no memory.
pub fn advance<C: Core>(machine: &mut Machine<C>, count: u32) -> Result<u32, AllocError>
    ensures machine { OnOk result (machine.new ≡ after machine.old count) }
    ensures attempts { IfOk result (λ made. made ≡ attempts machine.old count) }
{
    let mut meter = Meter::new();
    machine.run(count, &mut meter)?;
    Ok(meter.ticks() as u32)
}

/// Does so many attempts at most, and none that begins at the stop. Returns how many were made.
fn advance_to_stop<C: Core>(
    machine: &mut Machine<C>,
    limit: u32,
    stop: Option<u16>,
) -> Result<u32, AllocError>
    ensures machine { OnOk result (machine.new
        ≡ after machine.old (end_of machine.old limit stop)) }
    ensures attempts { IfOk result (λ made. made ≡ end_of machine.old limit stop) }
{
    let mut meter = Meter::new();
    for made in 0..limit {
        if !goes_on(machine.parts(), stop) {
            return Ok(made);
        }
        machine.step(&mut meter)?;
    }
    Ok(limit)
}

/// Runs a machine without a stop. Returns how many attempts were made.
fn advance_whole<C: Core>(machine: &mut Machine<C>, limit: u32) -> Result<u32, AllocError>
    ensures machine { OnOk result (machine.new
        ≡ after machine.old (end_of machine.old limit None)) }
    ensures attempts { IfOk result (λ made. made ≡ end_of machine.old limit None) }
{
    advance(machine, limit)
}

/// Runs a machine to the end of a run of so many attempts at most. Returns how many were made.
pub(crate) fn run_to_end<C: Core>(
    machine: &mut Machine<C>,
    limit: u32,
    stop: Option<u16>,
) -> Result<u32, AllocError>
    ensures machine { OnOk result (machine.new
        ≡ after machine.old (end_of machine.old limit stop)) }
    ensures attempts { IfOk result (λ made. made ≡ end_of machine.old limit stop) }
{
    match stop {
        None => advance_whole(machine, limit),
        Some(_) => advance_to_stop(machine, limit, stop),
    }
}

/// Returns the machine, with stacker selection, that has a deck in its reader and the load button
/// pressed. Fails only if there is no memory.
pub fn load(
    alloc: Global,
    deck: &Deck,
    size: Size,
    switches: Switches,
) -> Result<Machine<PlaneCore>, AllocError>
    requires { 0 < length deck.now }
    ensures { IfOk result (λ machine. machine ≡ loaded deck.now size switches Selecting) }
{
    let deck = deck.copy(alloc)?;
    Machine::load(alloc, deck, size, switches, Profile::Selecting)
}
