//! How far a machine goes.

ghost use Rattle.std.specs.{
  Prelude.{◌≡◌, ◌==◌, ◌+◌, ◌≤◌, ◌<◌, ◌++◌, ◌^◌, length, option_copied, IfOk, OnOk},
  List.{list_any},
};
ghost use Rattle.machine.specs.Run.{after, attempts};
ghost use Rattle.units.specs.declared.profiles.Profile.TheVariants.{Selecting};
ghost use Rattle.machine.specs.Run.{is_running, loaded};
ghost use Rattle.console.specs.{
  Goes.{goes_on_from, has_changed, stands_at, watched_cell, went},
  Shown.{attempts_shown},
  SessionStates.{machine_of, pressed},
};

use crate::starts::Start;
use crate::watching::{cells_differ, watched_cell};
use cards::Deck;
use core_store::{Core, PlaneCore, Size};
use machine::{Machine, Meter, Parts, Standing};
use run_traces::{Names, advance, load, push_attempt};
use std::alloc::{AllocError, Global};
use units::Switches;

/// Whether an address is one of the stops.
fn is_stop(stops: &[u16], address: u16) -> bool
    ensures { result ≡ list_any (λ stop. stop == address) stops.now }
{
    stops.iter().any(|stop| *stop == address)
}

/// Whether a machine stands at one of the stops.
pub(crate) fn stands_at<C: Core>(stops: &[u16], parts: &Parts<C>) -> bool
    ensures { result ≡ stands_at stops.now parts.now }
{
    parts.standing.is_running() && is_stop(stops, parts.registers.i)
}

/// Whether the watched position has changed since it had these contents.
pub(crate) fn has_changed<C: Core>(
    watched: Option<u16>,
    before: (u8, bool),
    parts: &Parts<C>,
) -> bool
    ensures { result ≡ has_changed watched before parts.now }
{
    cells_differ(before, watched_cell(watched, &parts.core))
}

/// Whether a machine is running.
fn is_running<C: Core>(machine: &Machine<C>) -> bool
    ensures { result ≡ is_running machine.now.standing }
{
    machine.parts().standing.is_running()
}

/// The contents of the watched position of a machine.
pub(crate) fn cell_of<C: Core>(machine: &Machine<C>, watched: Option<u16>) -> (u8, bool)
    ensures { result ≡ watched_cell watched machine.now.works.storage }
{
    watched_cell(watched, &machine.parts().core)
}

/// Whether a machine goes on whose watched position had these contents before.
fn goes_on<C: Core>(
    machine: &Machine<C>,
    stops: &[u16],
    watched: Option<u16>,
    before: (u8, bool),
) -> bool
    ensures { result ≡ goes_on_from stops.now watched before machine.now }
{
    let parts = machine.parts();
    parts.standing.is_running() && !has_changed(watched, before, parts) && !stands_at(stops, parts)
}

/// Goes on for so many instructions at most. Returns how many were attempted.
pub(crate) fn go<C: Core>(
    machine: &mut Machine<C>,
    stops: &[u16],
    watched: Option<u16>,
    limit: u32,
) -> Result<u32, AllocError>
    ensures machine { OnOk result (machine.new
        ≡ after machine.old (went stops.now watched machine.old limit)) }
    ensures made { IfOk result (λ made. made ≡ went stops.now watched machine.old limit) }
    ensures within { IfOk result (λ made. made ≤ limit) }
{
    let mut meter = Meter::new();
    for made in 0..limit {
        if !is_running(machine) {
            return Ok(made);
        }
        let before = cell_of(machine, watched);
        machine.step(&mut meter)?;
        if !goes_on(machine, stops, watched, before) {
            return Ok(made + 1);
        }
    }
    Ok(limit)
}

/// Attempts so many instructions at most, and adds a line for each. Returns how many it made.
pub(crate) fn push_attempts<C: Core>(
    alloc: Global,
    text: &mut Vec<u8>,
    machine: &mut Machine<C>,
    names: Option<&Names>,
    made: u32,
    limit: u32,
) -> Result<u32, AllocError>
    requires { made + limit < 2 ^ 32 }
    ensures machine { OnOk result (machine.new
        ≡ after machine.old (attempts machine.old limit)) }
    ensures made { IfOk result (λ count. count ≡ attempts machine.old limit) }
    ensures within { IfOk result (λ count. count ≤ limit) }
    ensures text { OnOk result (text.new.items ≡ text.old.items
        ++ attempts_shown (option_copied names.entry) made machine.old limit) }
{
    for count in 0..limit {
        if !is_running(machine) {
            return Ok(count);
        }
        push_attempt(alloc, text, machine, names, made + count + 1)?;
    }
    Ok(limit)
}

/// Presses the start button, with these switches.
pub(crate) fn press<C: Core>(machine: &mut Machine<C>, switches: Switches)
    ensures { machine.new ≡ pressed machine.old switches }
{
    if let Standing::Halted = machine.parts().standing {
        machine.start(switches);
    }
}

/// Runs a deck anew, from the load button on, for so many instructions, with these starts.
#[tactic(auto, unfolding(crate::specs::SessionStates::machine_from))]
pub(crate) fn rerun(
    alloc: Global,
    deck: &Deck,
    size: Size,
    switches: Switches,
    starts: &[Start],
    count: u32,
) -> Result<Machine<PlaneCore>, AllocError>
    requires { 0 < length deck.now }
    ensures { IfOk result (λ machine.
        machine ≡ machine_of (loaded deck.now size switches Selecting) starts.now count) }
{
    let mut machine = load(alloc, deck, size, switches)?;
    let mut done = 0u32;
    let mut rest = starts;
    while let Some((start, more)) = rest.split_first() {
        advance(&mut machine, start.made.saturating_sub(done))?;
        press(&mut machine, start.switches);
        done = start.made;
        rest = more;
    }
    advance(&mut machine, count.saturating_sub(done))?;
    Ok(machine)
}
