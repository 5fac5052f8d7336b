//! The subcommand `code`.

ghost use Rattle.std.specs.Prelude.{◌<◌, length};

use crate::process::{Process, status_if};
use crate::undone::Undone;
use autocoder_layout::FIRST_FREE;
use autocoder_listings::Width;
use cards::{Card, Deck, DeckFault, write_text};
use command_line::Status;
use core_store::PlaneCore;
use disassembly::{Code, CodeOptions, code_of};
use machine::{MOST_INSTRUCTIONS, Machine, Meter, Parts};
use run_traces::load;
use source_reports::Report;
use std::alloc::{AllocError, Global};
use std::io;
use std::io::Write;
use units::Switches;
use workbench_arguments::Coding;

/// Whether control is past the cards that load a program.
fn is_past(parts: &Parts<PlaneCore>) -> bool {
    u32::from(parts.registers.i) >= FIRST_FREE
}

/// A machine that has loaded a program: after so many instructions, or else when control comes past
/// 080 for the first time.
fn loaded(alloc: Global, deck: &Deck, coding: Coding<'_>) -> Result<Machine<PlaneCore>, AllocError>
    requires { 0 < length deck.now }
{
    let mut machine = load(alloc, deck, coding.size, Switches::A)?;
    let mut meter = Meter::new();
    let most = coding.after.unwrap_or(MOST_INSTRUCTIONS);
    for _ in 0..most.min(MOST_INSTRUCTIONS) {
        let parts = machine.parts();
        if !parts.standing.is_running() || coding.after.is_none() && is_past(parts) {
            return Ok(machine);
        }
        machine.step(&mut meter)?;
    }
    Ok(machine)
}

/// The positions at which a run of a deck begins instructions.
fn begun_by(alloc: Global, deck: &Deck, coding: Coding<'_>) -> Result<Vec<u16>, AllocError>
    requires { 0 < length deck.now }
{
    let mut machine = load(alloc, deck, coding.size, Switches::A)?;
    let mut meter = Meter::new();
    let mut is_begun = Vec::from_elem(alloc, false, usize::from(coding.size.positions()))?;
    let mut begun = Vec::new(alloc);
    for _ in 0..MOST_INSTRUCTIONS {
        let parts = machine.parts();
        if !parts.standing.is_running() {
            return Ok(begun);
        }
        let position = parts.registers.i;
        if let Some(seen) = is_begun.get_mut(usize::from(position))
            && !*seen
        {
            *seen = true;
            begun.push(position)?;
        }
        machine.step(&mut meter)?;
    }
    Ok(begun)
}

/// The cards that a machine has not read.
fn unread(parts: &Parts<PlaneCore>) -> &[Card] {
    let hopper = &parts.units.hopper;
    hopper
        .deck
        .cards()
        .get(usize::from(hopper.taken)..)
        .unwrap_or(&[])
}

/// Says what no card can place.
fn tell_left_out<E: Write>(
    errors: &mut E,
    path: &str,
    code: &Code,
    is_past: bool,
) -> io::Result<()> {
    for position in &code.left_out {
        writeln!(
            errors,
            "{path}: the at sign at {position:05} stands in no instruction, and no card can place it"
        )?;
    }
    if !is_past {
        writeln!(
            errors,
            "{path}: the program stands in 001 to 080, where no card of a source places anything"
        )?;
    }
    if !code.is_whole && code.left_out.is_empty() && is_past {
        writeln!(
            errors,
            "{path}: what was made does not assemble to what the deck loads; try --numbers or --run"
        )?;
    }
    Ok(())
}

/// Prints a source that was made of what a deck loads, and writes it if it loads the same.
fn show_code<W: Write, E: Write>(
    process: &mut Process<W, E>,
    coding: Coding<'_>,
    code: &Code,
    is_past: bool,
) -> Result<Status, Undone> {
    let report = Report::of(process.alloc(), &code.deck, Width::Wide)?;
    let is_whole = code.is_whole && is_past;
    let status = process.print(&report.text, status_if(is_whole))?;
    if !is_whole {
        tell_left_out(&mut process.errors, coding.deck, code, is_past)?;
        return Ok(status);
    }
    let Some(out) = coding.out else {
        return Ok(status);
    };
    let text = write_text(process.alloc(), &code.deck)?;
    process.write(out, &text)
}

/// Makes a source of what a deck loads.
pub(crate) fn write_code<W: Write, E: Write>(
    process: &mut Process<W, E>,
    coding: Coding<'_>,
) -> Result<Status, Undone> {
    let names = process.names_at(coding.names)?;
    let deck = process.deck_to_run(coding.deck)?;
    let alloc = process.alloc();
    let machine = loaded(alloc, &deck, coding)?;
    let parts = machine.parts();
    let is_past = is_past(parts);
    let begun = if coding.runs || !is_past {
        begun_by(alloc, &deck, coding)?
    } else {
        Vec::new(alloc)
    };
    let options = CodeOptions {
        start: parts.registers.i,
        begun: &begun,
        names: match &names {
            Some(names) => names.slots(),
            None => &[],
        },
        numbers: coding.numbers,
    };
    match code_of(alloc, &parts.core, unread(parts), options) {
        Ok(code) => show_code(process, coding, &code, is_past),
        Err(DeckFault::NoMemory) => Err(Undone::Memory),
        Err(DeckFault::TooManyCards) => Err(process.refuse(
            coding.deck,
            "the source and its data would have more than 2,000 cards",
        )?),
    }
}
