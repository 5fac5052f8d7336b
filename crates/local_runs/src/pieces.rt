//! Runs in pieces: what was printed is written and set aside before the run goes on, so that memory
//! does not grow with the lines and cards.

ghost use Rattle.std.specs.{
  Prelude.{◌≡◌, ◌<◌, ◌+◌, ℕ, List, Option, OnOk},
  Io.KnownBytes.{Appends},
};
ghost use Rattle.units.specs.Listing.{rendered};
ghost use Rattle.machine.specs.{
  Ranges.{IsInRange},
  Reports.{report_of},
  Run.{State, after, lines_of, most_instructions},
};
ghost use Rattle.local_runs.specs.{Pieces.{HasRun}, declared.pieces.Broken.TheVariants.{Memory, Output}};

use core_store::PlaneCore;
use machine::{MOST_INSTRUCTIONS, Machine, Meter};
use std::alloc::AllocError;
use std::io;
use std::io::Write;
use units::{Line, ListingWriter};

/// The most instructions of the first piece.
const FIRST_PIECE: u32 = 4_096;

/// How many lines a piece has to print so that the next one is not twice as long.
const MANY_LINES: usize = 512;

/// Why a run was broken off.
#[derive(Clone, Copy)]
pub(crate) enum Broken {
    /// There is no memory for a card or a line.
    Memory,
    /// The output failed. It may have taken some of the listing.
    Output,
}

impl From<AllocError> for Broken {
    ghost from_gives = { λ _ broken. broken ≡ Memory };

    fn from(_error: AllocError) -> Self {
        Broken::Memory
    }
}

impl From<io::Error> for Broken {
    ghost from_gives = { λ _ broken. broken ≡ Output };

    fn from(_error: io::Error) -> Self {
        Broken::Output
    }
}

/// The lines that a machine has printed and that were not set aside.
fn lines_made(machine: &Machine<PlaneCore>) -> &[Line]
    ensures { result.now ≡ lines_of machine.now }
{
    &machine.parts().units.printer.lines
}

/// Writes what was printed, sets it aside, and runs further.
fn run_piece<W: Write>(
    machine: &mut Machine<PlaneCore>,
    listing: &mut ListingWriter,
    output: &mut W,
    limit: u32,
) -> Result<(), Broken>
    ensures { OnOk result ((start : State) (steps : ℕ) (first : Option (List ℕ)) →
        IsInRange start →
        HasRun start steps first (W.contents output.old) listing.old machine.old →
        HasRun start (steps + limit) first (W.contents output.new) listing.new machine.new) }
{
    let printed = lines_made(machine);
    listing.add(output, printed)?;
    machine.set_aside();
    machine.run(limit, &mut Meter::new())?;
    Ok(())
}

/// The most instructions of the piece behind one of so many. Few long pieces take less time, and
/// short ones less memory.
fn next_limit(machine: &Machine<PlaneCore>, limit: u32) -> u32
    requires { 0 < limit }
    ensures { 0 < result }
{
    let parts = machine.parts();
    if !parts.standing.is_running() {
        return MOST_INSTRUCTIONS;
    }
    if parts.units.printer.lines.len() < MANY_LINES {
        limit.saturating_mul(2)
    } else {
        limit
    }
}

/// Runs a machine so many steps further, in pieces.
fn run_on<W: Write>(
    machine: &mut Machine<PlaneCore>,
    listing: &mut ListingWriter,
    output: &mut W,
    count: u32,
) -> Result<(), Broken>
    ensures { OnOk result ((start : State) (steps : ℕ) (first : Option (List ℕ)) →
        IsInRange start →
        HasRun start steps first (W.contents output.old) listing.old machine.old →
        HasRun start (steps + count) first (W.contents output.new) listing.new machine.new) }
{
    let mut left = count;
    let mut limit = FIRST_PIECE;
    while left > 0 {
        let piece = limit.min(left);
        run_piece(machine, listing, output, piece)?;
        left -= piece;
        limit = next_limit(machine, limit);
    }
    Ok(())
}

/// Runs a machine as long as a deck runs by itself, and writes its listing whole.
pub(crate) fn run_whole<W: Write>(
    machine: &mut Machine<PlaneCore>,
    listing: ListingWriter,
    output: &mut W,
) -> Result<(), Broken>
    ensures { OnOk result ((start : State) (first : Option (List ℕ)) → IsInRange start →
        HasRun start 0 first (W.contents output.old) listing machine.old →
        Appends first (W.contents output.new) (rendered (lines_of (after start most_instructions)))
        × (report_of machine.new ≡ report_of (after start most_instructions))) }
{
    let mut listing = listing;
    run_on(machine, &mut listing, output, MOST_INSTRUCTIONS)?;
    listing.add(output, lines_made(machine))?;
    listing.finish(output)?;
    Ok(())
}
