//! Runs of decks, and assemblies of sources, from files.

ghost use Rattle.std.specs.Prelude.{List, ℕ, IfOk};
ghost use Rattle.local_runs.specs.{Assembling.{Assembles}, Runs.{Tells}};

use crate::assembling::assemble_deck;
use crate::running::run_deck;
use crate::showing::{Assembled, hinder};
use command_line::{Fault, Input, Status, tell_fault};
use core_store::Size;
use std::fs::File;
use std::io;
use std::io::Write;
use units::Switches;

/// Runs the deck on the standard input, or in a file. If a file cannot be opened, the fault is
/// printed: want of memory, or a device. Fails only if `errors` itself fails.
pub fn run_input<W: Write, E: Write>(
    rt: &HostRuntime,
    deck: Input<'_>,
    size: Size,
    switches: Switches,
    output: &mut W,
    errors: &mut E,
) -> io::Result<Status>
    ensures { IfOk result (λ status. (text : List ℕ) × Tells text size switches status
        (W.contents output.old) (W.contents output.new)
        (E.contents errors.old) (E.contents errors.new)) }
{
    match deck {
        Input::Standard => run_deck(rt.alloc(), rt.stdin(), output, errors, size, switches),
        Input::File(path) => match File::open(rt, path) {
            Ok(file) => run_deck(rt.alloc(), file, output, errors, size, switches),
            Err(error) => tell_fault(errors, Fault::of_reading(&error)),
        },
    }
}

/// Assembles the deck of the source in a file, as `assemble_deck` does. If the file cannot be
/// opened, the fault is printed: want of memory, or a device. Fails only if `errors` itself fails.
pub fn assemble_file<W: Write, E: Write>(
    rt: &HostRuntime,
    source: &str,
    output: &mut W,
    errors: &mut E,
) -> io::Result<Assembled>
    ensures { IfOk result (λ answer. (text : List ℕ) × Assembles text answer
        (W.contents output.old) (W.contents output.new)
        (E.contents errors.old) (E.contents errors.new)) }
{
    match File::open(rt, source) {
        Ok(file) => assemble_deck(rt.alloc(), file, output, errors),
        Err(error) => hinder(errors, Fault::of_reading(&error)),
    }
}
