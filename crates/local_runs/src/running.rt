//! Running a deck from a reader.

ghost use Rattle.std.specs.{
  Prelude.{◌≡◌, ◌≢◌, ◌<◌, ◌⊎◌, ◌++◌, ◌∷◌, [], List, ℕ, take, IfOk, IfErr},
  Io.KnownBytes.{Appends},
};
ghost use Rattle.core_store.specs.declared.sizes.Size.{Size};
ghost use Rattle.machine.specs.Reports.{report_of, report_words};
ghost use Rattle.cards.specs.{
  Decks.{IsDeck},
  Faults.{out_of_memory},
  Files.{line_feed, text_of},
  declared.Card.{Card},
};
ghost use Rattle.units.specs.declared.switches.Switches.{Switches};
ghost use Rattle.command_line.specs.Printed.{fault_words};
ghost use Rattle.local_runs.specs.{
  Pieces.{HasLoaded},
  Runs.{Reads, Refuses, Tells, most_bytes},
  Statuses.{status_at},
};

use crate::pieces::{Broken, run_whole};
use crate::statuses::status_at;
use cards::{Deck, OUT_OF_MEMORY, read_text};
use command_line::{Fault, Status, tell_fault};
use core_store::{PlaneCore, Size};
use machine::{Machine, Report};
use std::alloc::Global;
use std::io;
use std::io::{ErrorKind, Read, Write};
use texts::read_up_to;
use units::{ListingWriter, Profile, Switches};

/// How many bytes are read at most: 2,000 cards and one byte, so that a longer deck is noticed.
pub const MOST_BYTES: u64 = 162_001;

/// Reads a reader to its end, or up to `MOST_BYTES` bytes. Fails if the reader fails or if there is
/// no memory.
pub fn text_in<R: Read + Drop>(alloc: Global, reader: R) -> Result<Vec<u8>, Fault>
    ensures text { IfOk result (λ text. Reads (R.remaining reader) text.items) }
    ensures fault { IfErr result (λ fault. (fault ≡ Fault.Card out_of_memory)
        ⊎ (fault ≡ Fault.Device)) }
{
    match read_up_to(alloc, reader, MOST_BYTES) {
        Ok(text) => Ok(text),
        Err(error) => Err(Fault::of_reading(&error)),
    }
}

/// The machine that has loaded a text's deck, with room for all that it can make.
fn machine_for(
    alloc: Global,
    text: &[u8],
    size: Size,
    switches: Switches,
) -> Result<Machine<PlaneCore>, Fault>
    ensures loaded { IfOk result (λ machine. HasLoaded text.now size switches machine) }
    ensures fault { IfErr result (λ fault. Refuses text.now fault × (fault ≢ Fault.Device)) }
{
    let deck = match read_text(alloc, text) {
        Ok(deck) => deck,
        Err(fault) => return Err(Fault::Card(fault)),
    };
    if deck.cards().is_empty() {
        return Err(Fault::Empty);
    }
    let mut machine = match Machine::load(alloc, deck, size, switches, Profile::Selecting) {
        Ok(machine) => machine,
        Err(_) => return Err(Fault::Memory),
    };
    match machine.make_room() {
        Ok(()) => Ok(machine),
        Err(_) => Err(Fault::Memory),
    }
}

/// Prints the report of a machine.
fn report<E: Write>(machine: &Machine<PlaneCore>, errors: &mut E) -> io::Result<Status>
    ensures { IfOk result (λ status. (status ≡ status_at (report_of machine.now).standing)
        × Appends (E.contents errors.old) (E.contents errors.new)
        (report_words (report_of machine.now) ++ line_feed ∷ [])) }
{
    let report = Report::of(machine.parts());
    writeln!(errors, "{report}")?;
    Ok(status_at(report.standing))
}

/// Tells that a run was broken off. Of memory this is no end: it was taken before anything was
/// written, and the error says that it was wanting all the same.
fn tell_broken<E: Write>(broken: Broken, errors: &mut E) -> io::Result<Status>
    ensures { IfOk result (λ status. (broken ≡ Broken.Output) × (status ≡ Status.NotDone)
        × Appends (E.contents errors.old) (E.contents errors.new)
        (fault_words Fault.Device ++ line_feed ∷ [])) }
{
    match broken {
        Broken::Output => tell_fault(errors, Fault::Device),
        Broken::Memory => {
            tell_fault(errors, Fault::Memory)?;
            Err(io::Error::from(ErrorKind::OutOfMemory))
        }
    }
}

/// Runs a machine that has loaded a text's deck, writes its listing, and then prints its report.
fn run_loaded<W: Write, E: Write>(
    alloc: Global,
    machine: Machine<PlaneCore>,
    output: &mut W,
    errors: &mut E,
) -> io::Result<Status>
    ensures { IfOk result (λ status. (text : List ℕ) (size : Size) (switches : Switches) →
        HasLoaded text size switches machine → Tells text size switches status
        (W.contents output.old) (W.contents output.new)
        (E.contents errors.old) (E.contents errors.new)) }
{
    let mut machine = machine;
    let listing = match ListingWriter::new(alloc) {
        Ok(listing) => listing,
        Err(_) => return tell_fault(errors, Fault::Memory),
    };
    match run_whole(&mut machine, listing, output) {
        Ok(()) => report(&machine, errors),
        Err(broken) => tell_broken(broken, errors),
    }
}

/// Runs the deck whose text a reader has, and returns how the program ends.
///
/// The listing is written whole, piece by piece while the machine runs, before anything is printed.
/// If a fault is printed, no listing is written, except for what a failing output took. Fails only
/// if `errors` itself fails; or if memory is wanting once the listing is begun, which cannot be,
/// since all of it was taken before.
pub fn run_deck<R: Read + Drop, W: Write, E: Write>(
    alloc: Global,
    reader: R,
    output: &mut W,
    errors: &mut E,
    size: Size,
    switches: Switches,
) -> io::Result<Status>
    ensures { IfOk result (λ status. (text : List ℕ) × Reads (R.remaining reader) text
        × Tells text size switches status
        (W.contents output.old) (W.contents output.new)
        (E.contents errors.old) (E.contents errors.new)) }
{
    let text = match text_in(alloc, reader) {
        Ok(text) => text,
        Err(fault) => return tell_fault(errors, fault),
    };
    match machine_for(alloc, &text, size, switches) {
        Ok(machine) => run_loaded(alloc, machine, output, errors),
        Err(fault) => tell_fault(errors, fault),
    }
}

/// The law of what is read: the text of a deck is never cut off. If the bytes that are read are a
/// deck's text, they are all that the reader had.
pub fn no_deck_is_cut_off()
    ensures { (bytes : List ℕ) (deck : List Card) → IsDeck deck →
        take most_bytes bytes ≡ text_of deck → bytes ≡ text_of deck }
{}
