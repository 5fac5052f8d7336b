//! Assembling a deck from a reader.

ghost use Rattle.std.specs.Prelude.{◌≡◌, ◌≢◌, ◌≤◌, ◌<◌, ◌⊎◌, List, ℕ, length, IfOk, IfErr};
ghost use Rattle.cards.specs.Decks.{largest_deck};
ghost use Rattle.autocoder_layout.specs.Source.{source_of};
ghost use Rattle.autocoder.specs.Programs.{IsProgramOf};
ghost use Rattle.loader.specs.Decks.{runnable_deck};
ghost use Rattle.local_runs.specs.{
  Runs.{Reads},
  Endings.{ending_by, made_by},
  Assembling.{Assembles, Ends, IsMadeOf, made_of},
};

use crate::running::text_in;
use crate::showing::{Assembled, Hindrance, Product, hinder, show_hindrance, show_product};
use autocoder::{Program, assemble, listing};
use cards::{Deck, read_text, write_text};
use command_line::Fault;
use loader::runnable_deck;
use std::alloc::Global;
use std::io;
use std::io::{Read, Write};

/// Makes the listing and the deck of a source and its program.
fn product_of(alloc: Global, deck: &Deck, program: &Program) -> Result<Product, Fault>
    requires program { IsProgramOf (source_of deck.now) program.now }
    ensures made { IfOk result (λ product. made_by product ≡ made_of deck.now) }
    ensures fits { IfOk result (λ _. length (runnable_deck deck.now) ≤ largest_deck) }
    ensures fault { IfErr result (λ fault. (fault ≡ Fault.Memory)
        ⊎ ((fault ≡ Fault.TooManyCards) × (largest_deck < length (runnable_deck deck.now)))) }
{
    let runnable = runnable_deck(alloc, deck, program)?;
    let out = write_text(alloc, &runnable)?;
    let listing = listing(alloc, deck, program)?;
    Ok(Product { listing, out })
}

/// Assembles the deck of a text.
fn assembled_in(alloc: Global, text: &[u8]) -> Result<Product, Hindrance>
    ensures made { IfOk result (λ product. IsMadeOf text.now (made_by product)) }
    ensures ends { IfErr result (λ hindrance. Ends text.now (ending_by hindrance)) }
    ensures no_device { IfErr result (λ hindrance. hindrance ≢ Hindrance.Fault Fault.Device) }
{
    let deck = match read_text(alloc, text) {
        Ok(deck) => deck,
        Err(fault) => return Err(Hindrance::Fault(Fault::Card(fault))),
    };
    let program = match assemble(alloc, &deck) {
        Ok(program) => program,
        Err(faults) => return Err(Hindrance::Source(faults)),
    };
    match product_of(alloc, &deck, &program) {
        Ok(product) => Ok(product),
        Err(fault) => Err(Hindrance::Fault(fault)),
    }
}

/// Assembles the source at the beginning of the deck whose text a reader has. Returns how the
/// program ends and what is to be written to OUT: the text of the deck that runs the source's
/// program, its data cards last.
///
/// The listing is written whole, after everything to be written is made. If the source has faults,
/// a line for each is written instead of the listing, and nothing is printed on the second writer.
/// If a fault is printed there, the first writer has nothing, except for what a failing output
/// took. Fails only if `errors` itself fails.
pub fn assemble_deck<R: Read + Drop, W: Write, E: Write>(
    alloc: Global,
    reader: R,
    output: &mut W,
    errors: &mut E,
) -> io::Result<Assembled>
    ensures { IfOk result (λ answer. (text : List ℕ) × Reads (R.remaining reader) text
        × Assembles text answer
        (W.contents output.old) (W.contents output.new)
        (E.contents errors.old) (E.contents errors.new)) }
{
    let text = match text_in(alloc, reader) {
        Ok(text) => text,
        Err(fault) => return hinder(errors, fault),
    };
    match assembled_in(alloc, &text) {
        Ok(product) => show_product(product, output, errors),
        Err(hindrance) => show_hindrance(hindrance, output, errors),
    }
}
