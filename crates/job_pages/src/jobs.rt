//! A source that was assembled and run.

ghost use Rattle.std.specs.Prelude.{◌≡◌, ◌<◌, ◌≤◌, length, IfErr, IfOk};
ghost use Rattle.{
  cards.specs.Decks.{largest_deck},
  autocoder_layout.specs.Source.{source_of},
  autocoder.specs.Programs.{IsFaultless, IsProgramOf},
  autocoder_listings.specs.Listing.{listing_with_code_for},
  loader.specs.Decks.{runnable_deck},
};
ghost use Rattle.job_pages.specs.Jobs.{Hinders, IsJobOf};

use crate::pages::JobPageError;
use autocoder::{Faults, Program, assemble};
use autocoder_listings::listing_with_code;
use cards::{Deck, DeckFault};
use core_store::{PlaneCore, Size};
use loader::runnable_deck;
use machine::{Machine, machine_after};
use std::alloc::Global;
use units::Switches;

/// A source with its code, the deck that runs it, and the machine that has run that deck.
#[derive(Drop)]
pub(crate) struct Job {
    /// The listing of the source with its code and names.
    pub code: Vec<u8>,
    /// The deck: the cards that load the program, and the data behind them.
    pub deck: Deck,
    /// The machine after the run.
    pub machine: Machine<PlaneCore>,
}

/// The deck that runs the program of a source.
fn deck_for(alloc: Global, source: &Deck, program: &Program) -> Result<Deck, JobPageError>
    requires program { IsProgramOf (source_of source.now) program.now }
    requires faultless { IsFaultless (source_of source.now) }
    ensures deck { IfOk result (λ deck. deck ≡ runnable_deck source.now) }
    ensures fits { IfOk result (λ _. length (runnable_deck source.now) ≤ largest_deck) }
    ensures hinders { IfErr result (Hinders source.now) }
{
    match runnable_deck(alloc, source, program) {
        Ok(deck) => Ok(deck),
        Err(DeckFault::TooManyCards) => Err(JobPageError::TooManyCards),
        Err(DeckFault::NoMemory) => Err(JobPageError::NoMemory),
    }
}

/// The job of a source and its program.
fn job_of(
    alloc: Global,
    source: &Deck,
    program: &Program,
    size: Size,
    switches: Switches,
) -> Result<Job, JobPageError>
    requires program { IsProgramOf (source_of source.now) program.now }
    requires faultless { IsFaultless (source_of source.now) }
    ensures job { IfOk result (IsJobOf source.now size switches) }
    ensures hinders { IfErr result (Hinders source.now) }
{
    let deck = deck_for(alloc, source, program)?;
    let code = listing_with_code(alloc, source, program)?;
    let machine = machine_after(alloc, deck.copy(alloc)?, size, switches)?;
    Ok(Job {
        code,
        deck,
        machine,
    })
}

impl Job {
    /// Assembles the source that a deck begins with, and runs its program on the deck's data.
    pub(crate) fn of(
        alloc: Global,
        source: &Deck,
        size: Size,
        switches: Switches,
    ) -> Result<Job, JobPageError>
        ensures job { IfOk result (IsJobOf source.now size switches) }
        ensures hinders { IfErr result (Hinders source.now) }
    {
        match assemble(alloc, source) {
            Ok(program) => job_of(alloc, source, &program, size, switches),
            Err(Faults::Source(_)) => Err(JobPageError::Faults),
            Err(Faults::NoMemory) => Err(JobPageError::NoMemory),
        }
    }
}
