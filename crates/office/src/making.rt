//! New jobs.

ghost use Rattle.std.specs.Prelude.{◌≡◌, ◌≤◌, ◌<◌, length, None, IfOk, IfErr};
ghost use Rattle.autocoder_layout.specs.Source.{source_of};
ghost use Rattle.autocoder.specs.Programs.{IsProgramOf};
ghost use Rattle.office.specs.{
  Limits.{most_loaded},
  Jobs.{loaded_of},
  New.{deck_refusal, IsWhyNotLoaded, IsTooLong, IsJobOf, IsWhyNot},
};

use crate::commands::{Contents, Kind};
use crate::jobs::Job;
use crate::lists::SourceFaults;
use crate::refusals::Refusal;
use autocoder::{Faults, Faulty, Program, assemble};
use cards::{Deck, DeckFault};
use core_store::{Core, Size};
use loader::runnable_deck;
use std::alloc::Global;

/// Why there is no new job.
#[derive(Drop)]
pub enum NewFault {
    Refused(Refusal),
    /// There was no memory for the job. Nothing was changed.
    NoMemory,
}

/// Returns the deck that loads the program of a source and then its data.
fn program_deck(alloc: Global, deck: &Deck, program: &Program) -> Result<Deck, NewFault>
    requires { IsProgramOf (source_of deck.now) program.now }
    ensures deck { IfOk result (λ loaded. loaded ≡ loaded_of Kind.Autocoder deck.now) }
    ensures fits { IfOk result (λ loaded. length loaded ≤ most_loaded) }
    ensures fault { IfErr result (λ fault. IsTooLong fault (loaded_of Kind.Autocoder deck.now)) }
{
    match runnable_deck(alloc, deck, program) {
        Ok(loaded) => Ok(loaded),
        Err(DeckFault::TooManyCards) => Err(NewFault::Refused(Refusal::Deck)),
        Err(DeckFault::NoMemory) => Err(NewFault::NoMemory),
    }
}

/// Assembles a source, and returns the deck that loads its program.
fn assemble_source(alloc: Global, deck: &Deck) -> Result<Deck, NewFault>
    requires { 0 < length deck.now }
    ensures deck { IfOk result (λ loaded. loaded ≡ loaded_of Kind.Autocoder deck.now) }
    ensures taken { IfOk result (λ _. deck_refusal Kind.Autocoder deck.now ≡ None) }
    ensures refused { IfErr result (λ fault. IsWhyNotLoaded Kind.Autocoder deck.now fault) }
{
    match assemble(alloc, deck) {
        Ok(program) => program_deck(alloc, deck, &program),
        Err(Faults::Source(Faulty { faults, .. })) => {
            Err(NewFault::Refused(Refusal::Assembly(SourceFaults(faults))))
        }
        Err(Faults::NoMemory) => Err(NewFault::NoMemory),
    }
}

/// Returns the deck that a job's machine loads.
fn deck_to_load(alloc: Global, kind: Kind, deck: &Deck) -> Result<Deck, NewFault>
    ensures deck { IfOk result (λ loaded. loaded ≡ loaded_of kind deck.now) }
    ensures some { IfOk result (λ loaded. 0 < length loaded) }
    ensures taken { IfOk result (λ _. deck_refusal kind deck.now ≡ None) }
    ensures refused { IfErr result (λ fault. IsWhyNotLoaded kind deck.now fault) }
{
    if deck.cards().is_empty() {
        return Err(NewFault::Refused(Refusal::Deck));
    }
    match kind {
        Kind::Object => match deck.copy(alloc) {
            Ok(copy) => Ok(copy),
            Err(_) => Err(NewFault::NoMemory),
        },
        Kind::Autocoder => assemble_source(alloc, deck),
    }
}

/// Makes the job of what is handed in. It is refused if there is no such size, or no card, or if
/// the source has faults, or if there would be over 2,000 cards to load, in this order.
pub fn new_job<C: Core>(alloc: Global, contents: &Contents) -> Result<Job<C>, NewFault>
    ensures job { IfOk result (λ job. IsJobOf contents.now job) }
    ensures refused { IfErr result (λ fault. IsWhyNot contents.now fault) }
{
    let Some(size) = Size::of_positions(contents.size) else {
        return Err(NewFault::Refused(Refusal::Size));
    };
    let deck = match deck_to_load(alloc, contents.kind, &contents.deck) {
        Ok(deck) => deck,
        Err(fault) => return Err(fault),
    };
    match Job::load(alloc, deck, size, contents.switches) {
        Ok(job) => Ok(job),
        Err(_) => Err(NewFault::NoMemory),
    }
}
