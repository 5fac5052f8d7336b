//! The files of a job's archive.

ghost use Rattle.std.specs.Prelude.{◌≡◌, IfOk};
ghost use Rattle.units.specs.Listing.{rendered};
ghost use Rattle.office.specs.Jobs.{lines_by};
ghost use Rattle.job_archives.specs.Archives.{archive_of, cards_of, files_as, payload_of};

use crate::punched::text_of_cards;
use crate::records::record_of;
use cards::{write_punched_cards, write_text};
use job_checks::JobRun;
use office::{PunchedCards, Stacker, cards_from};
use std::alloc::{AllocError, Global};
use std::marker::Model;
use units::{lines_in_range_rise, render};

/// The files of a job's archive, by their bytes.
#[derive(Drop)]
pub struct Archive {
    /// `deck.text`: the deck as it was handed in.
    pub deck: Vec<u8>,
    /// `loaded.text`: the deck that its machine loads.
    pub loaded: Vec<u8>,
    /// `lines.text`: the listing of what it has printed.
    pub lines: Vec<u8>,
    /// `cards.punch`: the cards that it has punched, in the punch form.
    pub punched: Vec<u8>,
    /// `cards.text`: the same cards as a deck text.
    pub cards: Vec<u8>,
    /// `record`: its name and its numbers, and the digests of the other files.
    pub facts: Vec<u8>,
}

impl Model for Archive {
    ghost use Rattle.job_archives.specs.Archives.{Files};

    ghost Value = { Files };

    ghost view = { λ archive. record {
      deck = archive.deck.items;
      loaded = archive.loaded.items;
      lines = archive.lines.items;
      punched = archive.punched.items;
      cards = archive.cards.items;
      facts = archive.facts.items;
    } };
}

/// A file of a bag.
#[derive(Clone, Copy)]
pub struct BagFile<'a> {
    /// Its path in the folder of the bag.
    pub path: &'a str,
    /// Its bytes.
    pub bytes: &'a [u8],
}

/// The file of this path, with these bytes.
pub(crate) fn file<'a>(path: &'a str, bytes: &'a [u8]) -> BagFile<'a>
    ensures path { result.path.now ≡ path.now }
    ensures bytes { result.bytes.now ≡ bytes.now }
{
    BagFile { path, bytes }
}

impl Archive {
    /// The payload of a bag: the files, each with its path, in the order of their names.
    pub fn payload(&self) -> [BagFile<'_>; 6]
        ensures { files_as result ≡ payload_of self.now }
    {
        [
            file("data/cards.punch", &self.punched),
            file("data/cards.text", &self.cards),
            file("data/deck.text", &self.deck),
            file("data/lines.text", &self.lines),
            file("data/loaded.text", &self.loaded),
            file("data/record", &self.facts),
        ]
    }
}

/// The listing of what a job has printed.
fn listing_of(alloc: Global, run: &JobRun) -> Result<Vec<u8>, AllocError>
    ensures { IfOk result (λ text. text.items ≡ rendered (lines_by run.now.job)) }
{
    // A law, for the proof: it does nothing.
    lines_in_range_rise();
    render(alloc, &run.machine().units.printer.lines)
}

/// The cards that a job has punched.
#[tactic(auto, unfolding(office::specs::Stackers::cards_from))]
fn cards_punched(alloc: Global, run: &JobRun) -> Result<PunchedCards, AllocError>
    ensures { IfOk result (λ cards. cards ≡ cards_of run.now) }
{
    cards_from(alloc, Stacker::All, &run.machine().units.punch.cards)
}

/// Returns the files of a job's archive. Fails only if there is no memory.
pub fn files_of(alloc: Global, run: &JobRun) -> Result<Archive, AllocError>
    ensures { IfOk result (λ archive. archive ≡ archive_of run.now) }
{
    let cards = cards_punched(alloc, run)?;
    let deck = write_text(alloc, run.deck())?;
    let loaded = write_text(alloc, run.loaded_deck())?;
    let lines = listing_of(alloc, run)?;
    let punched = write_punched_cards(alloc, &cards.0)?;
    let cards = text_of_cards(alloc, &cards.0)?;
    let facts = record_of(alloc, run, &deck, &loaded, &lines, &punched, &cards)?;
    Ok(Archive {
        deck,
        loaded,
        lines,
        punched,
        cards,
        facts,
    })
}
