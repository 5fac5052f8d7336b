//! The page of a job.

ghost use Rattle.std.specs.Prelude.{◌≡◌, ◌++◌, ◌<◌, ◌≤◌, length, option_map, string_bytes, IfErr, IfOk, IfSome, OnOk};
ghost use Rattle.{
  cards.specs.Decks.{largest_deck},
  autocoder_layout.specs.Source.{source_of},
  autocoder.specs.Programs.{IsFaultless},
  autocoder_listings.specs.Listing.{listing_with_code_for},
  loader.specs.Decks.{runnable_deck},
  machine.specs.Reports.{report_of, report_words},
  units.specs.Listing.{IsRising, rendered},
};
ghost use Rattle.job_pages.specs.{
  Facts.{facts},
  Jobs.{Hinders},
  Pages.{page_by, page_of, page_showing, part_name},
  Shown.{cards_of, shown_after, shown_as, text_handed_in},
  declared.pages.JobPageError.TheVariants.{NoMemory},
};

use crate::facts::{
    push_deck, push_listing, push_machine, push_maker, push_punched, push_source, push_standing,
};
use crate::jobs::Job;
use crate::parts;
use autocoder::{Faults, assemble};
use autocoder_listings::listing_with_code;
use cards::{Card, Deck, write_text};
use core_store::{PlaneCore, Size};
use machine::{Machine, Report};
use std::alloc::{AllocError, Global};
use units::{Line, Punched, Switches, render};

/// Why there is no page of a job.
#[derive(Clone, Copy, Debug)]
pub enum JobPageError {
    /// The source has faults.
    Faults,
    /// The loading cards and the data are over 2,000.
    TooManyCards,
    /// There is no memory.
    NoMemory,
}

impl From<AllocError> for JobPageError {
    ghost from_gives = { λ _ error. error ≡ NoMemory };

    fn from(_error: AllocError) -> JobPageError {
        JobPageError::NoMemory
    }
}

/// What a page is about: its name, its source, the machine, and what makes the page.
#[derive(Clone, Copy)]
pub struct Subject<'a> {
    /// The name of the job, for its heading.
    pub name: &'a [u8],
    /// The source, with its data behind it.
    pub source: &'a Deck,
    /// The size of the machine's storage.
    pub size: Size,
    /// The sense switches that are on.
    pub switches: Switches,
    /// The version of the program that makes the page.
    pub version: &'a [u8],
}

/// A job that was run, for its page.
#[derive(Clone, Copy)]
pub struct JobShown<'a> {
    /// The name of the job, for its heading.
    pub name: &'a [u8],
    /// What was handed in with its data behind it, if it is a source.
    pub source: Option<&'a Deck>,
    /// The deck that was run.
    pub deck: &'a Deck,
    /// The size of the machine's storage.
    pub size: Size,
    /// The sense switches of each start.
    pub switches: &'a [Switches],
    /// What the row of the table is called that says how the job stands.
    pub row: &'a [u8],
    /// How it stands, in words.
    pub words: &'a [u8],
    /// The lines that it has printed.
    pub lines: &'a [Line],
    /// The cards that it has punched.
    pub cards: &'a [Punched],
    /// The version of the program that makes the page.
    pub version: &'a [u8],
}

/// Adds the table of a job with this listing that has punched these cards.
#[tactic(auto, unfolding(crate::specs::Facts::facts))]
fn push_facts(
    alloc: Global,
    out: &mut Vec<u8>,
    shown: &JobShown<'_>,
    listing: &[u8],
    cards: &[Card],
) -> Result<(), AllocError>
    ensures { OnOk result (out.new.items
        ≡ out.old.items ++ facts (shown_as shown.now) listing.now cards.now) }
{
    out.extend_from_slice(b"<table>\n")?;
    push_source(alloc, out, shown.source)?;
    push_deck(alloc, out, b"deck that was run", shown.deck)?;
    push_machine(out, shown)?;
    push_standing(out, shown.row, shown.words)?;
    push_listing(alloc, out, shown.lines.len(), listing)?;
    push_punched(alloc, out, cards)?;
    push_maker(out, shown.version)?;
    out.extend_from_slice(b"</table>\n")?;
    Ok(())
}

/// What the part of a page is called that has what was handed in.
fn part_name(source: Option<&Deck>) -> &'static [u8]
    ensures { result.now ≡ part_name (option_map (λ it. it.now) source.entry) }
{
    match source {
        Some(_) => b"Source",
        None => b"Deck",
    }
}

/// Adds all of a page, with this text of what was handed in, this listing, and these punched cards.
fn push_page(
    alloc: Global,
    out: &mut Vec<u8>,
    shown: &JobShown<'_>,
    text: &[u8],
    listing: &[u8],
    cards: &[Card],
) -> Result<(), AllocError>
    ensures { OnOk result (out.new.items
        ≡ out.old.items ++ page_by (shown_as shown.now) text.now listing.now cards.now) }
{
    parts::push_head(out, shown.name)?;
    push_facts(alloc, out, shown, listing, cards)?;
    parts::push_text(out, part_name(shown.source), text)?;
    parts::push_listing(out, listing)?;
    parts::push_cards(alloc, out, cards)?;
    Ok(())
}

/// The cards of a punch, without their pockets.
fn cards_of(alloc: Global, punched: &[Punched]) -> Result<Vec<Card>, AllocError>
    ensures { IfOk result (λ cards. cards.items ≡ cards_of punched.now) }
{
    let mut cards = Vec::with_capacity(alloc, punched.len())?;
    for one in punched {
        cards.push(Card(one.card.0))?;
    }
    Ok(cards)
}

/// The page of a job with this text of what was handed in.
fn page_with(alloc: Global, shown: &JobShown<'_>, text: &[u8]) -> Result<Vec<u8>, AllocError>
    requires { IsRising shown.now.lines.now }
    ensures { IfOk result (λ page. page.items ≡ page_by (shown_as shown.now) text.now
        (rendered shown.now.lines.now) (cards_of shown.now.cards.now)) }
{
    let listing = render(alloc, shown.lines)?;
    let cards = cards_of(alloc, shown.cards)?;
    let mut out = Vec::new(alloc);
    push_page(alloc, &mut out, shown, text, &listing, &cards)?;
    Ok(out)
}

/// The listing of a source with its code.
fn code_of(alloc: Global, source: &Deck) -> Result<Vec<u8>, AllocError>
    requires { IsFaultless (source_of source.now) }
    ensures { IfOk result (λ text. text.items ≡ listing_with_code_for source.now) }
{
    match assemble(alloc, source) {
        Ok(program) => listing_with_code(alloc, source, &program),
        Err(Faults::NoMemory) => Err(AllocError),
        Err(Faults::Source(_)) => unreachable!(),
    }
}

/// The text of what was handed in: the listing of a source with its code, or else the deck's own.
fn text_handed_in(alloc: Global, source: Option<&Deck>, deck: &Deck) -> Result<Vec<u8>, AllocError>
    requires { IfSome source (λ it. IsFaultless (source_of it.now)) }
    ensures { IfOk result (λ text. text.items
        ≡ text_handed_in (option_map (λ it. it.now) source.entry) deck.now) }
{
    match source {
        Some(source) => code_of(alloc, source),
        None => write_text(alloc, deck),
    }
}

/// Returns the page of a job that was run, an HTML file that stands alone. A source is listed with
/// its code, and the cards of any other deck as they are.
///
/// Fails only if there is no memory.
pub fn page_showing(alloc: Global, shown: &JobShown<'_>) -> Result<Vec<u8>, AllocError>
    requires rising { IsRising shown.now.lines.now }
    requires faultless { IfSome shown.now.source (λ it. IsFaultless (source_of it.now)) }
    ensures { IfOk result (λ page. page.items ≡ page_showing (shown_as shown.now)) }
{
    let text = text_handed_in(alloc, shown.source, shown.deck)?;
    page_with(alloc, shown, &text)
}

/// What a run reports of its machine.
fn report_of(alloc: Global, machine: &Machine<PlaneCore>) -> Result<String, AllocError>
    ensures { IfOk result (λ words. string_bytes words ≡ report_words (report_of machine.now)) }
{
    Report::of(machine.parts()).to_string(alloc)
}

/// The page of a job that was assembled and run.
fn page_for(alloc: Global, subject: &Subject<'_>, job: &Job) -> Result<Vec<u8>, AllocError>
    requires deck { job.now.deck ≡ runnable_deck subject.now.source.now }
    requires code { job.now.code.items ≡ listing_with_code_for subject.now.source.now }
    ensures { IfOk result (λ page. page.items ≡ page_showing (shown_after subject.now.name.now
        subject.now.source.now job.now.machine subject.now.size subject.now.switches
        subject.now.version.now)) }
{
    let words = report_of(alloc, &job.machine)?;
    let units = &job.machine.parts().units;
    let shown = JobShown {
        name: subject.name,
        source: Some(subject.source),
        deck: &job.deck,
        size: subject.size,
        switches: &[subject.switches],
        row: b"end",
        words: words.as_bytes(),
        lines: &units.printer.lines,
        cards: &units.punch.cards,
        version: subject.version,
    };
    page_with(alloc, &shown, &job.code)
}

/// Returns the page of a job, an HTML file that stands alone: its source is assembled, loaded and
/// run as `bureau` does it.
///
/// Fails where the source has faults or too many cards, and if there is no memory.
pub fn job_page(alloc: Global, subject: &Subject<'_>) -> Result<Vec<u8>, JobPageError>
    ensures page { IfOk result (λ page. page.items ≡ page_of subject.now.name.now
        subject.now.source.now subject.now.size subject.now.switches subject.now.version.now) }
    ensures faultless { OnOk result (IsFaultless (source_of subject.now.source.now)) }
    ensures fits { OnOk result (length (runnable_deck subject.now.source.now) ≤ largest_deck) }
    ensures hinders { IfErr result (Hinders subject.now.source.now) }
{
    let job = Job::of(alloc, subject.source, subject.size, subject.switches)?;
    Ok(page_for(alloc, subject, &job)?)
}
