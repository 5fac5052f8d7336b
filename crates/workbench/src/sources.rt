//! The subcommand `source`.

ghost use Rattle.std.specs.Prelude.{◌≡◌, ◌++◌, IfOk, OnOk, length};
ghost use Rattle.autocoder_layout.specs.Source.{source_of};
ghost use Rattle.source_reports.specs.Reports.{faults_for};
ghost use Rattle.workbench.specs.Sources.{cards_behind, data_by, shown_of};

use crate::process::{Process, status_if};
use crate::undone::Undone;
use autocoder_layout::source_of;
use autocoder_listings::Width;
use card_forms::images_of;
use card_tools::{ListOptions, list_from};
use cards::Deck;
use command_line::Status;
use source_reports::Report;
use std::alloc::{AllocError, Global};
use std::io::Write;

/// How a source is shown.
#[derive(Clone, Copy)]
pub(crate) struct Showing {
    /// How wide its listing is.
    pub width: Width,
    /// Whether the cards behind it are listed too.
    pub with_data: bool,
}

impl Showing {
    /// How a source is shown in 80 columns or in more.
    pub(crate) fn of(narrow: bool, with_data: bool) -> Showing {
        let width = if narrow { Width::Narrow } else { Width::Wide };
        Showing { width, with_data }
    }
}

/// The listing of the cards behind the source of a deck, with their numbers in the deck.
fn cards_behind(alloc: Global, deck: &Deck) -> Result<Vec<u8>, AllocError>
    ensures { IfOk result (λ text. text.items ≡ cards_behind deck.now) }
{
    let cards = deck.cards();
    let source = source_of(cards).len();
    let options = ListOptions {
        ruler: false,
        punches: false,
    };
    let images = images_of(alloc, &cards[source..])?;
    list_from(alloc, source + 1, &images, options)
}

/// Adds the cards behind the source of a deck, where they are asked for and the source has no
/// faults.
fn push_data(
    alloc: Global,
    report: &mut Report,
    with_data: bool,
    deck: &Deck,
) -> Result<(), AllocError>
    requires { report.old.faults ≡ length (faults_for (source_of deck.now)) }
    ensures faults { report.new.faults ≡ report.old.faults }
    ensures text { OnOk result (report.new.text.items
        ≡ report.old.text.items ++ data_by with_data (faults_for (source_of deck.now)) deck.now) }
{
    if !with_data || report.faults > 0 {
        return Ok(());
    }
    let listed = cards_behind(alloc, deck)?;
    report.text.extend_from_slice(&listed)
}

/// What is printed of the source of a deck.
fn shown(alloc: Global, deck: &Deck, showing: Showing) -> Result<Report, AllocError>
    ensures text { IfOk result (λ report.
        report.text.items ≡ shown_of showing.width showing.with_data deck.now) }
    ensures faults { IfOk result (λ report.
        report.faults ≡ length (faults_for (source_of deck.now))) }
{
    let mut report = Report::of(alloc, deck, showing.width)?;
    push_data(alloc, &mut report, showing.with_data, deck)?;
    Ok(report)
}

/// Prints a source with its code and names, or its faults.
pub(crate) fn show_source<W: Write, E: Write>(
    process: &mut Process<W, E>,
    path: &str,
    showing: Showing,
) -> Result<Status, Undone> {
    let deck = process.deck_at(path)?;
    let report = shown(process.alloc(), &deck, showing)?;
    process.print(&report.text, status_if(report.faults == 0))
}
