//! The report of a source.

ghost use Rattle.std.specs.Prelude.{◌≡◌, ◌++◌, length, flat_map, IfOk, OnOk};
ghost use Rattle.autocoder_layout.specs.Source.{source_of};
ghost use Rattle.autocoder.specs.Programs.{IsFaulty};
ghost use Rattle.source_reports.specs.{
  Blocks.{block},
  Reports.{faults_for, text_of_faults, text_for},
};

use crate::blocks::{push_block, push_sum};
use crate::source_columns::push_notice;
use autocoder::{Faults, Faulty, assemble};
use autocoder_layout::{CardFault, Layout, source_of};
use autocoder_listings::{Width, listing_in};
use cards::{Card, Deck};
use std::alloc::{AllocError, Global};

/// What is said of a source.
#[derive(Drop)]
pub struct Report {
    /// The listing with code, or the faults with their sum: lines of glyphs, each with a line feed.
    pub text: Vec<u8>,
    /// How many faults there are; with none the text is the listing.
    pub faults: usize,
}

/// Adds the blocks of a source's faults.
fn push_blocks(
    alloc: Global,
    text: &mut Vec<u8>,
    layout: &Layout,
    source: &[Card],
    faults: &[CardFault],
) -> Result<(), AllocError>
    ensures { OnOk result (text.new.items
        ≡ text.old.items ++ flat_map (block layout.now source.now) faults.now) }
{
    for fault in faults {
        push_block(alloc, text, layout, source, *fault)?;
    }
    Ok(())
}

/// The text of the faults of a deck's source: what is told of the source as a whole, a block for
/// each fault, and the line of their sum.
#[tactic(auto, unfolding(crate::specs::Reports::text_of_faults))]
fn text_of_faults(alloc: Global, deck: &Deck, faulty: &Faulty) -> Result<Vec<u8>, AllocError>
    requires { IsFaulty (source_of deck.now) faulty.now }
    ensures { IfOk result (λ text.
        text.items ≡ text_of_faults (source_of deck.now) faulty.now.faults.items) }
{
    let source = source_of(deck.cards());
    let mut text = Vec::new(alloc);
    push_notice(&mut text, source)?;
    push_blocks(alloc, &mut text, &faulty.layout, source, &faulty.faults)?;
    push_sum(&mut text, &faulty.faults, source.len())?;
    Ok(text)
}

impl Report {
    /// Returns the report of the source that a deck begins with: its listing with code in a width,
    /// or else each of its faults in words. Fails only if there is no memory.
    #[tactic(auto, unfolding(crate::specs::Reports::text_for))]
    pub fn of(alloc: Global, deck: &Deck, width: Width) -> Result<Report, AllocError>
        ensures text { IfOk result (λ report.
            report.text.items ≡ text_for width (source_of deck.now)) }
        ensures faults { IfOk result (λ report.
            report.faults ≡ length (faults_for (source_of deck.now))) }
    {
        match assemble(alloc, deck) {
            Ok(program) => {
                let text = listing_in(alloc, deck, &program, width)?;
                Ok(Report { text, faults: 0 })
            }
            Err(Faults::Source(faulty)) => {
                let text = text_of_faults(alloc, deck, &faulty)?;
                let faults = faulty.faults.len();
                Ok(Report { text, faults })
            }
            Err(Faults::NoMemory) => Err(AllocError),
        }
    }
}
