//! The cards of a source in 80 columns, with the code of each below it.

ghost use Rattle.std.specs.Prelude.{◌≡◌, ◌++◌, IfOk, OnOk};
ghost use Rattle.autocoder.specs.Listing.{glyphs_of, line_text};
ghost use Rattle.autocoder_listings.specs.Narrow.{without_card, is_placed, further_rows, lines_below, narrow_lines};

use crate::placed::Placed;
use crate::rows::{further_line, rows_for};
use autocoder::{fills, push_glyphs, push_line};
use autocoder_layout::{Cell, Slot};
use cards::Card;
use std::alloc::{AllocError, Global};

/// The columns of a line of the wide listing before its card and the blank in front of it.
const BEFORE_CARD: usize = 10;

/// The columns of a line of the wide listing up to the end of its card.
const UP_TO_CARD: usize = 91;

/// A line of the wide listing without its card.
fn without_card(alloc: Global, line: &[u8]) -> Result<Vec<u8>, AllocError>
    ensures { IfOk result (λ shorter. shorter.items ≡ without_card line.now) }
{
    let mut shorter = Vec::from_slice(alloc, &line[..BEFORE_CARD.min(line.len())])?;
    shorter.extend_from_slice(&line[UP_TO_CARD.min(line.len())..])?;
    Ok(shorter)
}

/// Adds a line of the wide listing without its card.
fn push_without_card(alloc: Global, text: &mut Vec<u8>, line: &[u8]) -> Result<(), AllocError>
    ensures { OnOk result (text.new.items
        ≡ text.old.items ++ line_text (without_card line.now)) }
{
    let shorter = without_card(alloc, line)?;
    push_line(text, &shorter)
}

/// Adds the columns of a card.
fn push_columns(alloc: Global, text: &mut Vec<u8>, card: &Card) -> Result<(), AllocError>
    ensures { OnOk result (text.new.items ≡ text.old.items ++ line_text (glyphs_of card.now.0)) }
{
    let mut line = Vec::new(alloc);
    push_glyphs(&mut line, &card.0)?;
    push_line(text, &line)
}

/// Adds the lines of the rows after the first.
fn push_further_rows(alloc: Global, text: &mut Vec<u8>, cells: &[Cell]) -> Result<(), AllocError>
    ensures { OnOk result (text.new.items ≡ text.old.items ++ further_rows cells.now) }
{
    for number in 1..rows_for(cells.len()) {
        let line = further_line(alloc, cells, number)?;
        push_without_card(alloc, text, &line)?;
    }
    Ok(())
}

/// Whether a card has a place or places characters.
fn is_placed(slot: &Slot, cells: &[Cell]) -> bool
    ensures { result ≡ is_placed slot.now cells.now }
{
    if cells.is_empty() {
        return fills(slot.role);
    }
    true
}

impl Placed<'_> {
    /// Adds the lines below the card in 80 columns.
    #[tactic(auto, unfolding(crate::specs::Narrow::lines_below))]
    fn push_below(&self, alloc: Global, text: &mut Vec<u8>) -> Result<(), AllocError>
        ensures { OnOk result (text.new.items ≡ text.old.items ++ lines_below
            self.now.number self.now.slot.now self.now.card.now self.now.cells.now) }
    {
        if !is_placed(self.slot, self.cells) {
            return Ok(());
        }
        let line = self.first_line(alloc)?;
        push_without_card(alloc, text, &line)?;
        push_further_rows(alloc, text, self.cells)
    }

    /// Adds the lines of the card, with its code below it.
    #[tactic(auto, unfolding(crate::specs::Narrow::narrow_lines))]
    pub(crate) fn push_narrow(&self, alloc: Global, text: &mut Vec<u8>) -> Result<(), AllocError>
        ensures { OnOk result (text.new.items ≡ text.old.items ++ narrow_lines
            self.now.number self.now.slot.now self.now.card.now self.now.cells.now) }
    {
        push_columns(alloc, text, self.card)?;
        self.push_below(alloc, text)
    }
}
