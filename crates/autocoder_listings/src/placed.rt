//! A card of a source with the code that it places, and its lines.

ghost use Rattle.std.specs.Prelude.{◌≡◌, ◌++◌, length, IfOk, OnOk};
ghost use Rattle.autocoder.specs.Listing.{card_line};
ghost use Rattle.autocoder_listings.specs.{
  Coded.{counted_line, first_line, lines_with_code},
  Listing.{lines_in},
};

use crate::rows::{push_further_lines, push_row, row_at};
use crate::widths::Width;
use autocoder::{card_line, push_line, push_number};
use autocoder_layout::{Cell, Slot};
use cards::Card;
use std::alloc::{AllocError, Global};

/// A card of a source, with what is shown of it.
#[derive(Clone, Copy)]
pub(crate) struct Placed<'a> {
    /// Its number.
    pub(crate) number: u64,
    /// What it defines and where it stands.
    pub(crate) slot: &'a Slot,
    /// The card.
    pub(crate) card: &'a Card,
    /// The characters that it places.
    pub(crate) cells: &'a [Cell],
}

impl Placed<'_> {
    /// The line of the card without code.
    fn card_line(&self, alloc: Global) -> Result<Vec<u8>, AllocError>
        ensures { IfOk result (λ line. line.items
            ≡ card_line self.now.number self.now.slot.now self.now.card.now) }
    {
        card_line(alloc, self.number, self.slot, self.card)
    }

    /// The line of the card with the number of characters that it places.
    #[tactic(auto, unfolding(crate::specs::Coded::counted_line))]
    fn counted_line(&self, alloc: Global) -> Result<Vec<u8>, AllocError>
        ensures { IfOk result (λ line. line.items ≡ counted_line self.now.number
            self.now.slot.now self.now.card.now (length self.now.cells.now)) }
    {
        let mut line = self.card_line(alloc)?;
        line.push(b' ')?;
        push_number(&mut line, b' ', 5, self.cells.len() as u64)?;
        line.push(b' ')?;
        Ok(line)
    }

    /// The line of the card, with the first row of the code that it places.
    #[tactic(auto, unfolding(crate::specs::Coded::first_line))]
    pub(crate) fn first_line(&self, alloc: Global) -> Result<Vec<u8>, AllocError>
        ensures { IfOk result (λ line. line.items ≡ first_line self.now.number
            self.now.slot.now self.now.card.now self.now.cells.now) }
    {
        if self.cells.is_empty() {
            return self.card_line(alloc);
        }
        let mut line = self.counted_line(alloc)?;
        push_row(&mut line, row_at(self.cells, 0))?;
        Ok(line)
    }

    /// Adds the lines of the card, with the code behind it.
    #[tactic(auto, unfolding(crate::specs::Coded::lines_with_code))]
    fn push_wide(&self, alloc: Global, text: &mut Vec<u8>) -> Result<(), AllocError>
        ensures { OnOk result (text.new.items ≡ text.old.items ++ lines_with_code
            self.now.number self.now.slot.now self.now.card.now self.now.cells.now) }
    {
        let line = self.first_line(alloc)?;
        push_line(text, &line)?;
        push_further_lines(alloc, text, self.cells)
    }

    /// Adds the lines of the card.
    #[tactic(auto, unfolding(crate::specs::Listing::lines_in))]
    pub(crate) fn push(
        &self,
        alloc: Global,
        text: &mut Vec<u8>,
        width: Width,
    ) -> Result<(), AllocError>
        ensures { OnOk result (text.new.items ≡ text.old.items ++ lines_in width
            self.now.number self.now.slot.now self.now.card.now self.now.cells.now) }
    {
        match width {
            Width::Wide => self.push_wide(alloc, text),
            Width::Narrow => self.push_narrow(alloc, text),
        }
    }
}
