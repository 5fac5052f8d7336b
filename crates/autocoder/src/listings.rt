//! The listing of a source: its cards and its literals with their places.

ghost use Rattle.std.specs.Prelude.{◌≡◌, ◌≤◌, ◌++◌, length, IfOk, OnOk};
ghost use Rattle.cards.specs.Decks.{largest_deck};
ghost use Rattle.autocoder_layout.specs.{Bounds.{most_literals}, Source.{source_of}};
ghost use Rattle.autocoder.specs.{
  Listing.{literal_line, card_lines, literal_lines, listing_for},
  Programs.{IsProgramOf},
};

use crate::lines::{card_line, push_glyphs, push_line, push_number};
use crate::program::Program;
use autocoder_layout::{Slot, place_after, source_of};
use autocoder_statements::Text;
use bcd::Code;
use cards::{Card, Deck};
use std::alloc::{AllocError, Global};

/// The line of a literal.
#[tactic(auto, unfolding(crate::specs::Listing::literal_line))]
fn literal_line(alloc: Global, place: u64, literal: &[Code]) -> Result<Vec<u8>, AllocError>
    ensures { IfOk result (λ line. line.items ≡ literal_line place literal.now) }
{
    let mut line = Vec::new(alloc);
    line.extend_from_slice(b"LIT  ")?;
    push_number(&mut line, b'0', 5, place)?;
    line.push(b' ')?;
    push_glyphs(&mut line, literal)?;
    Ok(line)
}

/// Adds the lines of cards.
fn push_cards(
    alloc: Global,
    text: &mut Vec<u8>,
    cards: &[Card],
    slots: &[Slot],
) -> Result<(), AllocError>
    requires { length cards.now ≤ largest_deck }
    ensures { OnOk result (text.new.items ≡ text.old.items ++ card_lines 1 cards.now slots.now) }
{
    for i in 0..cards.len() {
        if i >= slots.len() {
            return Ok(());
        }
        let line = card_line(alloc, i as u64 + 1, &slots[i], &cards[i])?;
        push_line(text, &line)?;
    }
    Ok(())
}

/// Adds the lines of literals that are placed one after the other from a place on.
fn push_literals(
    alloc: Global,
    text: &mut Vec<u8>,
    place: u32,
    literals: &[Text],
) -> Result<(), AllocError>
    requires { length literals.now ≤ most_literals }
    ensures { OnOk result (text.new.items ≡ text.old.items ++ literal_lines place literals.now) }
{
    let mut here = place as u64;
    for literal in literals {
        let codes = literal.characters();
        let line = literal_line(alloc, here, codes)?;
        push_line(text, &line)?;
        here += codes.len() as u64;
    }
    Ok(())
}

/// Returns the listing of a deck's source, given the program that it is assembled to. It has a line
/// for each card of the source, with its number and the leftmost position that it fills, and after
/// them a line for each literal. Each line ends with a line feed. Fails only if there is no memory.
pub fn listing(alloc: Global, deck: &Deck, program: &Program) -> Result<Vec<u8>, AllocError>
    requires program { IsProgramOf (source_of deck.now) program.now }
    ensures { IfOk result (λ text. text.items ≡ listing_for deck.now) }
{
    let mut text = Vec::new(alloc);
    let slots = program.slots();
    push_cards(alloc, &mut text, source_of(deck.cards()), slots)?;
    push_literals(alloc, &mut text, place_after(slots), program.literals())?;
    Ok(text)
}
