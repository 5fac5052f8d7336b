//! The lines of a film's text before its changes.

ghost use Rattle.std.specs.Prelude.{◌≡◌, ◌+◌, ◌-◌, ◌≤◌, ◌++◌, length, option_copied, slice_get, OnOk};
ghost use Rattle.autocoder.specs.Listing.{fills};
ghost use Rattle.films.specs.Films.{deck_line, deck_lines, named_lines, place_word, size_lines, source_line, source_lines};

use crate::signs::{Surface, push_signs};
use autocoder_layout::{Role, Slot};
use cards::{Card, LINE_FEED};
use run_traces::Names;
use std::alloc::AllocError;
use texts::{push_decimal, push_number_between};

/// Adds the lines of a storage's size, and of how many instructions came before the first frame.
pub(crate) fn push_size(out: &mut Vec<u8>, size: u16, made: u32) -> Result<(), AllocError>
    ensures { OnOk result (out.new.items ≡ out.old.items ++ size_lines size made) }
{
    push_number_between(out, b"Z ", size as usize, b"\nN ")?;
    push_number_between(out, b"", made as usize, b"\n")
}

/// Whether a card of this role fills positions.
fn fills(role: Role) -> bool
    ensures { result ≡ fills role }
{
    match role {
        Role::Instruction => true,
        Role::Constant => true,
        _ => false,
    }
}

/// Adds the position of a card's first character, if it fills positions.
fn push_place(out: &mut Vec<u8>, slot: &Slot) -> Result<(), AllocError>
    ensures { OnOk result (out.new.items ≡ out.old.items ++ place_word slot.now) }
{
    if fills(slot.role) {
        push_decimal(out, slot.before as usize)
    } else {
        out.extend_from_slice(b"-")
    }
}

/// Adds the line of a card of a source.
#[tactic(auto, unfolding(crate::specs::Films::source_line))]
fn push_source_line(out: &mut Vec<u8>, slot: &Slot, card: &Card) -> Result<(), AllocError>
    ensures { OnOk result (out.new.items ≡ out.old.items ++ source_line slot.now card.now) }
{
    out.extend_from_slice(b"S ")?;
    push_place(out, slot)?;
    out.extend_from_slice(b" ")?;
    push_signs(out, &card.0, Surface::OnCard)?;
    out.push(LINE_FEED)?;
    Ok(())
}

/// Adds the lines of the cards of a source, with their slots.
fn push_source(out: &mut Vec<u8>, cards: &[Card], slots: &[Slot]) -> Result<(), AllocError>
    ensures { OnOk result (out.new.items
        ≡ out.old.items ++ source_lines cards.now slots.now) }
{
    for i in 0..cards.len() {
        if i >= slots.len() {
            return Ok(());
        }
        push_source_line(out, &slots[i], &cards[i])?;
    }
    Ok(())
}

/// Adds the lines of a source, where one is given.
pub(crate) fn push_names(out: &mut Vec<u8>, names: Option<&Names>) -> Result<(), AllocError>
    ensures { OnOk result (out.new.items
        ≡ out.old.items ++ named_lines (option_copied names.entry)) }
{
    match names {
        None => Ok(()),
        Some(names) => push_source(out, names.cards(), names.slots()),
    }
}

/// Adds the line of a card of a deck with this number, if the deck has it.
fn push_deck_line(out: &mut Vec<u8>, number: usize, card: Option<&Card>) -> Result<(), AllocError>
    ensures { OnOk result (out.new.items
        ≡ out.old.items ++ deck_line number (option_copied card.entry)) }
{
    let Some(card) = card else {
        return Ok(());
    };
    push_number_between(out, b"R ", number, b" ")?;
    push_signs(out, &card.0, Surface::OnCard)?;
    out.push(LINE_FEED)?;
    Ok(())
}

/// The card of a deck with this number, from 0, if the deck has it.
fn card_at(deck: &[Card], number: usize) -> Option<&Card>
    ensures { option_copied result ≡ slice_get deck.now number }
{
    deck.get(number)
}

/// Adds the lines of so many cards of a deck, from the one with this number on, from 1.
pub(crate) fn push_deck(
    out: &mut Vec<u8>,
    deck: &[Card],
    first: u16,
    count: u32,
) -> Result<(), AllocError>
    ensures { OnOk result (out.new.items
        ≡ out.old.items ++ deck_lines deck.now first count) }
{
    for place in 0..count {
        let number = first as usize + place as usize;
        push_deck_line(out, number, card_at(deck, number.saturating_sub(1)))?;
    }
    Ok(())
}
