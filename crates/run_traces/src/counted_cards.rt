//! The cards of a source with how often each was attempted.

ghost use Rattle.std.specs.Prelude.{◌≡◌, ◌++◌, ℕ, OnOk};
ghost use Rattle.machine.specs.Run.{State};
ghost use Rattle.run_traces.specs.{
  CountedCards.{card_counted, cards_counted, count_field},
  Profiles.{IsCounted, began_at},
};

use crate::counting::Begun;
use crate::names::Names;
use autocoder::{push_fillers, push_number};
use autocoder_layout::Slot;
use card_forms::image_of;
use card_tools::push_numbered;
use cards::{Card, LINE_FEED};
use std::alloc::AllocError;

/// How many attempts began at an address.
fn count_at(places: &[Begun], address: u32) -> u32
    ensures { (m : State) (attempts : ℕ) → IsCounted m attempts places.now →
        result ≡ began_at m attempts address }
{
    let index = address as usize;
    if index < places.len() {
        places[index].count
    } else {
        0
    }
}

/// Adds how many attempts began at a card's place.
fn push_count(line: &mut Vec<u8>, places: &[Begun], slot: &Slot) -> Result<(), AllocError>
    ensures { OnOk result ((m : State) (attempts : ℕ) → IsCounted m attempts places.now →
        line.new.items ≡ line.old.items ++ count_field (began_at m attempts) slot.now) }
{
    if slot.role.is_instruction() {
        let count = count_at(places, slot.before);
        push_number(line, b' ', 8, u64::from(count))
    } else {
        push_fillers(line, b' ', 8)
    }
}

/// Adds the line of a card.
#[tactic(auto, unfolding(crate::specs::CountedCards::card_counted))]
fn push_card(
    text: &mut Vec<u8>,
    places: &[Begun],
    number: usize,
    slot: &Slot,
    card: &Card,
) -> Result<(), AllocError>
    ensures { OnOk result ((m : State) (attempts : ℕ) → IsCounted m attempts places.now →
        text.new.items
        ≡ text.old.items ++ card_counted (began_at m attempts) number slot.now card.now) }
{
    push_count(text, places, slot)?;
    text.push(b' ')?;
    push_numbered(text, number, &image_of(card))?;
    text.push(LINE_FEED)?;
    Ok(())
}

/// Adds the lines of cards.
fn push_cards(
    text: &mut Vec<u8>,
    places: &[Begun],
    cards: &[Card],
    slots: &[Slot],
) -> Result<(), AllocError>
    ensures { OnOk result ((m : State) (attempts : ℕ) → IsCounted m attempts places.now →
        text.new.items
        ≡ text.old.items ++ cards_counted (began_at m attempts) 1 cards.now slots.now) }
{
    for i in 0..cards.len() {
        if i >= slots.len() {
            return Ok(());
        }
        push_card(text, places, i + 1, &slots[i], &cards[i])?;
    }
    Ok(())
}

/// Adds the lines of the cards of a source.
pub(crate) fn push_source(
    text: &mut Vec<u8>,
    places: &[Begun],
    names: &Names,
) -> Result<(), AllocError>
    ensures { OnOk result ((m : State) (attempts : ℕ) → IsCounted m attempts places.now →
        text.new.items ≡ text.old.items
        ++ cards_counted (began_at m attempts) 1 names.now.cards names.now.slots) }
{
    push_cards(text, places, names.cards(), names.slots())
}
