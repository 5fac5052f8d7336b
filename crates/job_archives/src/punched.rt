//! Punched cards as a deck text.

ghost use Rattle.std.specs.Prelude.{◌≡◌, ◌++◌, ◌∷◌, [], IfOk, OnOk};
ghost use Rattle.cards.specs.Files.{text_of};

use cards::{Card, Deck, write_text};
use std::alloc::{AllocError, Global};

/// The deck text of one card.
fn text_of_card(alloc: Global, card: &Card) -> Result<Vec<u8>, AllocError>
    ensures { IfOk result (λ text. text.items ≡ text_of (card.now ∷ [])) }
{
    let mut deck = Deck::with_room(alloc, 1)?;
    match deck.push(Card(card.0)) {
        Ok(()) => write_text(alloc, &deck),
        Err(_) => Err(AllocError),
    }
}

/// The deck text of some cards, which may be more than a deck has. Fails only if there is no
/// memory.
pub(crate) fn text_of_cards(alloc: Global, cards: &[Card]) -> Result<Vec<u8>, AllocError>
    ensures { IfOk result (λ text. text.items ≡ text_of cards.now) }
{
    let mut out = Vec::new(alloc);
    for card in cards {
        let line = text_of_card(alloc, card)?;
        out.extend_from_slice(&line)?;
    }
    Ok(out)
}
