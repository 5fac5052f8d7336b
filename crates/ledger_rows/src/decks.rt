//! Cards and decks as bytes.

ghost use Rattle.std.specs.Prelude.{◌≡◌, ◌≢◌, ◌++◌, List, ℕ, Some, IfOk, IfSome, IsNone};
ghost use Rattle.cards.specs.{declared.decks.Card.{Card}, Decks.{IsCard, IsDeck}};
ghost use Rattle.ledger_rows.specs.Columns.{deck_bytes};

use crate::codes::{read_codes, write_numbers};
use bcd::Code;
use cards::{COLUMNS, Card, Deck, DeckFault};
use std::alloc::{AllocError, Global};

/// The bytes of a card, one a column.
pub fn card_bytes(card: &Card) -> [u8; COLUMNS]
    ensures bytes { result ≡ card.now.0 }
    ensures card { IsCard card.now }
{
    let mut bytes = [0; COLUMNS];
    write_numbers(&card.0, &mut bytes);
    bytes
}

/// The card of these bytes, if they are a card's.
pub(crate) fn read_card(bytes: &[u8]) -> Option<Card>
    ensures all { (card : Card) → IsCard card → bytes.now ≡ card.0 → result ≡ Some card }
    ensures only { IfSome result (λ card. (card.0 ≡ bytes.now) × IsCard card) }
{
    if bytes.len() != COLUMNS {
        return None;
    }
    let mut codes = [Code::blank(); COLUMNS];
    if !read_codes(bytes, &mut codes) {
        return None;
    }
    Some(Card(codes))
}

/// The first card of the bytes, and the bytes after it.
fn split_card(bytes: &[u8]) -> Option<(Card, &[u8])>
    ensures found { IfSome result (λ found. IsCard found.0
        × (bytes.now ≡ found.0.0 ++ found.1.now)) }
    ensures missing { IsNone result → (card : Card) (behind : List ℕ) → IsCard card
        → bytes.now ≢ card.0 ++ behind }
{
    if bytes.len() < COLUMNS {
        return None;
    }
    let (columns, behind) = bytes.split_at(COLUMNS);
    match read_card(columns) {
        Some(card) => Some((card, behind)),
        None => None,
    }
}

/// Returns the bytes of a deck, one card after the other. Fails only if there is no memory.
pub fn deck_bytes(alloc: Global, deck: &Deck) -> Result<Vec<u8>, AllocError>
    ensures bytes { IfOk result (λ bytes. bytes.items ≡ deck_bytes deck.now) }
    ensures deck { IfOk result (λ bytes. IsDeck deck.now) }
{
    let mut bytes = Vec::new(alloc);
    for card in deck.cards() {
        bytes.extend_from_slice(&card_bytes(card))?;
    }
    Ok(bytes)
}

/// Returns the deck of these bytes, or `None` if they are not a deck's. Memory is taken once, for as
/// many cards as have room in the bytes. Fails only if there is no memory.
pub fn read_deck(alloc: Global, bytes: &[u8]) -> Result<Option<Deck>, AllocError>
    ensures all { IfOk result (λ read. (deck : List Card) → IsDeck deck
        → bytes.now ≡ deck_bytes deck → read ≡ Some deck) }
    ensures only { IfOk result (λ read.
        IfSome read (λ deck. (deck_bytes deck ≡ bytes.now) × IsDeck deck)) }
{
    let mut deck = Deck::with_room(alloc, bytes.len() / COLUMNS)?;
    let mut rest = bytes;
    while !rest.is_empty() {
        let Some((card, behind)) = split_card(rest) else {
            return Ok(None);
        };
        match deck.push(card) {
            Ok(()) => {}
            Err(DeckFault::TooManyCards) => return Ok(None),
            Err(DeckFault::NoMemory) => return Err(AllocError),
        }
        rest = behind;
    }
    Ok(Some(deck))
}
