//! A card, and a deck of them.

ghost use Rattle.std.specs.Prelude.{◌≡◌, ◌<◌, ◌≤◌, ◌↔◌, [], ◌∷◌, ◌++◌, length, IfOk, OnOk, OnErr, IsErrOf};
ghost use Rattle.cards.specs.Decks.{largest_deck};

use crate::faults::DeckFault;
use bcd::Code;
use std::alloc::{AllocError, Global};
use std::marker::Model;

/// The number of columns of a card.
pub const COLUMNS: usize = 80;

/// The greatest number of cards of a deck.
pub const LARGEST_DECK: usize = 2000;

/// A card: the characters of its columns, in order from column 1.
#[derive(Clone, Copy, Debug, PartialEq, Eq)]
pub struct Card(pub [Code; COLUMNS]);

/// A deck: at most 2,000 cards, in order.
#[derive(Debug, Drop)]
pub struct Deck {
    cards: Vec<Card>,
}

impl Model for Deck {
    ghost use Rattle.std.specs.Prelude.{List, ◌≤◌, length};
    ghost use Rattle.cards.specs.declared.decks.Card.{Card};
    ghost use Rattle.cards.specs.Decks.{largest_deck};

    ghost Value = { List Card };

    ghost view = { λ deck. deck.cards.items };

    ghost invariant = { λ deck. length deck.cards.items ≤ largest_deck };
}

impl Deck {
    /// Returns a deck without cards. It takes no memory.
    pub fn empty(alloc: Global) -> Self
        ensures { result ≡ [] }
    {
        Deck {
            cards: Vec::new(alloc),
        }
    }

    /// Returns a deck without cards, with room for so many or for all that a deck may have. Fails
    /// only if there is no memory.
    pub fn with_room(alloc: Global, cards: usize) -> Result<Self, AllocError>
        ensures { IfOk result (λ deck. deck ≡ []) }
    {
        let cards = Vec::with_capacity(alloc, cards.min(LARGEST_DECK))?;
        Ok(Deck { cards })
    }

    /// Returns a copy of the deck, in memory of this allocator. Fails only if there is none.
    pub fn copy(&self, alloc: Global) -> Result<Self, AllocError>
        ensures { IfOk result (λ copy. copy ≡ self.now) }
    {
        let cards = Vec::from_slice(alloc, &self.cards)?;
        Ok(Deck { cards })
    }

    /// The deck of these cards.
    pub(crate) fn of(cards: Vec<Card>) -> Self
        requires { length cards.items ≤ largest_deck }
        ensures { result ≡ cards.items }
    {
        Deck { cards }
    }

    /// The cards in order.
    pub fn cards(&self) -> &[Card]
        ensures cards { result.now ≡ self.now }
        ensures limit { length result.now ≤ largest_deck }
    {
        &self.cards
    }

    /// Adds a card at the end. Fails with `TooManyCards` at 2,000 cards and with `NoMemory` if
    /// there is no memory; then the deck is unchanged.
    pub fn push(&mut self, card: Card) -> Result<(), DeckFault>
        ensures ok { OnOk result (self.new ≡ self.old ++ card ∷ []) }
        ensures full { IsErrOf result DeckFault.TooManyCards ↔ (length self.old ≡ largest_deck) }
        ensures err { OnErr result (self.new ≡ self.old) }
    {
        if self.cards.len() == LARGEST_DECK {
            return Err(DeckFault::TooManyCards);
        }
        self.cards.try_reserve(1)?;
        self.cards.push_reserved(Card(card.0));
        Ok(())
    }

    /// Adds cards at the end, in order. Fails with `TooManyCards` if there would be over 2,000 and
    /// with `NoMemory` if there is no memory; then the deck is unchanged.
    pub fn push_all(&mut self, cards: &[Card]) -> Result<(), DeckFault>
        ensures ok { OnOk result (self.new ≡ self.old ++ cards.now) }
        ensures full { IsErrOf result DeckFault.TooManyCards
            ↔ (largest_deck < length (self.old ++ cards.now)) }
        ensures err { OnErr result (self.new ≡ self.old) }
    {
        if cards.len() > LARGEST_DECK - self.cards.len() {
            return Err(DeckFault::TooManyCards);
        }
        self.cards.extend_from_slice(cards)?;
        Ok(())
    }
}
