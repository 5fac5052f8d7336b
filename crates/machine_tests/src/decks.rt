//! The greatest deck.
//!
//! What deck texts and punch files hold, and their faults, is shown by the sheets of the workbench
//! and the decks of `cases/`, which the programs read.

use crate::storage::card_of;
use cards::{Deck, DeckFault};
use std::alloc::Global;
use std::test::Fail;

/// Whether the card after two thousand is refused as one too many, and no card before it.
fn refuses_after_two_thousand(alloc: Global) -> Result<bool, DeckFault> {
    let mut deck = Deck::empty(alloc);
    for _ in 0..2000 {
        deck.push(card_of(""))?;
    }
    let is_refused = deck.push(card_of("")) == Err(DeckFault::TooManyCards);
    Ok(is_refused && deck.cards().len() == 2000)
}

#[test]
fn two_thousand_cards_and_no_more(rt: HostRuntime) -> Result<(), Fail> {
    assert!(rt; refuses_after_two_thousand(rt.alloc())?);
    assert!(rt; DeckFault::TooManyCards.number() == 33);
    assert!(rt; DeckFault::NoMemory.number() == 1);
    Ok(())
}
