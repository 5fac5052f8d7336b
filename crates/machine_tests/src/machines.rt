//! The decks and units of the sheets' machines.

use crate::storage::card_of;
use cards::{Deck, DeckFault};
use std::alloc::Global;
use units::{Carriage, Counts, Hopper, Pocket, Printer, Profile, Punch, Switches, Units};

/// The loading cards of a program that prints each data card, until the last one.
const LIST_CARDS: &str = "\
,008015,022029,036040,047054,061068,072)008015)022029)036036N0000001040
/332/,0011M0802802B360A                L023355,337338,342343,3503511040
B342.                                  L006361,360361N000000N0000001040
                                       /333080
";

/// Adds the loading cards above.
fn push_list(deck: &mut Deck) -> Result<(), DeckFault> {
    for card in LIST_CARDS.lines() {
        deck.push(card_of(card))?;
    }
    Ok(())
}

/// The deck of these cards, with semicolons between them. The word `list` represents the loading
/// cards above.
pub(crate) fn deck_of(alloc: Global, cards: &str) -> Result<Deck, DeckFault> {
    let mut deck = Deck::empty(alloc);
    for card in cards.split(';') {
        if card == "list" {
            push_list(&mut deck)?;
        } else {
            deck.push(card_of(card))?;
        }
    }
    Ok(deck)
}

/// Units with stacker selection that have made nothing, with a deck whose first `taken` cards were
/// read.
pub(crate) fn new_units(alloc: Global, deck: Deck, taken: u16, switches: Switches) -> Units {
    Units {
        hopper: Hopper { deck, taken },
        before: Counts { cards: 0, lines: 0 },
        punch: Punch {
            cards: Vec::new(alloc),
            chosen: Pocket::Normal,
            profile: Profile::Selecting,
        },
        printer: Printer {
            lines: Vec::new(alloc),
            carriage: Carriage::at_the_top(),
        },
        switches,
    }
}
