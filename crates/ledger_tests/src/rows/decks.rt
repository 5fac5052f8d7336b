//! The deck of the machines here.

use cards::{COLUMNS, Deck, read_text};
use std::alloc::Global;
use std::test::Fail;

/// A program and two data cards, each card without its trailing blanks. The program chooses pocket
/// 4; then it reads a card, prints and punches it, punches it once more and chooses pocket 8, until
/// it has read the last card.
const PUNCHES_EACH_CARD_TWICE: &str = "\
,008015,022029,036040,047054,061068,072)008015)022029)036036N0000001040
,001K41M080280M08018064K8B367AB339.    L036368,337339,340347,3543551040
                                       ,356358,363367,368368/333080
HELLO
WORLD
";

/// The text of the deck, each card with its trailing blanks.
fn deck_text(alloc: Global) -> Result<Vec<u8>, Fail> {
    let mut text = Vec::new(alloc);
    for card in PUNCHES_EACH_CARD_TWICE.lines() {
        text.extend_from_slice(card.as_bytes())?;
        for _ in card.len()..COLUMNS {
            text.push(b' ')?;
        }
        text.push(b'\n')?;
    }
    Ok(text)
}

/// The deck of the program and its two data cards.
pub(crate) fn punching_deck(alloc: Global) -> Result<Deck, Fail> {
    let text = deck_text(alloc)?;
    Ok(read_text(alloc, &text)?)
}
