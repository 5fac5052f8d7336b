//! Decks as the texts that SimH's IBM 1401 reads and punches.

ghost use Rattle.std.specs.{
  Prelude.{◌≡◌, ◌==◌, ◌<◌, ◌++◌, ◌∷◌, length, position, IfOk, OnOk},
  Str.Lines.{lines, strip_carriage_return},
};
ghost use Rattle.card_forms.specs.SimhTexts.{deck_line_of, deck_text_of, simh_line_of, simh_text_of};

use crate::signs::{filled, simh_glyph, simh_sign};
use cards::{COLUMNS, Card, LINE_FEED};
use std::alloc::{AllocError, Global};

/// The place of the first line feed.
pub(crate) fn feed_place(text: &[u8]) -> Option<usize>
    ensures { result ≡ position (λ byte. byte == 10) text.now }
{
    text.iter().position(|byte| *byte == LINE_FEED)
}

/// A line without the carriage return at its end.
fn without_return(line: &[u8]) -> &[u8]
    ensures { result.now ≡ strip_carriage_return line.now }
{
    match line.split_last() {
        Some((b'\r', before)) => before,
        _ => line,
    }
}

/// The first line of a text, and the bytes behind its end.
fn split_line(text: &[u8]) -> (&[u8], &[u8])
    requires { 0 < length text.now }
    ensures line { lines text.now ≡ result.0.now ∷ lines result.1.now }
    ensures shorter { length result.1.now < length text.now }
{
    match feed_place(text) {
        Some(place) => (without_return(&text[..place]), &text[place + 1..]),
        None => (text, &[]),
    }
}

/// Adds the line of a deck text for which a line stands.
fn push_deck_line(text: &mut Vec<u8>, line: &[u8]) -> Result<(), AllocError>
    ensures { OnOk result (text.new.items ≡ text.old.items ++ deck_line_of line.now) }
{
    for &sign in line {
        text.push(simh_glyph(sign))?;
    }
    for _blank in 0..COLUMNS.saturating_sub(line.len()) {
        text.push(b' ')?;
    }
    text.push(LINE_FEED)?;
    Ok(())
}

/// The deck text for which a text stands.
#[tactic(auto, unfolding(crate::specs::SimhTexts::deck_text_of))]
pub(crate) fn deck_text(alloc: Global, text: &[u8]) -> Result<Vec<u8>, AllocError>
    ensures { IfOk result (λ deck. deck.items ≡ deck_text_of text.now) }
{
    let mut deck = Vec::new(alloc);
    let mut rest = text;
    while !rest.is_empty() {
        let (line, behind) = split_line(rest);
        push_deck_line(&mut deck, line)?;
        rest = behind;
    }
    Ok(deck)
}

/// Adds the line that is punched of a card.
fn push_line(text: &mut Vec<u8>, card: &Card) -> Result<(), AllocError>
    ensures { OnOk result (text.new.items ≡ text.old.items ++ simh_line_of card.now) }
{
    for code in filled(card) {
        text.push(simh_sign(*code))?;
    }
    text.push(LINE_FEED)?;
    Ok(())
}

/// The text that is punched of cards.
pub(crate) fn simh_text(alloc: Global, cards: &[Card]) -> Result<Vec<u8>, AllocError>
    ensures { IfOk result (λ text. text.items ≡ simh_text_of cards.now) }
{
    let mut text = Vec::new(alloc);
    for card in cards {
        push_line(&mut text, card)?;
    }
    Ok(text)
}
