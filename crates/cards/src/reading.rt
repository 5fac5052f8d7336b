//! Reading a deck from its text or its punch file.

ghost use Rattle.std.specs.Prelude.{◌≡◌, ◌≢◌, ◌<◌, ◌+◌, ◌++◌, List, IfOk, IfErr, length};
ghost use Rattle.cards.specs.{
  Decks.{IsCard, IsDeck},
  Faults.{IsLineFault, IsFault, IsRead},
  Files.{file_of, line_of, text_of, punch_file_of},
  declared.decks.Card.{Card},
};

use crate::decks::{COLUMNS, Card, Deck, LARGEST_DECK};
use crate::faults::{CardError, CardFault, OUT_OF_MEMORY};
use crate::forms::{Form, split_column, split_line_feed};
use crate::lines::card_of_line;
use bcd::Code;
use std::alloc::Global;

/// Reads a deck from its text: eighty glyphs and a line feed a card.
///
/// The error is the first fault in reading order: 30, 31, 33, or 1 if there is no memory.
pub fn read_text(alloc: Global, text: &[u8]) -> Result<Deck, CardFault>
    ensures deck { IfOk result (λ deck. IsDeck deck × (text.now ≡ text_of deck)) }
    ensures only { (deck : List Card) → IsDeck deck → text.now ≡ text_of deck → IsRead result deck }
    ensures fault { IfErr result (λ fault. IsFault Form.Text text.now fault) }
{
    read(alloc, Form::Text, text)
}

/// Reads a deck from its punch file: three hexadecimal digits a column and a line feed a card.
///
/// The error is the first fault in reading order: 30, 32, 33, or 1 if there is no memory.
pub fn read_punched(alloc: Global, file: &[u8]) -> Result<Deck, CardFault>
    ensures deck { IfOk result (λ deck. IsDeck deck × (file.now ≡ punch_file_of deck)) }
    ensures only { (deck : List Card) → IsDeck deck → file.now ≡ punch_file_of deck →
        IsRead result deck }
    ensures fault { IfErr result (λ fault. IsFault Form.Punched file.now fault) }
{
    read(alloc, Form::Punched, file)
}

/// Reads the deck of a file of this form. Memory is taken once, for as many cards as have room in
/// the file.
fn read(alloc: Global, form: Form, bytes: &[u8]) -> Result<Deck, CardFault>
    ensures deck { IfOk result (λ deck. IsDeck deck × (bytes.now ≡ file_of form deck)) }
    ensures fault { IfErr result (λ fault. IsFault form bytes.now fault) }
{
    let room = (bytes.len() / form.line_length()).min(LARGEST_DECK);
    let Ok(mut cards) = Vec::with_capacity(alloc, room) else {
        return Err(OUT_OF_MEMORY);
    };
    let mut rest = bytes;
    while !rest.is_empty() {
        let read = cards.len();
        let number = read as u16 + 1;
        if read == LARGEST_DECK {
            return Err(CardFault::behind(0, number, CardError::TooManyCards));
        }
        // `?` has no generated proof here, because a card is returned beside a slice.
        let (card, behind) = match split_card(form, rest, number) {
            Ok(found) => found,
            Err(fault) => return Err(fault),
        };
        cards.push_reserved(card);
        rest = behind;
    }
    Ok(Deck::of(cards))
}

/// Returns the first card of the bytes, and the bytes after its line feed. A fault carries the
/// card's number.
#[inline(always)]
fn split_card(form: Form, bytes: &[u8], number: u16) -> Result<(Card, &[u8]), CardFault>
    ensures line { IfOk result (λ found. IsCard found.0
        × (bytes.now ≡ line_of form found.0 ++ found.1.now)) }
    ensures card { IfErr result (λ fault. fault.card ≡ number) }
    ensures fault { IfErr result (λ fault. IsLineFault form bytes.now fault.column fault.error) }
{
    let length = form.line_length();
    if bytes.len() < length {
        return look_through(form, bytes, number);
    }
    let (line, behind) = bytes.split_at(length);
    match card_of_line(form, line) {
        Some(card) => Ok((card, behind)),
        None => look_through(form, bytes, number),
    }
}

/// The same, column by column, so that the first that is none is found.
#[cold]
#[inline(never)]
fn look_through(form: Form, bytes: &[u8], number: u16) -> Result<(Card, &[u8]), CardFault>
    ensures line { IfOk result (λ found. IsCard found.0
        × (bytes.now ≡ line_of form found.0 ++ found.1.now)) }
    ensures card { IfErr result (λ fault. fault.card ≡ number) }
    ensures fault { IfErr result (λ fault. IsLineFault form bytes.now fault.column fault.error) }
{
    let mut codes = [Code::blank(); COLUMNS];
    let mut rest = bytes;
    for index in 0..COLUMNS {
        let (code, behind) = match split_column(form, rest) {
            Ok(found) => found,
            Err(error) => return Err(CardFault::behind(index, number, error)),
        };
        codes[index] = code;
        rest = behind;
    }
    match split_line_feed(rest) {
        Some(behind) => Ok((Card(codes), behind)),
        None => Err(CardFault::behind(COLUMNS, number, CardError::Length)),
    }
}
