//! The numbers in the columns 73 to 80 of a deck's cards: where they do not rise, and whether they
//! do.

ghost use Rattle.std.specs.{
  Prelude.{◌≡◌, ◌≤◌, ◌<◌, ◌++◌, ◌∷◌, ◌^◌, IfOk, OnOk, length, count_by, decimal, is_some, unwrap_or},
  List.{list_all},
};
ghost use Rattle.card_tools.specs.{
  Checking.{are_numbered, has_number, is_no_rise, is_numbered_or_blank, last_of, number_of, number_on, numbers_rise, told, told_of},
  Numbering.{is_digit},
};

use crate::lines::push_glyphs;
use crate::numbering::{are_blank, number_columns};
use bcd::Code;
use cards::Card;
use std::alloc::{AllocError, Global};
use texts::push_number_between;

/// Returns what is told of the cards whose numbers do not rise: `card 7: 00000060 after 00000070`,
/// with the columns 73 to 80 of the card and of the last one before it that has a number. The
/// number of a card is that with which these columns end; a card on which they end with no digit
/// has none, and is passed over. Fails only if there is no memory.
pub fn check_sequence(alloc: Global, cards: &[Card]) -> Result<Vec<u8>, AllocError>
    ensures { IfOk result (λ text. text.items ≡ told cards.now) }
{
    let mut text = Vec::new(alloc);
    let mut before: &[Code] = &[];
    for (index, card) in cards.iter().enumerate() {
        let columns = number_columns(card);
        push_told(&mut text, before, index + 1, columns)?;
        before = last_of(before, columns);
    }
    Ok(text)
}

/// Returns whether the numbers in the columns 73 to 80 of cards rise: two cards at least have one,
/// each of the others is blank, and each number is higher than the one before it. Fails only if
/// there is no memory.
pub fn numbers_rise(alloc: Global, cards: &[Card]) -> Result<bool, AllocError>
    ensures { IfOk result (λ rise. rise ≡ numbers_rise cards.now) }
{
    let told = check_sequence(alloc, cards)?;
    Ok(are_numbered(cards) && told.is_empty())
}

/// Whether two cards at least have a number in their columns 73 to 80, and the others are blank.
fn are_numbered(cards: &[Card]) -> bool
    ensures { result ≡ are_numbered cards.now }
{
    count_numbered(cards) >= 2 && are_numbered_or_blank(cards)
}

/// How many cards have a number in their columns 73 to 80.
fn count_numbered(cards: &[Card]) -> usize
    ensures { result ≡ count_by (λ card. has_number card) cards.now }
{
    cards.iter().filter(|&card| has_number(card)).count()
}

/// Whether each card has a number there, or is blank.
fn are_numbered_or_blank(cards: &[Card]) -> bool
    ensures { result ≡ list_all (λ card. is_numbered_or_blank card) cards.now }
{
    cards.iter().all(|card| is_numbered_or_blank(card))
}

/// Whether a card has a number in its columns 73 to 80.
fn has_number(card: &Card) -> bool
    ensures { result ≡ has_number card.now }
{
    number_of(number_columns(card)).is_some()
}

/// Whether a card has a number there, or is blank.
fn is_numbered_or_blank(card: &Card) -> bool
    ensures { result ≡ is_numbered_or_blank card.now }
{
    has_number(card) || are_blank(&card.0)
}

/// The number that ends with this character, where this is the one that ends before it.
fn number_on(number: Option<u64>, code: Code) -> Option<u64>
    requires { unwrap_or number 0 < 10 ^ 8 }
    ensures { result ≡ number_on number code }
{
    let digit = code.number();
    if digit == 0 || digit > 10 {
        return None;
    }
    Some(10 * number.unwrap_or(0) + u64::from(digit % 10))
}

/// The number with which columns end.
fn number_of(columns: &[Code]) -> Option<u64>
    requires { length columns.now ≤ 8 }
    ensures { result ≡ number_of columns.now }
{
    let mut number = None;
    for code in columns {
        number = number_on(number, *code);
    }
    number
}

/// Whether there are two numbers, and the second is not higher.
fn is_no_rise(before: Option<u64>, number: Option<u64>) -> bool
    ensures { result ≡ is_no_rise before number }
{
    match (before, number) {
        (Some(before), Some(number)) => number <= before,
        _ => false,
    }
}

/// Adds what is told of a card: its line, if its number does not rise.
fn push_told(
    text: &mut Vec<u8>,
    before: &[Code],
    place: usize,
    columns: &[Code],
) -> Result<(), AllocError>
    requires before { length before.now ≤ 8 }
    requires columns { length columns.now ≤ 8 }
    ensures { OnOk result (text.new.items
        ≡ text.old.items ++ told_of before.now place columns.now) }
{
    if !is_no_rise(number_of(before), number_of(columns)) {
        return Ok(());
    }
    push_number_between(text, b"card ", place, b": ")?;
    push_glyphs(text, columns)?;
    text.extend_from_slice(b" after ")?;
    push_glyphs(text, before)?;
    text.push(b'\n')?;
    Ok(())
}

/// The columns with which the next card is compared.
fn last_of<'a>(before: &'a [Code], columns: &'a [Code]) -> &'a [Code]
    requires { length columns.now ≤ 8 }
    ensures { result.now ≡ last_of before.now columns.now }
{
    if number_of(columns).is_some() {
        columns
    } else {
        before
    }
}
