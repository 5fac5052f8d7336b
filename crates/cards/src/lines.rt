//! The line of a card, read whole.

ghost use Rattle.std.specs.Prelude.{◌≡◌, ◌<◌, ◌%◌, ◌∷◌, [], ℕ, length, IfSome, IsNone};
ghost use Rattle.cards.specs.{
  Decks.{card_columns, IsCard},
  Faults.{IsNoLine},
  Files.{column_at, column_of, line_length, line_of},
};

use crate::decks::{COLUMNS, Card};
use crate::forms::{Form, LINE_FEED, digit_value};
use bcd::Code;

/// What stands for a number where there is no character.
const NONE: u8 = 64;

/// The number of the character of each glyph, and `NONE` for every other byte.
const NUMBERS: [u8; 256] = [
    64, 64, 64, 64, 64, 64, 64, 64, 64, 64, 64, 64, 64, 64, 64, 64, 64, 64, 64, 64, 64, 64, 64, 64,
    64, 64, 64, 64, 64, 64, 64, 64, 0, 42, 15, 11, 43, 28, 48, 64, 64, 60, 44, 31, 27, 32, 59, 17,
    10, 1, 2, 3, 4, 5, 6, 7, 8, 9, 13, 46, 62, 29, 14, 58, 12, 49, 50, 51, 52, 53, 54, 55, 56, 57,
    33, 34, 35, 36, 37, 38, 39, 40, 41, 18, 19, 20, 21, 22, 23, 24, 25, 61, 30, 45, 16, 47, 64, 64,
    64, 64, 64, 64, 64, 64, 64, 64, 64, 64, 64, 64, 64, 64, 64, 64, 64, 64, 64, 64, 64, 64, 64, 64,
    64, 64, 26, 63, 64, 64, 64, 64, 64, 64, 64, 64, 64, 64, 64, 64, 64, 64, 64, 64, 64, 64, 64, 64,
    64, 64, 64, 64, 64, 64, 64, 64, 64, 64, 64, 64, 64, 64, 64, 64, 64, 64, 64, 64, 64, 64, 64, 64,
    64, 64, 64, 64, 64, 64, 64, 64, 64, 64, 64, 64, 64, 64, 64, 64, 64, 64, 64, 64, 64, 64, 64, 64,
    64, 64, 64, 64, 64, 64, 64, 64, 64, 64, 64, 64, 64, 64, 64, 64, 64, 64, 64, 64, 64, 64, 64, 64,
    64, 64, 64, 64, 64, 64, 64, 64, 64, 64, 64, 64, 64, 64, 64, 64, 64, 64, 64, 64, 64, 64, 64, 64,
    64, 64, 64, 64, 64, 64, 64, 64, 64, 64, 64, 64, 64, 64,
];

/// The character of this number. Of a number of none it takes the lower bits.
#[inline(always)]
fn code_of(number: u8) -> Code
    ensures { result ≡ number % 64 }
{
    match Code::from_number(number % 64) {
        Some(code) => code,
        None => unreachable!(),
    }
}

/// The number of the character whose punches are these digits, or `NONE`.
fn number_of_digits(high: u8, middle: u8, low: u8) -> u8
    ensures found { result < 64 → high ∷ middle ∷ low ∷ [] ≡ column_of Form.Punched result }
    ensures each { (code : ℕ) → code < 64
        → high ∷ middle ∷ low ∷ [] ≡ column_of Form.Punched code → result ≡ code }
{
    let Some(high) = digit_value(high) else {
        return NONE;
    };
    let Some(middle) = digit_value(middle) else {
        return NONE;
    };
    let Some(low) = digit_value(low) else {
        return NONE;
    };
    match Code::of_punches(high * 256 + middle * 16 + low) {
        Some(code) => code.number(),
        None => NONE,
    }
}

/// The number of the character at a column of a line, or `NONE`.
#[inline(always)]
fn number_at(form: Form, line: &[u8], column: usize) -> u8
    requires line { length line.now ≡ line_length form }
    requires column { column < card_columns }
    ensures found { result < 64 → column_at form line.now column ≡ column_of form result }
    ensures each { (code : ℕ) → code < 64
        → column_at form line.now column ≡ column_of form code → result ≡ code }
{
    match form {
        Form::Text => NUMBERS[line[column] as usize],
        Form::Punched => {
            let first = 3 * column;
            number_of_digits(line[first], line[first + 1], line[first + 2])
        }
    }
}

/// Returns the card of a line, if it is the line of a card.
///
/// It goes on past a column that is none, so that there is no jump for each column.
#[inline(always)]
pub(crate) fn card_of_line(form: Form, line: &[u8]) -> Option<Card>
    requires { length line.now ≡ line_length form }
    ensures card { IfSome result (λ card. IsCard card × (line.now ≡ line_of form card)) }
    ensures none { IsNone result → IsNoLine form line.now }
{
    let mut codes = [Code::blank(); COLUMNS];
    let mut numbers = 0;
    for column in 0..COLUMNS {
        let number = number_at(form, line, column);
        numbers |= number;
        codes[column] = code_of(number);
    }
    if numbers >= NONE {
        return None;
    }
    if line[line.len() - 1] != LINE_FEED {
        return None;
    }
    Some(Card(codes))
}
