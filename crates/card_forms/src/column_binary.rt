//! Decks as column binary: two bytes a column.

ghost use Rattle.std.specs.{
  Prelude.{◌≡◌, ◌<◌, ◌≤◌, ◌%◌, ◌∷◌, ◌++◌, ℕ, List, length, IfOk, OnOk, IfSome, IsNone},
  List.{flat_map},
};
ghost use Rattle.cards.specs.Files.{digits_of, hexadecimal};
ghost use Rattle.card_forms.specs.ColumnBinary.{binary_of, column_bytes, column_digits, digits_behind, punch_file_for};

use bcd::Code;
use cards::{COLUMNS, Card, LINE_FEED};
use std::alloc::{AllocError, Global};

/// The upper-case hexadecimal digit of a number's lowest four bits.
pub(crate) fn digit_of(number: u16) -> u8
    ensures { result ≡ hexadecimal (number % 16) }
{
    b"0123456789ABCDEF"[number as usize % 16]
}

/// The three digits of the punches of a column.
pub(crate) fn digits_of(rows: u16) -> [u8; 3]
    ensures { result ≡ digits_of rows }
{
    [digit_of(rows / 256), digit_of(rows / 16), digit_of(rows)]
}

/// What stands in a punch file for the column of two bytes.
#[tactic(auto, unfolding(crate::specs::ColumnBinary::column_digits))]
fn column_digits(upper: u8, lower: u8) -> [u8; 3]
    ensures { result ≡ column_digits upper lower }
{
    if upper < 64 && lower < 64 {
        digits_of(64 * u16::from(upper) + u16::from(lower))
    } else {
        *b"???"
    }
}

/// The two bytes of the first column, and the bytes behind them.
pub(crate) fn split_column(bytes: &[u8]) -> Option<(u8, u8, &[u8])>
    ensures found { IfSome result (λ found. bytes.now ≡ found.0 ∷ found.1 ∷ found.2.now) }
    ensures none { IsNone result → length bytes.now ≤ 1 }
{
    match bytes {
        [upper, lower, rest @ ..] => Some((*upper, *lower, rest)),
        _ => None,
    }
}

/// Adds the digits of a column behind so many columns of a card, and behind the last one the end of
/// the line. Returns the number of columns of the card that stand then.
#[tactic(auto, unfolding(crate::specs::ColumnBinary::digits_behind))]
fn push_digits(
    file: &mut Vec<u8>,
    columns: usize,
    upper: u8,
    lower: u8,
) -> Result<usize, AllocError>
    requires { columns < 80 }
    ensures digits { IfOk result (λ next. (rest : List ℕ) →
        file.new.items ++ digits_behind next rest
        ≡ file.old.items ++ digits_behind columns (upper ∷ lower ∷ rest)) }
    ensures within { IfOk result (λ next. next < 80) }
{
    file.extend_from_slice(&column_digits(upper, lower))?;
    if columns + 1 == COLUMNS {
        file.push(LINE_FEED)?;
        return Ok(0);
    }
    Ok(columns + 1)
}

/// The punch file for which the bytes stand.
#[tactic(auto, unfolding(crate::specs::ColumnBinary::digits_behind))]
pub(crate) fn punch_file(alloc: Global, bytes: &[u8]) -> Result<Vec<u8>, AllocError>
    ensures { IfOk result (λ file. file.items ≡ punch_file_for bytes.now) }
{
    let mut file = Vec::new(alloc);
    let mut columns = 0;
    let mut rest = bytes;
    while let Some((upper, lower, behind)) = split_column(rest) {
        columns = push_digits(&mut file, columns, upper, lower)?;
        rest = behind;
    }
    if !rest.is_empty() {
        file.push(LINE_FEED)?;
    }
    Ok(file)
}

/// Adds the two bytes of a character's column.
#[tactic(auto, unfolding(crate::specs::ColumnBinary::column_bytes))]
fn push_column(file: &mut Vec<u8>, code: Code) -> Result<(), AllocError>
    ensures { OnOk result (file.new.items ≡ file.old.items ++ column_bytes code) }
{
    let rows = code.punches();
    file.push((rows / 64 % 64) as u8)?;
    file.push((rows % 64) as u8)?;
    Ok(())
}

/// The file of cards: the bytes of their columns.
pub(crate) fn binary(alloc: Global, cards: &[Card]) -> Result<Vec<u8>, AllocError>
    ensures { IfOk result (λ file. file.items ≡ binary_of cards.now) }
{
    let mut file = Vec::new(alloc);
    for card in cards {
        push_columns(&mut file, &card.0)?;
    }
    Ok(file)
}

/// Adds the bytes of columns.
fn push_columns(file: &mut Vec<u8>, codes: &[Code]) -> Result<(), AllocError>
    ensures { OnOk result (file.new.items ≡ file.old.items ++ flat_map column_bytes codes.now) }
{
    for code in codes {
        push_column(file, *code)?;
    }
    Ok(())
}
