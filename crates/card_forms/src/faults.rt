//! What is wrong with a file of a deck in one of the forms.

ghost use Rattle.std.specs.Prelude.{◌≡◌, ◌<◌, slice_index};
ghost use Rattle.cards.specs.Faults.{is_digit};
ghost use Rattle.card_forms.specs.Faults.{bits_error, column_error, digits_error, error_as, fault_as, glyph_error, place_of, punches_error};

use crate::column_binary::digits_of;
use cards::{CardError, CardFault};
use thiserror::Error;

/// Why a file cannot be read as a deck of the form that was named.
#[derive(Clone, Copy, Debug, PartialEq, Eq, Error)]
pub enum FormError {
    /// There is no memory for the deck.
    #[error("no memory")]
    NoMemory,
    /// The file or a line ends within a card, or a line is longer than a card.
    #[error("not 80 columns")]
    Length,
    /// A byte that stands for nothing in the form: no glyph, no sign, no hexadecimal digit, or in
    /// column binary a byte with one of its two high bits.
    #[error("no sign")]
    Sign(u8),
    /// Punches of no character, as the three hexadecimal digits of a punch file.
    #[error("no character")]
    Punches([u8; 3]),
    /// There are more cards after 2,000.
    #[error("over 2,000 cards")]
    TooManyCards,
}

/// The first fault of a file, with its card and column.
#[derive(Clone, Copy, Debug, PartialEq, Eq, Error)]
#[error("card {card} column {column}: {error}")]
pub struct FormFault {
    /// What is wrong.
    pub error: FormError,
    /// The card, from 1; 0 for `NoMemory`.
    pub card: u16,
    /// The column, from 1; 81 is the one behind the card; 0 for `NoMemory`.
    pub column: u8,
}

/// The fault of a file for which there is no memory.
pub const OUT_OF_MEMORY: FormFault = FormFault {
    error: FormError::NoMemory,
    card: 0,
    column: 0,
};

/// The byte at a place, or 0 behind the last one.
fn byte_at(bytes: &[u8], place: usize) -> u8
    ensures { result ≡ slice_index bytes.now place }
{
    bytes.get(place).copied().unwrap_or(0)
}

/// Whether a byte is an upper-case hexadecimal digit.
pub(crate) fn is_digit(byte: u8) -> bool
    ensures { result ≡ is_digit byte }
{
    b"0123456789ABCDEF".contains(&byte)
}

/// The place of a fault's column in a file with so many bytes a card and a column.
fn place_of(card: u32, column: u32, told: CardFault) -> usize
    requires card { card < 256 }
    requires column { column < 256 }
    ensures { result ≡ place_of card column told }
{
    let cards = u32::from(told.card).saturating_sub(1);
    let columns = u32::from(told.column).saturating_sub(1);
    (card * cards + column * columns) as usize
}

/// What is wrong with three bytes of a punch file.
fn digits_error(high: u8, middle: u8, low: u8) -> FormError
    ensures { result ≡ digits_error high middle low }
{
    if !is_digit(high) {
        return FormError::Sign(high);
    }
    if !is_digit(middle) {
        return FormError::Sign(middle);
    }
    if !is_digit(low) {
        return FormError::Sign(low);
    }
    FormError::Punches([high, middle, low])
}

/// What is wrong with two bytes of column binary.
fn bits_error(upper: u8, lower: u8) -> FormError
    ensures { result ≡ bits_error upper lower }
{
    if upper >= 64 {
        return FormError::Sign(upper);
    }
    if lower >= 64 {
        return FormError::Sign(lower);
    }
    FormError::Punches(digits_of(64 * u16::from(upper) + u16::from(lower)))
}

/// A fault that `cards` tells, where this is wrong with the column.
fn fault_as(told: CardFault, wrong: FormError) -> FormFault
    ensures { result ≡ fault_as told wrong }
{
    let error = match told.error {
        CardError::NoMemory => FormError::NoMemory,
        CardError::Length => FormError::Length,
        CardError::Glyph | CardError::Punches => wrong,
        CardError::TooManyCards => FormError::TooManyCards,
    };
    FormFault {
        error,
        card: told.card,
        column: told.column,
    }
}

/// The fault of a file that stands for this deck text.
pub(crate) fn text_fault(text: &[u8], told: CardFault) -> FormFault
    ensures { result ≡ fault_as told (glyph_error text.now told) }
{
    let byte = byte_at(text, place_of(81, 1, told));
    fault_as(told, FormError::Sign(byte))
}

/// The fault of a punch file.
pub(crate) fn punch_fault(file: &[u8], told: CardFault) -> FormFault
    ensures { result ≡ fault_as told (punches_error file.now told) }
{
    let place = place_of(241, 3, told);
    let high = byte_at(file, place);
    let middle = byte_at(file, place + 1);
    let low = byte_at(file, place + 2);
    fault_as(told, digits_error(high, middle, low))
}

/// The fault of a file of column binary.
pub(crate) fn binary_fault(bytes: &[u8], told: CardFault) -> FormFault
    ensures { result ≡ fault_as told (column_error bytes.now told) }
{
    let place = place_of(160, 2, told);
    let upper = byte_at(bytes, place);
    let lower = byte_at(bytes, place + 1);
    fault_as(told, bits_error(upper, lower))
}
