//! What is wrong with a file of cards whose patterns need be no characters.

ghost use Rattle.std.specs.Prelude.{◌≡◌, ◌≤◌, ◌+◌, IfSome, IsNone, true};
ghost use Rattle.card_forms.specs.{
  ImageFaults.{IsFirstOdd},
  Images.{are_characters},
};

use crate::column_binary::digits_of;
use crate::faults::FormError;
use crate::images::{CardImage, odd_card, odd_column};
use thiserror::Error;

/// The first fault of a file of cards, of which there may be any number.
#[derive(Clone, Copy, Debug, PartialEq, Eq, Error)]
#[error("card {card} column {column}: {error}")]
pub struct ImageFault {
    /// What is wrong; never `TooManyCards`.
    pub error: FormError,
    /// The card, from 1; 0 for `NoMemory`.
    pub card: usize,
    /// The column, from 1; 81 is the one behind the card; 0 for `NoMemory`.
    pub column: u8,
}

/// The fault of a file for whose cards there is no memory.
pub const NO_MEMORY: ImageFault = ImageFault {
    error: FormError::NoMemory,
    card: 0,
    column: 0,
};

impl ImageFault {
    /// The fault of a column of a card, behind so many columns.
    pub(crate) fn behind(columns: usize, card: usize, error: FormError) -> Self
        requires { columns ≤ 80 }
        ensures { result ≡ record { error = error; card = card; column = columns + 1 } }
    {
        ImageFault {
            error,
            card,
            column: columns as u8 + 1,
        }
    }
}

/// Returns the first column that is no character, with its card and its pattern, as the fault that
/// a text of these cards would have.
pub fn first_odd(images: &[CardImage]) -> Option<ImageFault>
    ensures found { IfSome result (λ fault. IsFirstOdd images.now fault) }
    ensures none { IsNone result → are_characters images.now ≡ true }
{
    let Some(card) = odd_card(images) else {
        return None;
    };
    let image = &images[card];
    let Some(column) = odd_column(image) else {
        return None;
    };
    let error = FormError::Punches(digits_of(image.0[column]));
    Some(ImageFault::behind(column, card + 1, error))
}
