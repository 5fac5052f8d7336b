//! Why a card is not added to a deck, and what is wrong with a file of a deck.

ghost use Rattle.std.specs.Prelude.{◌≡◌, ◌≤◌, ◌+◌};
ghost use Rattle.cards.specs.{
  Decks.{card_columns},
  declared.faults.DeckFault.TheVariants.{NoMemory},
  Numbers.{deck_fault_number, card_error_number},
};

use std::alloc::AllocError;
use thiserror::Error;

/// Why a card is not added to a deck.
#[derive(Clone, Copy, Debug, PartialEq, Eq, Error)]
pub enum DeckFault {
    /// The deck has 2,000 cards already.
    #[error("over 2,000 cards")]
    TooManyCards,
    /// There is no memory for the card.
    #[error("no memory")]
    NoMemory,
}

impl From<AllocError> for DeckFault {
    ghost from_gives = { λ _ fault. fault ≡ NoMemory };

    fn from(_error: AllocError) -> Self {
        DeckFault::NoMemory
    }
}

impl DeckFault {
    /// The number that is printed for the fault.
    pub fn number(self) -> u8
        ensures { result ≡ deck_fault_number self }
    {
        match self {
            DeckFault::TooManyCards => 33,
            DeckFault::NoMemory => 1,
        }
    }
}

/// Why a file cannot be read as a deck.
#[derive(Clone, Copy, Debug, PartialEq, Eq, Error)]
pub enum CardError {
    /// There is no memory for the deck.
    #[error("no memory")]
    NoMemory,
    /// A line feed or the end of the file in place of a column, or no line feed after the last
    /// column.
    #[error("not 80 columns")]
    Length,
    /// A byte that is not the glyph of a character.
    #[error("no glyph")]
    Glyph,
    /// A byte that is not an upper-case hexadecimal digit, or punches of no character.
    #[error("no punches")]
    Punches,
    /// There are more bytes after 2,000 cards.
    #[error("over 2,000 cards")]
    TooManyCards,
}

impl CardError {
    /// The number that is printed for the error.
    pub fn number(self) -> u8
        ensures { result ≡ card_error_number self }
    {
        match self {
            CardError::NoMemory => 1,
            CardError::Length => 30,
            CardError::Glyph => 31,
            CardError::Punches => 32,
            CardError::TooManyCards => 33,
        }
    }
}

/// The first fault of a file, with its card and column.
#[derive(Clone, Copy, Debug, PartialEq, Eq, Error)]
#[error("card {card} column {column}: {error}")]
pub struct CardFault {
    /// What is wrong.
    pub error: CardError,
    /// The card, from 1; 0 for `NoMemory`.
    pub card: u16,
    /// The column, from 1; 81 is the line feed's; 0 for `NoMemory`.
    pub column: u8,
}

/// The fault of a file for which there is no memory.
pub const OUT_OF_MEMORY: CardFault = CardFault {
    error: CardError::NoMemory,
    card: 0,
    column: 0,
};

impl CardFault {
    /// The fault of a column of a card, after `columns` columns.
    pub(crate) fn behind(columns: usize, card: u16, error: CardError) -> Self
        requires { columns ≤ card_columns }
        ensures { result ≡ record { error = error; card = card; column = columns + 1 } }
    {
        CardFault {
            error,
            card,
            column: columns as u8 + 1,
        }
    }
}
