//! Why a text is no listing.

ghost use Rattle.std.specs.Prelude.{◌≡◌};
ghost use Rattle.pictures.specs.Faults.{out_of_memory};

use std::alloc::AllocError;
use thiserror::Error;

/// What is wrong with a text that is to be shown as a listing.
#[derive(Clone, Copy, Debug, PartialEq, Eq, Error)]
pub enum ListingError {
    /// There is no memory for the pages.
    #[error("no memory")]
    NoMemory,
    /// A byte that is no sign or blank of ASCII, and ends no line.
    #[error("no sign")]
    Sign(u8),
    /// The line is longer than the 132 columns of a form.
    #[error("over 132 columns")]
    Length,
}

/// The first fault of a text that is to be shown as a listing, with its place.
#[derive(Clone, Copy, Debug, PartialEq, Eq, Error)]
#[error("line {line} column {column}: {error}")]
pub struct ListingFault {
    /// What is wrong.
    pub error: ListingError,
    /// The line, from 1, counted from the text's beginning; 0 for `NoMemory`.
    pub line: usize,
    /// The column, from 1; 0 for `NoMemory`.
    pub column: usize,
}

/// The fault of a listing for whose pages there is no memory.
pub(crate) const OUT_OF_MEMORY: ListingFault = ListingFault {
    error: ListingError::NoMemory,
    line: 0,
    column: 0,
};

impl From<AllocError> for ListingFault {
    ghost from_gives = { λ _ fault. fault ≡ out_of_memory };

    fn from(_error: AllocError) -> Self {
        OUT_OF_MEMORY
    }
}
