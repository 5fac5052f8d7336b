//! The first fault of a text as a listing.

ghost use Rattle.std.specs.Prelude.{◌≡◌, ◌≤◌, ◌<◌, ◌+◌, ◌^◌, length, IfSome, IsNone};
ghost use Rattle.pictures.specs.Faults.{IsFirstFault, IsListing, ends_line, error_in, next_column, next_line};

use crate::faults::{ListingError, ListingFault};

/// The byte behind a line.
const LINE_FEED: u8 = 10;

/// The byte between two forms.
pub(crate) const FORM_FEED: u8 = 12;

/// The columns of a form.
const COLUMNS: usize = 132;

/// Whether a byte ends a line.
fn ends_line(byte: u8) -> bool
    ensures { result ≡ ends_line byte }
{
    byte == LINE_FEED || byte == FORM_FEED
}

/// What is wrong with a byte in a column.
#[tactic(auto, unfolding(crate::specs::Faults::error_in))]
fn error_in(column: usize, byte: u8) -> Option<ListingError>
    ensures { result ≡ error_in column byte }
{
    if ends_line(byte) {
        return None;
    }
    if !(32..=126).contains(&byte) {
        return Some(ListingError::Sign(byte));
    }
    if column > COLUMNS {
        return Some(ListingError::Length);
    }
    None
}

/// The line of what stands behind a byte of a line.
fn next_line(line: usize, byte: u8) -> usize
    requires { line < 2 ^ 63 }
    ensures { result ≡ next_line line byte }
{
    if byte == LINE_FEED { line + 1 } else { line }
}

/// The column of what stands behind a byte in a column.
fn next_column(column: usize, byte: u8) -> usize
    requires { column < 2 ^ 63 }
    ensures { result ≡ next_column column byte }
{
    if ends_line(byte) { 1 } else { column + 1 }
}

/// The first fault of a text that is to be shown as a listing, if it has one.
pub(crate) fn first_fault(listing: &[u8]) -> Option<ListingFault>
    ensures found { IfSome result (λ fault. IsFirstFault listing.now fault) }
    ensures none { IsNone result → IsListing listing.now }
{
    let mut line = 1;
    let mut column = 1;
    for byte in listing {
        if let Some(error) = error_in(column, *byte) {
            return Some(ListingFault {
                error,
                line,
                column,
            });
        }
        line = next_line(line, *byte);
        column = next_column(column, *byte);
    }
    None
}
