//! The listing of cards.

ghost use Rattle.std.specs.Prelude.{◌≡◌, ◌+◌, ◌<◌, ◌^◌, ◌++◌, length, IfOk, OnOk};
ghost use Rattle.card_tools.specs.Listing.{card_shown, listing, listing_from, mark_of, row_line, row_lines, rows_under, ruler_above};

use crate::lines::{push_in_four, push_numbered};
use card_forms::{CardImage, filled_columns};
use std::alloc::{AllocError, Global};

/// What is shown beside the cards.
#[derive(Clone, Copy, Debug, PartialEq, Eq)]
pub struct ListOptions {
    /// A ruler before the first card and each fiftieth one after it.
    pub ruler: bool,
    /// Under each card its twelve rows with their punches.
    pub punches: bool,
}

/// The ruler, whose first column is the first one behind a card's bar.
const RULER: &[u8] =
    b"     ....:....1....:....2....:....3....:....4....:....5....:....6....:....7....:....8\n";

/// The rows of a card from the top down: the name of each, and its bit in the pattern of a column.
const ROWS: [(u8, u16); 12] = [
    (12, 2048),
    (11, 1024),
    (0, 512),
    (1, 256),
    (2, 128),
    (3, 64),
    (4, 32),
    (5, 16),
    (6, 8),
    (7, 4),
    (8, 2),
    (9, 1),
];

/// Returns the listing of cards, a line for each: its number at the right of four places, a bar,
/// its glyphs up to the last column that is not blank, and a bar. A column that is no character is
/// shown as `~`.
///
/// The rows of a card are twelve lines under it: the row's name at the right of four places, a bar,
/// an asterisk under each column with a hole there, as far as the card's line goes, and a bar.
/// Fails only if there is no memory.
pub fn list(
    alloc: Global,
    images: &[CardImage],
    options: ListOptions,
) -> Result<Vec<u8>, AllocError>
    ensures { IfOk result (λ text. text.items ≡ listing options images.now) }
{
    list_from(alloc, 1, images, options)
}

/// Returns the same where the first of the cards has this number.
pub fn list_from(
    alloc: Global,
    first: usize,
    images: &[CardImage],
    options: ListOptions,
) -> Result<Vec<u8>, AllocError>
    requires { first + length images.now < 2 ^ 64 }
    ensures { IfOk result (λ text. text.items ≡ listing_from options first images.now) }
{
    let mut out = Vec::new(alloc);
    for (index, image) in images.iter().enumerate() {
        push_shown(&mut out, options, first + index, image)?;
    }
    Ok(out)
}

/// Adds what is shown of a card.
fn push_shown(
    out: &mut Vec<u8>,
    options: ListOptions,
    number: usize,
    image: &CardImage,
) -> Result<(), AllocError>
    ensures { OnOk result (out.new.items ≡ out.old.items ++ card_shown options number image.now) }
{
    push_ruler(out, options, number)?;
    push_numbered(out, number, image)?;
    out.push(b'\n')?;
    push_rows(out, options, image)
}

/// Adds the ruler, where it is wanted.
fn push_ruler(out: &mut Vec<u8>, options: ListOptions, number: usize) -> Result<(), AllocError>
    ensures { OnOk result (out.new.items ≡ out.old.items ++ ruler_above options number) }
{
    if options.ruler && number % 50 == 1 {
        return out.extend_from_slice(RULER);
    }
    Ok(())
}

/// Adds the rows of a card, where they are wanted.
fn push_rows(out: &mut Vec<u8>, options: ListOptions, image: &CardImage) -> Result<(), AllocError>
    ensures { OnOk result (out.new.items ≡ out.old.items ++ rows_under options image.now) }
{
    if options.punches {
        return push_twelve_rows(out, image);
    }
    Ok(())
}

/// Adds the twelve rows of a card.
fn push_twelve_rows(out: &mut Vec<u8>, image: &CardImage) -> Result<(), AllocError>
    ensures { OnOk result (out.new.items ≡ out.old.items ++ row_lines image.now) }
{
    for row in &ROWS {
        push_row(out, row, image)?;
    }
    Ok(())
}

/// Adds a row of a card.
fn push_row(out: &mut Vec<u8>, row: &(u8, u16), image: &CardImage) -> Result<(), AllocError>
    ensures { OnOk result (out.new.items ≡ out.old.items ++ row_line image.now row.now) }
{
    let (name, bit) = *row;
    push_in_four(out, name as usize)?;
    out.push(b'|')?;
    for pattern in filled_columns(image) {
        out.push(mark(bit, *pattern))?;
    }
    out.push(b'|')?;
    out.push(b'\n')?;
    Ok(())
}

/// What is shown of a column in a row.
#[tactic(auto, unfolding(crate::specs::Listing::mark_of))]
fn mark(bit: u16, pattern: u16) -> u8
    ensures { result ≡ mark_of bit pattern }
{
    if pattern & bit == 0 { b' ' } else { b'*' }
}
