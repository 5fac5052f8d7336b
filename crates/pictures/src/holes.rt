//! The holes of a card, as one path.

ghost use Rattle.std.specs.Prelude.{◌≡◌, ◌≤◌, ◌<◌, ◌++◌, length, OnOk};
ghost use Rattle.pictures.specs.Cards.{column_outlines, hole_if_punched, holes_from, holes_path, outline, outlines};

use crate::stocks::column_middle;
use card_forms::CardImage;
use std::alloc::AllocError;
use texts::push_decimal;

/// The rows of a card from the top down: the bit of each in the pattern of a column, and the upper
/// edge of its holes.
const ROWS: [(u16, usize); 12] = [
    (2048, 188),
    (1024, 438),
    (512, 688),
    (256, 938),
    (128, 1188),
    (64, 1438),
    (32, 1688),
    (16, 1938),
    (8, 2188),
    (4, 2438),
    (2, 2688),
    (1, 2938),
];

/// Adds the outline of the hole with this upper left corner.
fn push_outline(out: &mut Vec<u8>, left: usize, top: usize) -> Result<(), AllocError>
    ensures { OnOk result (out.new.items ≡ out.old.items ++ outline (left, top)) }
{
    out.push(b'M')?;
    push_decimal(out, left)?;
    out.push(b' ')?;
    push_decimal(out, top)?;
    out.extend_from_slice(b"h55v125h-55z")
}

/// Adds the outline of a hole in a row, if this pattern has it.
fn push_if_punched(
    out: &mut Vec<u8>,
    left: usize,
    pattern: u16,
    row: &(u16, usize),
) -> Result<(), AllocError>
    ensures { OnOk result (out.new.items ≡ out.old.items ++ hole_if_punched left pattern row.now) }
{
    let (bit, top) = *row;
    if pattern & bit == 0 {
        return Ok(());
    }
    push_outline(out, left, top)
}

/// Adds the outlines of the holes of a pattern in a column.
fn push_column(out: &mut Vec<u8>, column: usize, pattern: u16) -> Result<(), AllocError>
    requires first { 1 ≤ column }
    requires last { column ≤ 80 }
    ensures { OnOk result (out.new.items ≡ out.old.items ++ column_outlines column pattern) }
{
    let left = column_middle(column) - 27;
    for row in &ROWS {
        push_if_punched(out, left, pattern, row)?;
    }
    Ok(())
}

/// Adds the outlines of the holes of patterns, column by column, each from row 12 down.
fn push_columns(out: &mut Vec<u8>, patterns: &[u16]) -> Result<(), AllocError>
    requires { length patterns.now ≤ 80 }
    ensures { OnOk result (out.new.items ≡ out.old.items ++ outlines (holes_from 1 patterns.now)) }
{
    for (index, pattern) in patterns.iter().enumerate() {
        push_column(out, index + 1, *pattern)?;
    }
    Ok(())
}

/// Adds the outlines of the holes of a card.
pub(crate) fn push_holes(out: &mut Vec<u8>, card: &CardImage) -> Result<(), AllocError>
    ensures { OnOk result (out.new.items ≡ out.old.items ++ holes_path card.now) }
{
    push_columns(out, &card.0)
}
