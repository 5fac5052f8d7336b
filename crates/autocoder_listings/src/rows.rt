//! The rows in which the code of a card is shown.

ghost use Rattle.std.specs.Prelude.{◌≡◌, ◌*◌, ◌≤◌, ◌++◌, length, flat_map, IfOk, OnOk};
ghost use Rattle.autocoder_listings.specs.{
  Rows.{glyphs_shown, rows_for, row_at, address_of, with_row},
  Coded.{further_line, further_lines},
};

use autocoder::{push_fillers, push_line, push_number};
use autocoder_layout::Cell;
use std::alloc::{AllocError, Global};

/// The greatest number of characters in a row.
const ROW_LENGTH: usize = 20;

/// The width of the part of a line before its row.
const MARGIN: usize = 98;

/// The number of rows that `count` characters take.
pub(crate) fn rows_for(count: usize) -> usize
    ensures { result ≡ rows_for count }
{
    count.div_ceil(ROW_LENGTH)
}

/// The row with this number.
pub(crate) fn row_at(cells: &[Cell], number: usize) -> &[Cell]
    requires { 20 * number ≤ length cells.now }
    ensures { result.now ≡ row_at cells.now number }
{
    let rest = &cells[ROW_LENGTH * number..];
    &rest[..rest.len().min(ROW_LENGTH)]
}

/// Adds a character, after an apostrophe if it has a word mark.
fn push_shown(line: &mut Vec<u8>, cell: &Cell) -> Result<(), AllocError>
    ensures { OnOk result (line.new.items ≡ line.old.items ++ glyphs_shown cell.now) }
{
    if cell.marked {
        line.push(b'\'')?;
    }
    line.push(cell.code.glyph())?;
    Ok(())
}

/// Adds the characters of a row.
fn push_characters(line: &mut Vec<u8>, row: &[Cell]) -> Result<(), AllocError>
    ensures { OnOk result (line.new.items ≡ line.old.items ++ flat_map glyphs_shown row.now) }
{
    for cell in row {
        push_shown(line, cell)?;
    }
    Ok(())
}

/// The address of a row: its first position.
fn address_of(row: &[Cell]) -> u32
    ensures { result ≡ address_of row.now }
{
    match row {
        [] => 0,
        [first, ..] => first.position,
    }
}

/// Adds a row: its address and its characters.
#[tactic(auto, unfolding(crate::specs::Rows::with_row))]
pub(crate) fn push_row(line: &mut Vec<u8>, row: &[Cell]) -> Result<(), AllocError>
    ensures { OnOk result (line.new.items ≡ with_row line.old.items row.now) }
{
    push_number(line, b'0', 5, address_of(row) as u64)?;
    line.push(b' ')?;
    push_characters(line, row)
}

/// The line of a further row.
#[tactic(auto, unfolding(crate::specs::Coded::further_line))]
pub(crate) fn further_line(
    alloc: Global,
    cells: &[Cell],
    number: usize,
) -> Result<Vec<u8>, AllocError>
    requires { 20 * number ≤ length cells.now }
    ensures { IfOk result (λ line. line.items ≡ further_line cells.now number) }
{
    let mut line = Vec::new(alloc);
    push_fillers(&mut line, b' ', MARGIN)?;
    push_row(&mut line, row_at(cells, number))?;
    Ok(line)
}

/// Adds the lines of the rows after the first.
pub(crate) fn push_further_lines(
    alloc: Global,
    text: &mut Vec<u8>,
    cells: &[Cell],
) -> Result<(), AllocError>
    ensures { OnOk result (text.new.items ≡ text.old.items ++ further_lines cells.now) }
{
    for number in 1..rows_for(cells.len()) {
        let line = further_line(alloc, cells, number)?;
        push_line(text, &line)?;
    }
    Ok(())
}
