//! The stock of a card: its paper with what is printed on it before it is punched.

ghost use Rattle.std.specs.Prelude.{◌≡◌, ◌≤◌, ◌<◌, ◌+◌, ◌*◌, ◌++◌, ◌∷◌, replicate, decimal, OnOk};
ghost use Rattle.pictures.specs.{
  Places.{column_middle},
  Cards.{column_number, column_numbers, face, face_row, next_place, places, stock},
};

use cards::COLUMNS;
use std::alloc::AllocError;
use texts::{push_decimal, push_number_between};

/// The place of the middle of a column, 1 to 80.
pub(crate) fn column_middle(column: usize) -> usize
    requires first { 1 ≤ column }
    requires last { column ≤ 80 }
    ensures middle { result ≡ column_middle column }
    ensures within { 251 ≤ result }
    ensures below { result < 7125 }
{
    251 + 87 * (column - 1)
}

/// Adds a blank and the place of a column.
fn push_place(out: &mut Vec<u8>, column: usize) -> Result<(), AllocError>
    requires first { 1 ≤ column }
    requires last { column ≤ 80 }
    ensures { OnOk result (out.new.items ≡ out.old.items ++ next_place column) }
{
    out.push(b' ')?;
    push_decimal(out, column_middle(column))
}

/// Adds the places of the columns.
pub(crate) fn push_places(out: &mut Vec<u8>) -> Result<(), AllocError>
    ensures { OnOk result (out.new.items ≡ out.old.items ++ places) }
{
    push_decimal(out, column_middle(1))?;
    for column in 2..COLUMNS + 1 {
        push_place(out, column)?;
    }
    Ok(())
}

/// Adds so many of a byte.
fn push_repeated(out: &mut Vec<u8>, byte: u8, count: usize) -> Result<(), AllocError>
    ensures { OnOk result (out.new.items ≡ out.old.items ++ replicate count byte) }
{
    for _column in 0..count {
        out.push(byte)?;
    }
    Ok(())
}

/// Adds the digits of a row, 0 to 9, one in each column.
fn push_face_row(out: &mut Vec<u8>, row: u8) -> Result<(), AllocError>
    requires { row ≤ 9 }
    ensures { OnOk result (out.new.items ≡ out.old.items ++ face_row row) }
{
    let height = 781 + 250 * row as usize;
    push_number_between(out, b"<text class=\"face\" y=\"", height, b"\" x=\"")?;
    push_places(out)?;
    out.extend_from_slice(b"\">")?;
    push_repeated(out, b'0' + row, COLUMNS)?;
    out.extend_from_slice(b"</text>")?;
    Ok(())
}

/// Adds the number of a column at its place.
fn push_column_number(out: &mut Vec<u8>, column: usize) -> Result<(), AllocError>
    requires first { 1 ≤ column }
    requires last { column ≤ 80 }
    ensures { OnOk result (out.new.items ≡ out.old.items ++ column_number column) }
{
    push_number_between(out, b"<tspan x=\"", column_middle(column), b"\">")?;
    push_decimal(out, column)?;
    out.extend_from_slice(b"</tspan>")
}

/// Adds the numbers of the columns in one line at this height.
fn push_column_numbers(out: &mut Vec<u8>, height: usize) -> Result<(), AllocError>
    ensures { OnOk result (out.new.items ≡ out.old.items ++ column_numbers height) }
{
    push_number_between(out, b"<text class=\"small\" y=\"", height, b"\">")?;
    for column in 1..COLUMNS + 1 {
        push_column_number(out, column)?;
    }
    out.extend_from_slice(b"</text>")?;
    Ok(())
}

/// Adds the rows of digits.
fn push_face(out: &mut Vec<u8>) -> Result<(), AllocError>
    ensures { OnOk result (out.new.items ≡ out.old.items ++ face) }
{
    for row in 0..10 {
        push_face_row(out, row)?;
    }
    Ok(())
}

/// The paper, whose upper left corner is cut.
const PAPER: &[u8] = b"<path class=\"stock\" d=\"M250 3H7300a72 72 0 0 1 72 72V3175a72 72 0 0 1-72 \
    72H75a72 72 0 0 1-72-72V436Z\"/>";

/// Adds the stock of a card.
pub(crate) fn push_stock(out: &mut Vec<u8>) -> Result<(), AllocError>
    ensures { OnOk result (out.new.items ≡ out.old.items ++ stock) }
{
    out.extend_from_slice(PAPER)?;
    push_face(out)?;
    push_column_numbers(out, 891)?;
    push_column_numbers(out, 3141)?;
    Ok(())
}
