//! Texts in storage, cards and registers, as the sheets write them.
//!
//! A `~` before a character means that its position is marked. A list of places has a position, a
//! blank, a text and a bar for each place, as `8 ~005|18 ~123|`.

use crate::sheets::{cut, number};
use bcd::Code;
use cards::{COLUMNS, Card};
use core_store::{Compared, Core, Registers, Size};
use std::alloc::{AllocError, Global};
use std::test::Fail;

/// The character of a glyph, or blank if there is none.
pub(crate) fn code(glyph: u8) -> Code {
    Code::from_glyph(glyph).unwrap_or(Code::blank())
}

/// Each size of storage.
pub(crate) const SIZES: [Size; 6] = [
    Size::Positions1400,
    Size::Positions2000,
    Size::Positions4000,
    Size::Positions8000,
    Size::Positions12000,
    Size::Positions16000,
];

/// The size with so many positions.
pub(crate) fn size_of(positions: u16) -> Result<Size, Fail> {
    Ok(Size::of_positions(u32::from(positions)).ok_or("a size")?)
}

/// Puts a text into storage from a position on, as far as there is storage.
pub(crate) fn lay<C: Core>(core: &mut C, first: u16, text: &str) {
    let mut next = first;
    for glyph in text.bytes() {
        if next >= core.size() {
            return;
        }
        if glyph == b'~' {
            core.set_mark(next);
        } else {
            core.put(next, code(glyph));
            next += 1;
        }
    }
}

/// Puts the texts of a list of places into storage.
pub(crate) fn lay_places<C: Core>(core: &mut C, places: &str) {
    for place in places.split('|') {
        let (first, text) = cut(place, " ");
        lay(core, number(first), text);
    }
}

/// Adds the characters from a position on, as many as a text has, and a bar.
fn push_place<C: Core>(
    shown: &mut String,
    core: &C,
    first: u16,
    text: &str,
) -> Result<(), AllocError> {
    let mut position = first;
    for glyph in text.bytes() {
        if glyph != b'~' && position < core.size() {
            if core.is_marked(position) {
                shown.push('~')?;
            }
            shown.push(core.get(position).glyph() as char)?;
            position += 1;
        }
    }
    shown.push('|')
}

/// Adds the texts at the places of a list, between bars.
pub(crate) fn push_places<C: Core>(
    shown: &mut String,
    core: &C,
    places: &str,
) -> Result<(), AllocError> {
    shown.push('|')?;
    for place in places.split('|') {
        let (first, text) = cut(place, " ");
        if !text.is_empty() {
            push_place(shown, core, number(first), text)?;
        }
    }
    Ok(())
}

/// Adds the registers I, A and B, and the indicators that are set: `equal` or `high`, and
/// `overflow`.
pub(crate) fn push_registers(shown: &mut String, registers: &Registers) -> Result<(), AllocError> {
    let compared = match registers.compare {
        Compared::Low => "",
        Compared::Equal => " equal",
        Compared::High => " high",
    };
    let overflow = if registers.overflow { " overflow" } else { "" };
    let (i, a, b) = (registers.i, registers.a, registers.b);
    write!(shown, "I {i} A {a} B {b}{compared}{overflow} ")
}

/// A card that begins with the text.
pub(crate) fn card_of(text: &str) -> Card {
    let mut codes = [Code::blank(); COLUMNS];
    for (column, glyph) in codes.iter_mut().zip(text.as_bytes()) {
        *column = code(*glyph);
    }
    Card(codes)
}
