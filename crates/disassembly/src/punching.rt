//! The cards of a source, punched column by column.

use autocoder_statements::{Name, code_of};
use bcd::Code;
use cards::{COLUMNS, Card};
use std::alloc::{AllocError, Global};

/// The column of the label.
const LABEL: usize = 5;

/// The column of the operation.
const OPERATION: usize = 15;

/// The column of the operands.
const OPERANDS: usize = 20;

/// Puts characters into the columns of a card from one on, as many as there are columns.
fn put(card: &mut Card, column: usize, codes: &[Code]) {
    for index in 0..codes.len() {
        let place = column.saturating_add(index);
        if place < COLUMNS {
            card.0[place] = codes[index];
        }
    }
}

/// The characters of some glyphs.
pub(crate) fn codes_of(alloc: Global, glyphs: &[u8]) -> Result<Vec<Code>, AllocError> {
    let mut codes = Vec::new(alloc);
    for glyph in glyphs {
        codes.push(code_of(*glyph))?;
    }
    Ok(codes)
}

/// A card with a label, an operation and operands.
pub(crate) fn card_of(
    alloc: Global,
    label: Option<Name>,
    operation: &[u8],
    operands: &[Code],
) -> Result<Card, AllocError> {
    let mut card = Card([Code::blank(); COLUMNS]);
    if let Some(name) = label {
        put(&mut card, LABEL, &name.characters);
    }
    let operation = codes_of(alloc, operation)?;
    put(&mut card, OPERATION, &operation);
    put(&mut card, OPERANDS, operands);
    Ok(card)
}

/// A comment.
pub(crate) fn comment_of(alloc: Global, text: &[Code]) -> Result<Card, AllocError> {
    let mut card = Card([Code::blank(); COLUMNS]);
    put(&mut card, LABEL, &codes_of(alloc, b"*")?);
    put(&mut card, LABEL + 2, text);
    Ok(card)
}
