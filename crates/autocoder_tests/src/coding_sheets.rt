//! Cards and decks as on a coding sheet: one line for each card, with its label, its operation and
//! its operands, each followed by a bar.

use bcd::Code;
use cards::{COLUMNS, Card, Deck};
use std::alloc::Global;
use std::test::Fail;

/// Puts characters into the columns after the first `before`.
fn lay(columns: &mut [Code; COLUMNS], before: usize, text: &str) -> Result<(), Fail> {
    let mut next = before;
    for glyph in text.bytes() {
        let code = Code::from_glyph(glyph).ok_or("a glyph")?;
        if next < COLUMNS {
            columns[next] = code;
            next += 1;
        }
    }
    Ok(())
}

/// The columns of the card of a line.
pub(crate) fn columns_of(line: &str) -> Result<[Code; COLUMNS], Fail> {
    let (label, fields) = line.split_once('|').ok_or("a label")?;
    let (operation, operands) = fields.split_once('|').ok_or("an operation")?;
    let operands = operands.strip_suffix('|').ok_or("operands")?;
    let mut columns = [Code::blank(); COLUMNS];
    lay(&mut columns, 5, label)?;
    lay(&mut columns, 15, operation)?;
    lay(&mut columns, 20, operands)?;
    Ok(columns)
}

/// The deck of a sheet.
pub(crate) fn deck_of(alloc: Global, sheet: &str) -> Result<Deck, Fail> {
    let mut deck = Deck::empty(alloc);
    for line in sheet.lines() {
        let columns: [Code; COLUMNS] = columns_of(line)?;
        deck.push(Card(columns))?;
    }
    Ok(deck)
}

/// The text of some glyphs.
pub(crate) fn text_of(alloc: Global, glyphs: &[u8]) -> Result<String, Fail> {
    let mut text = String::new(alloc);
    for glyph in glyphs {
        text.push(*glyph as char)?;
    }
    Ok(text)
}

/// Adds the glyphs of some characters.
pub(crate) fn push_glyphs(text: &mut String, codes: &[Code]) -> Result<(), Fail> {
    for code in codes {
        text.push(code.glyph() as char)?;
    }
    Ok(())
}

/// The cards of a deck as lines, without the blanks at their ends.
pub(crate) fn lines_of(alloc: Global, cards: &[Card]) -> Result<String, Fail> {
    let mut text = String::new(alloc);
    for card in cards {
        let mut line = String::new(alloc);
        push_glyphs(&mut line, &card.0)?;
        text.push_str(line.trim_end())?;
        text.push('\n')?;
    }
    Ok(text)
}
