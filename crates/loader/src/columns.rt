//! The columns of a card, filled from the left.

ghost use Rattle.std.specs.Prelude.{◌≡◌, ◌+◌, ◌<◌, ◌≤◌, [], ◌∷◌, ◌++◌, length, IsTrue};
ghost use Rattle.core_store.specs.Storage.{largest_size};
ghost use Rattle.cards.specs.Decks.{card_columns};
ghost use Rattle.addresses.specs.Digits.{code_of};
ghost use Rattle.loader.specs.{
  Glyphs.{is_glyph, are_glyphs},
  Cards.{text, padded, card_of, instruction},
};

use addresses::encode;
use bcd::Code;
use cards::{COLUMNS, Card};
use std::marker::Model;

/// The length of an instruction with two addresses.
pub(crate) const INSTRUCTION_LENGTH: usize = 7;

/// The characters of the first columns, at most 80. The columns after them are blank.
#[derive(Drop)]
pub(crate) struct Columns {
    codes: [Code; COLUMNS],
    count: usize,
}

impl Model for Columns {
    ghost use Rattle.std.specs.Prelude.{List, ℕ, ◌≡◌, ◌≤◌, ◌-◌, ◌++◌, length, take, replicate};
    ghost use Rattle.cards.specs.Decks.{card_columns};

    ghost Value = { List ℕ };

    ghost view = { λ columns. take columns.count columns.codes };

    ghost invariant = { λ columns.
        (columns.count ≤ card_columns) × (length columns.codes ≡ card_columns)
        × (columns.codes
        ≡ take columns.count columns.codes ++ replicate (card_columns - columns.count) 0) };
}

/// The character of a glyph.
fn code_of(glyph: u8) -> Code
    requires { IsTrue (is_glyph glyph) }
    ensures { result ≡ code_of glyph }
{
    Code::from_glyph(glyph).unwrap()
}

impl Columns {
    /// The columns of a blank card.
    pub(crate) fn blank() -> Self
        ensures { result ≡ [] }
    {
        Columns {
            codes: [Code::blank(); COLUMNS],
            count: 0,
        }
    }

    /// Fills the next columns.
    pub(crate) fn punch(&mut self, codes: &[Code])
        requires { length self.old + length codes.now ≤ card_columns }
        ensures punched { self.new ≡ self.old ++ codes.now }
        ensures length { length self.new ≡ length self.old + length codes.now }
    {
        let end = self.count + codes.len();
        let columns = &mut self.codes[..];
        columns[self.count..end].copy_from_slice(codes);
        self.count = end;
    }

    /// Fills the next columns with the characters of these glyphs.
    pub(crate) fn punch_text(&mut self, glyphs: &[u8])
        requires room { length self.old + length glyphs.now ≤ card_columns }
        requires glyphs { IsTrue (are_glyphs glyphs.now) }
        ensures punched { self.new ≡ self.old ++ text glyphs.now }
        ensures length { length self.new ≡ length self.old + length glyphs.now }
    {
        for glyph in glyphs {
            self.punch(&[code_of(*glyph)]);
        }
    }

    /// Fills the next seven columns with an instruction with two addresses.
    pub(crate) fn punch_instruction(&mut self, operation: u8, a: u16, b: u16)
        requires room { length self.old + INSTRUCTION_LENGTH ≤ card_columns }
        requires glyph { IsTrue (is_glyph operation) }
        requires a { a < largest_size }
        requires b { b < largest_size }
        ensures punched { self.new ≡ self.old ++ instruction (operation ∷ []) a b }
        ensures length { length self.new ≡ length self.old + INSTRUCTION_LENGTH }
    {
        self.punch(&[code_of(operation)]);
        self.punch(&encode(a));
        self.punch(&encode(b));
    }

    /// Leaves the columns up to `column` blank.
    pub(crate) fn skip_to(&mut self, column: usize)
        requires reached { length self.old ≤ column }
        requires within { column ≤ card_columns }
        ensures skipped { self.new ≡ padded column self.old }
        ensures length { length self.new ≡ column }
    {
        self.count = column;
    }

    /// Returns the card with these columns.
    pub(crate) fn card(self) -> Card
        ensures { result ≡ card_of self }
    {
        Card(self.codes)
    }
}
