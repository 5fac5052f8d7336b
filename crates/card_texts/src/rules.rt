//! How the lines of a text are taken as cards.

ghost use Rattle.std.specs.Prelude.{◌≡◌};
ghost use Rattle.card_texts.specs.Signs.{glyph_by};

use card_forms::simh_glyph;

/// Which signs stand for the 64 characters.
#[derive(Clone, Copy)]
pub enum Signs {
    /// The glyphs of a deck text.
    Bureau,
    /// The signs of SimH's IBM 1401, in which a small letter is a capital.
    Simh,
}

/// What a line is that has no character but blanks.
#[derive(Clone, Copy)]
pub enum EmptyLine {
    /// A blank card.
    Card,
    /// No card.
    Dropped,
    /// A fault.
    Fault,
}

/// How the lines of a text are taken as cards.
#[derive(Drop)]
pub struct Rules {
    /// Whether small letters are capitals.
    pub folds: bool,
    /// The columns at which tabs go on, rising; with none a tab is a fault.
    pub tabs: Vec<u8>,
    /// The signs of the characters.
    pub signs: Signs,
    /// The last column that is looked at, if not all are.
    pub keeps: Option<u8>,
    /// What a line without a character is.
    pub empty: EmptyLine,
}

impl Rules {
    /// The glyph for which a byte stands, which may be no character's.
    #[tactic(auto, unfolding(crate::specs::Signs::glyph_by))]
    pub(crate) fn glyph(&self, byte: u8) -> u8
        ensures { result ≡ glyph_by self.now.signs self.now.folds byte }
    {
        match self.signs {
            Signs::Simh => simh_glyph(byte),
            Signs::Bureau if self.folds => byte.to_ascii_uppercase(),
            Signs::Bureau => byte,
        }
    }
}
