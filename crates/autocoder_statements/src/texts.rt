//! The characters of a constant or a literal.

ghost use Rattle.std.specs.Prelude.{◌≡◌, ◌≤◌, length};
ghost use Rattle.autocoder_statements.specs.Limits.{longest_text};

use crate::characters::with_blanks;
use bcd::Code;
use std::marker::Model;

/// The greatest number of characters of a text: those of an operand field.
pub const LONGEST_TEXT: usize = 52;

/// A text: at most 52 characters.
#[derive(Clone, Copy)]
pub struct Text {
    /// The characters, with_blanks with blanks.
    characters: [Code; LONGEST_TEXT],
    /// The number of characters.
    count: usize,
}

impl Model for Text {
    ghost use Rattle.std.specs.Prelude.{List, ℕ, ◌≡◌, ◌≤◌, ◌-◌, ◌++◌, length, take, replicate};
    ghost use Rattle.autocoder_statements.specs.Limits.{longest_text};

    ghost Value = { List ℕ };

    ghost view = { λ text. take text.count text.characters };

    ghost invariant = { λ text.
        (text.count ≤ longest_text) × (length text.characters ≡ longest_text)
        × (text.characters
        ≡ take text.count text.characters ++ replicate (longest_text - text.count) 0) };

    ghost inverse = { λ text. record {
      characters = text ++ replicate (longest_text - length text) 0;
      count = length text;
    } };
}

impl Text {
    /// The text of some characters.
    pub fn of(characters: &[Code]) -> Self
        requires { length characters.now ≤ longest_text }
        ensures { result ≡ characters.now }
    {
        Text {
            characters: with_blanks(characters),
            count: characters.len(),
        }
    }

    /// Its characters.
    pub fn characters(&self) -> &[Code]
        ensures characters { result.now ≡ self.now }
        ensures limit { length result.now ≤ longest_text }
    {
        &self.characters[..self.count]
    }
}
