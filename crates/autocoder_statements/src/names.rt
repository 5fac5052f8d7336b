//! Names: labels, and the names that addresses begin with.

ghost use Rattle.std.specs.Prelude.{◌≡◌, ◌==◌, ◌&&◌, ◌||◌};
ghost use Rattle.autocoder_statements.specs.{
  Characters.{run},
  Names.{is_index_name, is_name, name_of},
};

use crate::characters::{Class, begins, begins_with_letter, with_blanks};
use bcd::Code;

/// The greatest number of characters of a name.
pub const LONGEST_NAME: usize = 6;

/// A name: one to six letters and digits, a letter first, with_blanks with blanks.
#[derive(Clone, Copy, PartialEq, Eq)]
pub struct Name {
    /// Its characters, with_blanks with blanks to six.
    pub characters: [Code; LONGEST_NAME],
}

/// Whether a word is `X1`, `X2` or `X3`, which name the index locations.
fn is_index_name(word: &[Code]) -> bool
    ensures { result ≡ is_index_name word.now }
{
    word.len() == 2 && (begins(word, b"X1") || (begins(word, b"X2") || begins(word, b"X3")))
}

/// Whether a word is a name.
fn is_name(word: &[Code]) -> bool
    ensures name { result ≡ is_name word.now }
{
    begins_with_letter(word)
        && (Class::LetterOrDigit.run(word) == word.len()
            && (word.len() <= LONGEST_NAME && !is_index_name(word)))
}

/// The name that a word is, or `None` if it is not one.
#[tactic(auto, unfolding(crate::specs::Names::name_of))]
pub fn name_of(word: &[Code]) -> Option<Name>
    ensures { result ≡ name_of word.now }
{
    if !is_name(word) {
        return None;
    }
    Some(Name {
        characters: with_blanks(word),
    })
}
