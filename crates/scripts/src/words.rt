//! The words of a line.

ghost use Rattle.std.specs.Prelude.{◌≡◌, ◌<◌, ◌≤◌, ◌∷◌, [], IfSome, IfNone, length, take, map};
ghost use Rattle.scripts.specs.Words.{AreFewWords, words_of};

use crate::cuts::cut_at;

/// The greatest number of words of a line.
const MOST_WORDS: usize = 7;

/// The words of a line: at most seven, none of them empty.
#[derive(Clone, Copy)]
pub(crate) struct Words<'a> {
    words: [&'a [u8]; MOST_WORDS],
    count: usize,
    ghost within: { count ≤ 7 },
}

/// The first word of a line, and the rest of the line after a blank.
fn first_word(line: &[u8]) -> (&[u8], Option<&[u8]>)
    ensures alone { IfNone result.1 (words_of line.now ≡ result.0.now ∷ []) }
    ensures more { IfSome result.1 (λ rest. (length rest.now < length line.now)
        × (words_of line.now ≡ result.0.now ∷ words_of rest.now)) }
{
    match cut_at(b' ', line) {
        Some((word, rest)) => (word, Some(rest)),
        None => (line, None),
    }
}

impl<'a> Words<'a> {
    /// The words of a line.
    pub(crate) fn of(line: &'a [u8]) -> Option<Words<'a>>
        ensures some { IfSome result (λ words. AreFewWords line.now
            × (map (λ word. word.now) (take words.count words.words) ≡ words_of line.now)) }
        ensures none { IfNone result (¬ AreFewWords line.now) }
    {
        let mut words: [&'a [u8]; MOST_WORDS] = [b""; MOST_WORDS];
        let mut count = 0usize;
        let mut rest = line;
        loop {
            if count == MOST_WORDS {
                return None;
            }
            let (word, after) = first_word(rest);
            if word.is_empty() {
                return None;
            }
            words[count] = word;
            count += 1;
            match after {
                Some(after) => rest = after,
                None => return Some(Words { words, count }),
            }
        }
    }

    /// The words in order.
    pub(crate) fn as_slice(&self) -> &[&'a [u8]]
        ensures { result.now ≡ take self.now.count self.now.words }
    {
        &self.words[..self.count]
    }
}
