//! The words of a line.

ghost use Rattle.std.specs.Prelude.{◌≡◌, ◌≤◌, length, nat_lt, not, position, IfSome};
ghost use Rattle.console.specs.Words.{behind_word, first_word, from_fourth, from_next, from_word, is_gap, onward, second_word, text_of, third_word, until, word_of};

/// Whether a byte parts words.
fn is_gap(byte: u8) -> bool
    ensures { result ≡ is_gap byte }
{
    byte <= b' '
}

/// What is before a place of a text.
fn part_before(place: Option<usize>, text: &[u8]) -> &[u8]
    requires { IfSome place (λ place. place ≤ length text.now) }
    ensures { result.now ≡ until place text.now }
{
    match place {
        None => text,
        Some(place) => &text[..place],
    }
}

/// What is from a place of a text on.
fn part_from(place: Option<usize>, text: &[u8]) -> &[u8]
    requires { IfSome place (λ place. place ≤ length text.now) }
    ensures { result.now ≡ onward place text.now }
{
    match place {
        None => &[],
        Some(place) => &text[place..],
    }
}

/// The place of the first byte that parts words.
fn gap_in(text: &[u8]) -> Option<usize>
    ensures place { result ≡ position is_gap text.now }
    ensures within { IfSome result (λ place. place ≤ length text.now) }
{
    text.iter().position(|byte| is_gap(*byte))
}

/// The place of the first byte that does not part words.
fn word_in(text: &[u8]) -> Option<usize>
    ensures place { result ≡ position (λ byte. not (is_gap byte)) text.now }
    ensures within { IfSome result (λ place. place ≤ length text.now) }
{
    text.iter().position(|byte| !is_gap(*byte))
}

/// A text from its first word on.
#[tactic(auto, unfolding(crate::specs::Words::from_word))]
fn skip_gaps(text: &[u8]) -> &[u8]
    ensures { result.now ≡ from_word text.now }
{
    part_from(word_in(text), text)
}

/// The word that a text begins with.
#[tactic(auto, unfolding(crate::specs::Words::word_of))]
fn word_of(text: &[u8]) -> &[u8]
    ensures { result.now ≡ word_of text.now }
{
    part_before(gap_in(text), text)
}

/// A text from its second word on.
#[tactic(auto, unfolding(crate::specs::Words::behind_word))]
fn skip_word(text: &[u8]) -> &[u8]
    ensures { result.now ≡ from_next text.now }
{
    let text = skip_gaps(text);
    skip_gaps(part_from(gap_in(text), text))
}

/// The words of a line: the first three, and whether it has more.
#[derive(Clone, Copy)]
pub(crate) struct Words<'a> {
    /// The first word; empty where the line has none.
    pub(crate) first: &'a [u8],
    /// The second.
    pub(crate) second: &'a [u8],
    /// The third.
    pub(crate) third: &'a [u8],
    /// Whether it has a fourth.
    pub(crate) has_more: bool,
}

impl<'a> Words<'a> {
    /// The words of a line.
    pub(crate) fn of(line: &'a [u8]) -> Words<'a>
        ensures first { result.first.now ≡ first_word line.now }
        ensures second { result.second.now ≡ second_word line.now }
        ensures third { result.third.now ≡ third_word line.now }
        ensures more { result.has_more ≡ nat_lt 0 (length (from_fourth line.now)) }
    {
        let second = skip_word(line);
        let third = skip_word(second);
        Words {
            first: word_of(skip_gaps(line)),
            second: word_of(second),
            third: word_of(third),
            has_more: !skip_word(third).is_empty(),
        }
    }
}

/// The text of a word.
pub(crate) fn text_of(word: &[u8]) -> &str
    ensures { result.now ≡ text_of word.now }
{
    match str::from_utf8(word) {
        Ok(text) => text,
        Err(_) => "",
    }
}
