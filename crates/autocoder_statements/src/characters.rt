//! The characters of a field, and what a field begins with.

ghost use Rattle.std.specs.Prelude.{◌≡◌, ◌<◌, ◌≤◌, ◌^◌, length, IsTrue};
ghost use Rattle.autocoder_statements.specs.{
  Expressions.{most_digits},
  Characters.{is_of, run, begins, begins_with_letter, is_between, is_blank, is_ended, number_of, digit_value, with_blanks},
};

use bcd::Code;

/// A class of characters.
#[derive(Clone, Copy)]
pub enum Class {
    /// The digits 0 to 9.
    Digit,
    /// The letters and digits: the characters of names.
    LetterOrDigit,
    /// Each character but the blank.
    Filled,
    /// Each character but `@`.
    Quoted,
}

/// Whether a character's glyph is one of those from the first to the last.
fn is_between(code: Code, first: u8, last: u8) -> bool
    ensures { result ≡ is_between first last code }
{
    first <= code.glyph() && code.glyph() <= last
}

/// Whether a character is the blank.
pub fn is_blank(code: Code) -> bool
    ensures { result ≡ is_blank code }
{
    code.glyph() == b' '
}

impl Class {
    /// Whether a character is of the class.
    #[tactic(auto, unfolding(crate::specs::Characters::is_of))]
    fn has(self, code: Code) -> bool
        ensures { result ≡ is_of self code }
    {
        match self {
            Class::Digit => is_between(code, b'0', b'9'),
            Class::LetterOrDigit => is_between(code, b'A', b'Z') || is_between(code, b'0', b'9'),
            Class::Filled => !is_blank(code),
            Class::Quoted => code.glyph() != b'@',
        }
    }

    /// The number of characters of the class at the beginning of a text.
    pub fn run(self, text: &[Code]) -> usize
        ensures run { result ≡ run self text.now }
        ensures within { result ≤ length text.now }
    {
        for count in 0..text.len() {
            if !self.has(text[count]) {
                return count;
            }
        }
        text.len()
    }
}

/// Whether a text begins with the characters of these glyphs.
pub fn begins(text: &[Code], glyphs: &[u8]) -> bool
    ensures begins { result ≡ begins glyphs.now text.now }
    ensures within { IsTrue result → length glyphs.now ≤ length text.now }
{
    for index in 0..glyphs.len() {
        if index >= text.len() {
            return false;
        }
        if text[index].glyph() != glyphs[index] {
            return false;
        }
    }
    true
}

/// Whether a text begins with a letter.
#[tactic(auto, unfolding(crate::specs::Characters::begins_with_letter))]
pub fn begins_with_letter(text: &[Code]) -> bool
    ensures { result ≡ begins_with_letter text.now }
{
    match text {
        [] => false,
        [first, ..] => is_between(*first, b'A', b'Z'),
    }
}

/// Whether the next two columns are blank, or as many as the field still has.
#[tactic(auto, unfolding(crate::specs::Characters::is_ended))]
pub fn is_ended(text: &[Code]) -> bool
    ensures { result ≡ is_ended text.now }
{
    match text {
        [] => true,
        [only] => is_blank(*only),
        [first, second, ..] => is_blank(*first) && is_blank(*second),
    }
}

/// The value of a digit.
pub fn digit_value(code: Code) -> u8
    ensures value { result ≡ digit_value code }
    ensures below { result < 10 }
{
    code.digit().unwrap_or(0)
}

/// The number that some digits spell, the highest first.
pub fn number_of(digits: &[Code]) -> u32
    requires { length digits.now ≤ most_digits }
    ensures number { result ≡ number_of digits.now }
    ensures below { result < 10 ^ length digits.now }
{
    let mut number = 0;
    for digit in digits {
        number = 10 * number + digit_value(*digit) as u32;
    }
    number
}

/// A word padded with blanks at its end.
pub fn with_blanks<const SIZE: usize>(word: &[Code]) -> [Code; SIZE]
    requires { length word.now ≤ SIZE }
    ensures { result ≡ with_blanks SIZE word.now }
{
    let mut codes = [Code::blank(); SIZE];
    codes[..word.len()].copy_from_slice(word);
    codes
}
