//! Characters as bytes.

ghost use Rattle.std.specs.Prelude.{◌≡◌, length, true, IsTrue};
ghost use Rattle.cards.specs.Decks.{AreCharacters};

use bcd::Code;

/// Writes the numbers of characters as bytes.
pub fn write_numbers(codes: &[Code], bytes: &mut [u8])
    requires { length bytes.old ≡ length codes.now }
    ensures numbers { bytes.new ≡ codes.now }
    ensures characters { AreCharacters codes.now }
{
    for place in 0..codes.len() {
        bytes[place] = codes[place].number();
    }
}

/// Writes the characters with these numbers. Returns whether each number is that of a character.
pub fn read_codes(numbers: &[u8], codes: &mut [Code]) -> bool
    requires { length codes.old ≡ length numbers.now }
    ensures all { AreCharacters numbers.now → IsTrue result }
    ensures only { IsTrue result → (codes.new ≡ numbers.now) × AreCharacters numbers.now }
{
    // It goes on past a number that is none, so that the compiler takes many at once.
    let mut are = true;
    for place in 0..numbers.len() {
        let code = Code::from_number(numbers[place]);
        are &= code.is_some();
        codes[place] = code.unwrap_or(Code::blank());
    }
    are
}
