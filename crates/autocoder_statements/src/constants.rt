//! Literals and constants at the beginning of a text.
//!
//! Each reader returns what it read and how many characters that takes.

ghost use Rattle.std.specs.Prelude.{◌≡◌, ◌<◌, ◌≤◌, length, IfSome};
ghost use Rattle.autocoder_statements.specs.{
  Constants.{quoted_run, quoted_text, sign_zone, with_zone, signed_digits, literal, constant, constant_length},
  Ranges.{IsTextInRange, IsConstantInRange},
  Limits.{longest_text},
};

use crate::characters::{Class, begins, digit_value};
use crate::expressions::{read_positive, signed_run};
use crate::texts::{LONGEST_TEXT, Text};
use addresses::digit_under;
use bcd::{Code, Zone};

/// The contents of a constant.
#[derive(Clone, Copy)]
pub enum Constant {
    /// These characters.
    Characters(Text),
    /// This number of blanks, at least 1 and below 100,000.
    Blanks(u32),
}

impl Constant {
    /// The number of positions that the constant takes.
    pub fn length(&self) -> u32
        ensures { result ≡ constant_length self.now }
    {
        match self {
            Constant::Characters(text) => text.characters().len() as u32,
            Constant::Blanks(count) => *count,
        }
    }
}

/// The number of characters between an `@` and the next one, or the end of the field.
#[tactic(auto, unfolding(crate::specs::Constants::quoted_run))]
fn quoted_run(text: &[Code]) -> usize
    ensures run { result ≡ quoted_run text.now }
    ensures within { result ≤ length text.now }
    ensures below { 0 < result → result < length text.now }
{
    if !begins(text, b"@") {
        return 0;
    }
    Class::Quoted.run(&text[1..])
}

/// Reads one or more characters between two `@`.
#[tactic(auto, unfolding(crate::specs::Constants::quoted_text))]
fn read_quoted(text: &[Code]) -> Option<(Text, usize)>
    requires { length text.now ≤ longest_text }
    ensures text { result ≡ quoted_text text.now }
    ensures range { IfSome result (λ found. IsTextInRange found.0) }
    ensures within { IfSome result (λ found. found.1 ≤ length text.now) }
{
    let count = quoted_run(text);
    if count == 0 {
        return None;
    }
    if !begins(&text[1 + count..], b"@") {
        return None;
    }
    let rest = &text[1..];
    Some((Text::of(&rest[..count]), 2 + count))
}

/// The zone that a sign gives to the last digit.
fn sign_zone(text: &[Code]) -> Zone
    ensures { result ≡ sign_zone text.now }
{
    if begins(text, b"&") {
        return Zone::AB;
    }
    if begins(text, b"-") {
        return Zone::B;
    }
    Zone::Bare
}

/// Digits, the last of them with a zone.
fn with_zone(zone: Zone, digits: &[Code]) -> Text
    requires some { 0 < length digits.now }
    requires limit { length digits.now ≤ longest_text }
    ensures text { result ≡ with_zone zone digits.now }
    ensures length { length result ≡ length digits.now }
{
    let mut codes = [Code::blank(); LONGEST_TEXT];
    let characters = &mut codes[..digits.len()];
    characters.copy_from_slice(digits);
    let last = digits.len() - 1;
    characters[last] = digit_under(zone, digit_value(digits[last]));
    Text::of(characters)
}

/// Reads a sign and one or more digits.
#[tactic(auto, unfolding(crate::specs::Constants::signed_digits))]
fn read_signed(text: &[Code]) -> Option<(Text, usize)>
    requires { length text.now ≤ longest_text }
    ensures text { result ≡ signed_digits text.now }
    ensures range { IfSome result (λ found. IsTextInRange found.0) }
    ensures within { IfSome result (λ found. found.1 ≤ length text.now) }
{
    let count = signed_run(text);
    if count == 0 {
        return None;
    }
    let rest = &text[1..];
    Some((with_zone(sign_zone(text), &rest[..count]), 1 + count))
}

/// Reads a literal: the characters whose address a field means.
#[tactic(auto, unfolding(crate::specs::Constants::literal))]
pub fn read_literal(text: &[Code]) -> Option<(Text, usize)>
    requires { length text.now ≤ longest_text }
    ensures text { result ≡ literal text.now }
    ensures range { IfSome result (λ found. IsTextInRange found.0) }
    ensures within { IfSome result (λ found. found.1 ≤ length text.now) }
{
    if begins(text, b"@") {
        return read_quoted(text);
    }
    read_signed(text)
}

/// Reads a constant: a number of blanks, digits with or without a sign, or characters between two
/// `@`.
#[tactic(auto, unfolding(crate::specs::Constants::constant))]
pub fn read_constant(text: &[Code]) -> Option<(Constant, usize)>
    requires { length text.now ≤ longest_text }
    ensures constant { result ≡ constant text.now }
    ensures range { IfSome result (λ found. IsConstantInRange found.0) }
    ensures within { IfSome result (λ found. found.1 ≤ length text.now) }
{
    if begins(text, b"#") {
        let (blanks, count) = read_positive(&text[1..])?;
        return Some((Constant::Blanks(blanks), 1 + count));
    }
    let count = Class::Digit.run(text);
    if count == 0 {
        let (characters, count) = read_literal(text)?;
        return Some((Constant::Characters(characters), count));
    }
    Some((Constant::Characters(Text::of(&text[..count])), count))
}
