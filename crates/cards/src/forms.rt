//! The two forms of a card in a file, column by column.

ghost use Rattle.std.specs.Prelude.{◌≡◌, ◌≢◌, ◌<◌, ℕ, List, ◌∷◌, ◌++◌, IfOk, IfErr, OnErr, IfSome, IsNone};
ghost use Rattle.cards.specs.{
  Faults.{IsCutOff, IsNoDigit, IsNoColumn, IsNoLineFeed, digits_error, column_error},
  Files.{hexadecimal, line_feed, line_length, BeginsWithDigit, BeginsWithColumn},
};

use crate::faults::CardError;
use bcd::Code;

/// The byte that ends a line.
pub const LINE_FEED: u8 = b'\n';

/// How the columns of a card are written in a file.
#[derive(Clone, Copy)]
pub(crate) enum Form {
    /// As its glyph.
    Text,
    /// As three hexadecimal digits of its punches.
    Punched,
}

impl Form {
    /// The number of bytes of a card's line.
    pub(crate) fn line_length(self) -> usize
        ensures { result ≡ line_length self }
    {
        match self {
            Form::Text => 81,
            Form::Punched => 241,
        }
    }
}

/// The hexadecimal digits in the order of their values.
const DIGITS: [u8; 16] = *b"0123456789ABCDEF";

/// Returns the character of the first column of the bytes, and the bytes after it.
pub(crate) fn split_column(form: Form, bytes: &[u8]) -> Result<(Code, &[u8]), CardError>
    ensures column { IfOk result (λ found. BeginsWithColumn form bytes.now found.0 found.1.now) }
    ensures none { OnErr result (IsNoColumn form bytes.now) }
    ensures error { IfErr result (λ error. error ≡ column_error form bytes.now) }
{
    match form {
        Form::Text => split_glyph(bytes),
        Form::Punched => split_punches(bytes),
    }
}

/// Returns the character of the first glyph, and the bytes after it.
#[tactic(auto, unfolding(crate::specs::Files::column_of))]
fn split_glyph(bytes: &[u8]) -> Result<(Code, &[u8]), CardError>
    ensures column { IfOk result (λ found.
        BeginsWithColumn Form.Text bytes.now found.0 found.1.now) }
    ensures none { OnErr result (IsNoColumn Form.Text bytes.now) }
    ensures error { IfErr result (λ error. error ≡ column_error Form.Text bytes.now) }
{
    let (glyph, rest) = split_byte(bytes)?;
    match Code::from_glyph(glyph) {
        Some(code) => Ok((code, rest)),
        None => Err(CardError::Glyph),
    }
}

/// Returns the character whose punches are the first three digits, and the bytes after them.
fn split_punches(bytes: &[u8]) -> Result<(Code, &[u8]), CardError>
    ensures column { IfOk result (λ found.
        BeginsWithColumn Form.Punched bytes.now found.0 found.1.now) }
    ensures none { OnErr result (IsNoColumn Form.Punched bytes.now) }
    ensures error { IfErr result (λ error. error ≡ column_error Form.Punched bytes.now) }
{
    let (high, rest) = split_digit(bytes)?;
    let (middle, rest) = split_digit(rest)?;
    let (low, rest) = split_digit(rest)?;
    match Code::of_punches(high * 256 + middle * 16 + low) {
        Some(code) => Ok((code, rest)),
        None => Err(CardError::Punches),
    }
}

/// Returns the value of the first digit, and the bytes after it.
fn split_digit(bytes: &[u8]) -> Result<(u16, &[u8]), CardError>
    ensures digit { IfOk result (λ found. BeginsWithDigit bytes.now found.0 found.1.now) }
    ensures none { OnErr result (IsNoDigit bytes.now) }
    ensures error { IfErr result (λ error. error ≡ digits_error 1 bytes.now) }
{
    let (byte, rest) = split_byte(bytes)?;
    match digit_value(byte) {
        Some(digit) => Ok((digit, rest)),
        None => Err(CardError::Punches),
    }
}

/// Returns the first byte of a column, and the bytes after it.
fn split_byte(bytes: &[u8]) -> Result<(u8, &[u8]), CardError>
    ensures byte { IfOk result (λ found. (found.0 ≢ line_feed)
        × (bytes.now ≡ found.0 ∷ found.1.now)) }
    ensures none { IfErr result (λ error. (error ≡ CardError.Length) × IsCutOff bytes.now) }
{
    match bytes.split_first() {
        Some((&byte, rest)) if byte != LINE_FEED => Ok((byte, rest)),
        _ => Err(CardError::Length),
    }
}

/// Returns the bytes after a line feed, if the first byte is one.
pub(crate) fn split_line_feed(bytes: &[u8]) -> Option<&[u8]>
    ensures found { IfSome result (λ rest. bytes.now ≡ line_feed ∷ rest.now) }
    ensures missing { IsNone result → IsNoLineFeed bytes.now }
{
    match bytes.split_first() {
        Some((&LINE_FEED, rest)) => Some(rest),
        _ => None,
    }
}

/// The hexadecimal digit of a number below 16.
pub(crate) fn digit_of(number: u16) -> u8
    requires { number < 16 }
    ensures { result ≡ hexadecimal number }
{
    DIGITS[number as usize]
}

/// The value of an upper-case hexadecimal digit.
pub(crate) fn digit_value(byte: u8) -> Option<u16>
    ensures found { IfSome result (λ number. (number < 16) × (hexadecimal number ≡ byte)) }
    ensures missing { IsNone result → (number : ℕ) → number < 16 → hexadecimal number ≢ byte }
{
    for number in 0..16 {
        if digit_of(number) == byte {
            return Some(number);
        }
    }
    None
}
