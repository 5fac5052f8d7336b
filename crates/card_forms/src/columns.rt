//! The columns of cards, as they stand in a file.

ghost use Rattle.std.specs.Prelude.{◌≡◌, ◌≢◌, ◌<◌, ℕ, List, [], ◌∷◌, ◌++◌, length, IfOk, IfErr, OnErr, OnOk, IfSome, IsNone};
ghost use Rattle.cards.specs.{
  Faults.{IsNoDigit},
  Files.{BeginsWithDigit, hexadecimal},
};
ghost use Rattle.card_forms.specs.{
  ImageFaults.{IsNoColumn, IsNoEnd, bits_wrong, byte_wrong, column_wrong, digits_wrong, glyph_wrong},
  ImageFiles.{BeginsWithColumn, column_of, end_of},
};

use crate::column_binary::{digit_of, digits_of, split_column};
use crate::faults::{FormError, is_digit};
use crate::images::glyph_shown;
use bcd::Code;
use cards::LINE_FEED;
use std::alloc::AllocError;

/// How the columns of a card stand in a file.
#[derive(Clone, Copy)]
pub(crate) enum ColumnForm {
    /// As glyphs, with a line feed behind a card.
    Glyph,
    /// As three hexadecimal digits each, with a line feed behind a card.
    Digits,
    /// As two bytes each, of six rows.
    Bits,
}

/// What is wrong with a byte that is no part of a column.
fn byte_wrong(byte: u8) -> FormError
    ensures { result ≡ byte_wrong byte }
{
    if byte == LINE_FEED {
        FormError::Length
    } else {
        FormError::Sign(byte)
    }
}

/// What is wrong where digits are required.
#[tactic(auto, unfolding(crate::specs::ImageFaults::digits_wrong))]
fn digits_wrong(bytes: &[u8]) -> FormError
    ensures { result ≡ digits_wrong bytes.now }
{
    let mut rest = bytes;
    while let Some((&byte, behind)) = rest.split_first() {
        if !is_digit(byte) {
            return byte_wrong(byte);
        }
        rest = behind;
    }
    FormError::Length
}

/// The value of an upper-case hexadecimal digit.
fn digit_value(byte: u8) -> Option<u16>
    ensures found { IfSome result (λ number. (number < 16) × (hexadecimal number ≡ byte)) }
    ensures missing { IsNone result → (number : ℕ) → number < 16 → hexadecimal number ≢ byte }
{
    for number in 0..16 {
        if digit_of(number) == byte {
            return Some(number);
        }
    }
    None
}

/// The first byte, and the bytes behind it.
fn split_byte(bytes: &[u8]) -> Option<(u8, &[u8])>
    ensures found { IfSome result (λ found. bytes.now ≡ found.0 ∷ found.1.now) }
    ensures none { IsNone result → bytes.now ≡ [] }
{
    match bytes {
        [first, rest @ ..] => Some((*first, rest)),
        [] => None,
    }
}

/// The value of the first digit, and the bytes behind it.
fn split_digit(bytes: &[u8]) -> Option<(u16, &[u8])>
    ensures digit { IfSome result (λ found. BeginsWithDigit bytes.now found.0 found.1.now) }
    ensures none { IsNone result → IsNoDigit bytes.now }
{
    let Some((byte, rest)) = split_byte(bytes) else {
        return None;
    };
    match digit_value(byte) {
        Some(digit) => Some((digit, rest)),
        None => None,
    }
}

/// The pattern of three digits, and the bytes behind them.
fn split_digits(bytes: &[u8]) -> Result<(u16, &[u8]), FormError>
    ensures column { IfOk result (λ found.
        BeginsWithColumn ColumnForm.Digits bytes.now found.0 found.1.now) }
    ensures none { OnErr result (IsNoColumn ColumnForm.Digits bytes.now) }
    ensures error { IfErr result (λ error. error ≡ digits_wrong bytes.now) }
{
    let Some((high, rest)) = split_digit(bytes) else {
        return Err(digits_wrong(bytes));
    };
    let Some((middle, rest)) = split_digit(rest) else {
        return Err(digits_wrong(bytes));
    };
    let Some((low, rest)) = split_digit(rest) else {
        return Err(digits_wrong(bytes));
    };
    Ok((high * 256 + middle * 16 + low, rest))
}

/// The pattern of a glyph's character, and the bytes behind it.
fn split_glyph(bytes: &[u8]) -> Result<(u16, &[u8]), FormError>
    ensures column { IfOk result (λ found.
        BeginsWithColumn ColumnForm.Glyph bytes.now found.0 found.1.now) }
    ensures none { OnErr result (IsNoColumn ColumnForm.Glyph bytes.now) }
    ensures error { IfErr result (λ error. error ≡ glyph_wrong bytes.now) }
{
    let Some((glyph, rest)) = split_byte(bytes) else {
        return Err(FormError::Length);
    };
    match Code::from_glyph(glyph) {
        Some(code) => Ok((code.punches(), rest)),
        None => Err(byte_wrong(glyph)),
    }
}

/// The pattern of two bytes of six rows, and the bytes behind them.
#[tactic(auto, using(crate::proofs::ImageColumns::bits_begin, crate::proofs::ImageColumns::half_wrong))]
fn split_bits(bytes: &[u8]) -> Result<(u16, &[u8]), FormError>
    ensures column { IfOk result (λ found.
        BeginsWithColumn ColumnForm.Bits bytes.now found.0 found.1.now) }
    ensures none { OnErr result (IsNoColumn ColumnForm.Bits bytes.now) }
    ensures error { IfErr result (λ error. error ≡ bits_wrong bytes.now) }
{
    let Some((upper, lower, rest)) = split_column(bytes) else {
        return Err(FormError::Length);
    };
    if upper >= 64 {
        return Err(FormError::Sign(upper));
    }
    if lower >= 64 {
        return Err(FormError::Sign(lower));
    }
    Ok((64 * u16::from(upper) + u16::from(lower), rest))
}

/// Returns the pattern of the first column, and the bytes behind it.
pub(crate) fn split_pattern(form: ColumnForm, bytes: &[u8]) -> Result<(u16, &[u8]), FormError>
    ensures column { IfOk result (λ found. BeginsWithColumn form bytes.now found.0 found.1.now) }
    ensures none { OnErr result (IsNoColumn form bytes.now) }
    ensures error { IfErr result (λ error. error ≡ column_wrong form bytes.now) }
{
    match form {
        ColumnForm::Glyph => split_glyph(bytes),
        ColumnForm::Digits => split_digits(bytes),
        ColumnForm::Bits => split_bits(bytes),
    }
}

/// The bytes behind a line feed, if the first byte is one.
fn behind_feed(bytes: &[u8]) -> Option<&[u8]>
    ensures found { IfSome result (λ rest. bytes.now ≡ 10 ∷ rest.now) }
    ensures missing { IsNone result → (rest : List ℕ) → bytes.now ≢ 10 ∷ rest }
{
    match bytes.split_first() {
        Some((&LINE_FEED, rest)) => Some(rest),
        _ => None,
    }
}

/// Returns the bytes behind the end of a card, if they begin with that.
pub(crate) fn split_end(form: ColumnForm, bytes: &[u8]) -> Option<&[u8]>
    ensures found { IfSome result (λ rest. bytes.now ≡ end_of form ++ rest.now) }
    ensures missing { IsNone result → IsNoEnd form bytes.now }
{
    match form {
        ColumnForm::Glyph => behind_feed(bytes),
        ColumnForm::Digits => behind_feed(bytes),
        ColumnForm::Bits => Some(bytes),
    }
}

/// Adds the bytes of a column.
#[tactic(auto, unfolding(crate::specs::ImageFiles::column_of))]
pub(crate) fn push_pattern(
    file: &mut Vec<u8>,
    form: ColumnForm,
    pattern: u16,
) -> Result<(), AllocError>
    ensures { OnOk result (file.new.items ≡ file.old.items ++ column_of form pattern) }
{
    match form {
        ColumnForm::Glyph => Ok(file.push(glyph_shown(pattern))?),
        ColumnForm::Digits => file.extend_from_slice(&digits_of(pattern)),
        ColumnForm::Bits => {
            let upper = (pattern / 64 % 64) as u8;
            let lower = (pattern % 64) as u8;
            file.extend_from_slice(&[upper, lower])
        }
    }
}

/// Adds what stands behind the columns of a card.
pub(crate) fn push_end(file: &mut Vec<u8>, form: ColumnForm) -> Result<(), AllocError>
    ensures { OnOk result (file.new.items ≡ file.old.items ++ end_of form) }
{
    match form {
        ColumnForm::Glyph => Ok(file.push(LINE_FEED)?),
        ColumnForm::Digits => Ok(file.push(LINE_FEED)?),
        ColumnForm::Bits => Ok(()),
    }
}
