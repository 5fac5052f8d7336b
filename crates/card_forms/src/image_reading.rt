//! Reading cards from a file, of which each column may have any pattern.

ghost use Rattle.std.specs.Prelude.{◌≡◌, ◌≢◌, ◌<◌, ◌++◌, [], List, length, IfOk, IfErr, MatchResult};
ghost use Rattle.std.specs.List.{All};
ghost use Rattle.card_forms.specs.{
  ImageFaults.{IsCardFault, IsFaultIn, IsImageFault, out_of_memory},
  ImageFiles.{AreLines, IsImageFile, IsImageIn, line_of},
  Images.{IsImage},
  declared.images.CardImage.{CardImage},
};

use crate::columns::{ColumnForm, split_end, split_pattern};
use crate::faults::FormError;
use crate::forms::Form;
use crate::image_faults::{ImageFault, NO_MEMORY};
use crate::images::CardImage;
use crate::punch_files::in_capitals;
use crate::simh_texts::deck_text;
use cards::COLUMNS;
use std::alloc::Global;

/// Reads the images of cards, of any number, from a file in a form. In a punch file and in column
/// binary a column may have any pattern; the digits A to F may be small letters.
///
/// The error is the first fault in reading order, or that there is no memory.
pub fn read_images(alloc: Global, form: Form, bytes: &[u8]) -> Result<Vec<CardImage>, ImageFault>
    ensures images { IfOk result (λ images. IsImageFile form bytes.now images.items) }
    ensures patterns { IfOk result (λ images. All IsImage images.items) }
    ensures only { (images : List CardImage) → IsImageFile form bytes.now images →
        MatchResult result (λ found. found.items ≡ images) (λ fault. fault ≡ out_of_memory) }
    ensures fault { IfErr result (λ fault. IsImageFault form bytes.now fault) }
{
    match form {
        Form::Text => read_cards(alloc, ColumnForm::Glyph, bytes),
        Form::Punch => read_digits(alloc, bytes),
        Form::Simh => read_signs(alloc, bytes),
        Form::Binary => read_cards(alloc, ColumnForm::Bits, bytes),
    }
}

/// Reads the images of the cards of a punch file, whose digits may be small letters.
fn read_digits(alloc: Global, file: &[u8]) -> Result<Vec<CardImage>, ImageFault>
    ensures images { IfOk result (λ images. IsImageFile Form.Punch file.now images.items) }
    ensures patterns { IfOk result (λ images. All IsImage images.items) }
    ensures only { (images : List CardImage) → IsImageFile Form.Punch file.now images →
        MatchResult result (λ found. found.items ≡ images) (λ fault. fault ≡ out_of_memory) }
    ensures fault { IfErr result (λ fault. IsImageFault Form.Punch file.now fault) }
{
    let Ok(capitals) = in_capitals(alloc, file) else {
        return Err(NO_MEMORY);
    };
    read_cards(alloc, ColumnForm::Digits, &capitals)
}

/// Reads the images of the cards of a text of SimH.
fn read_signs(alloc: Global, text: &[u8]) -> Result<Vec<CardImage>, ImageFault>
    ensures images { IfOk result (λ images. IsImageFile Form.Simh text.now images.items) }
    ensures patterns { IfOk result (λ images. All IsImage images.items) }
    ensures only { (images : List CardImage) → IsImageFile Form.Simh text.now images →
        MatchResult result (λ found. found.items ≡ images) (λ fault. fault ≡ out_of_memory) }
    ensures fault { IfErr result (λ fault. IsImageFault Form.Simh text.now fault) }
{
    let Ok(glyphs) = deck_text(alloc, text) else {
        return Err(NO_MEMORY);
    };
    read_cards(alloc, ColumnForm::Glyph, &glyphs)
}

/// Reads the images of cards from their bytes.
fn read_cards(alloc: Global, form: ColumnForm, bytes: &[u8]) -> Result<Vec<CardImage>, ImageFault>
    ensures images { IfOk result (λ images. AreLines form bytes.now images.items) }
    ensures patterns { IfOk result (λ images. All IsImage images.items) }
    ensures only { (images : List CardImage) → AreLines form bytes.now images →
        MatchResult result (λ found. found.items ≡ images) (λ fault. fault ≡ out_of_memory) }
    ensures fault { IfErr result (λ fault. IsFaultIn form bytes.now fault) }
{
    read_lines(alloc, form, bytes)
}

/// The same, card by card.
fn read_lines(alloc: Global, form: ColumnForm, bytes: &[u8]) -> Result<Vec<CardImage>, ImageFault>
    ensures images { IfOk result (λ images. AreLines form bytes.now images.items) }
    ensures fault { IfErr result (λ fault. IsFaultIn form bytes.now fault) }
{
    let mut images = Vec::new(alloc);
    let mut rest = bytes;
    while !rest.is_empty() {
        let number = images.len() + 1;
        let (image, behind) = match split_card(form, rest, number) {
            Ok(found) => found,
            Err(fault) => return Err(fault),
        };
        let Ok(()) = images.push(image) else {
            return Err(NO_MEMORY);
        };
        rest = behind;
    }
    Ok(images)
}

/// The image of the first card, and the bytes behind it. A fault has the card's number.
fn split_card(
    form: ColumnForm,
    bytes: &[u8],
    number: usize,
) -> Result<(CardImage, &[u8]), ImageFault>
    ensures image { IfOk result (λ found. IsImageIn form found.0
        × (bytes.now ≡ line_of form found.0 ++ found.1.now)) }
    ensures card { IfErr result (λ fault. fault.card ≡ number) }
    ensures fault { IfErr result (λ fault. IsCardFault form bytes.now fault.column fault.error) }
{
    let mut columns = [0; COLUMNS];
    let mut rest = bytes;
    for index in 0..COLUMNS {
        let (pattern, behind) = match split_pattern(form, rest) {
            Ok(found) => found,
            Err(error) => return Err(ImageFault::behind(index, number, error)),
        };
        columns[index] = pattern;
        rest = behind;
    }
    match split_end(form, rest) {
        Some(behind) => Ok((CardImage(columns), behind)),
        None => Err(ImageFault::behind(COLUMNS, number, FormError::Length)),
    }
}
