//! Writing the images of cards in a form.

ghost use Rattle.std.specs.Prelude.{◌≡◌, ◌++◌, ◌⊎◌, true, false, IfOk, IfErr, IfSome, IsNone, OnOk};
ghost use Rattle.std.specs.List.{flat_map};
ghost use Rattle.card_forms.specs.{
  ImageFaults.{IsFirstOdd, out_of_memory},
  ImageFiles.{column_of, has_file, image_file_of, line_of, lines_of, simh_line_of},
};

use crate::columns::{ColumnForm, push_end, push_pattern};
use crate::forms::Form;
use crate::image_faults::{ImageFault, NO_MEMORY, first_odd};
use crate::images::{CardImage, filled_columns, sign_shown};
use cards::LINE_FEED;
use std::alloc::{AllocError, Global};

/// Returns the file of cards, of any number, in a form. A deck text and a text of SimH have
/// characters alone.
///
/// The error is the first column that is no character, or that there is no memory.
pub fn write_images(alloc: Global, form: Form, images: &[CardImage]) -> Result<Vec<u8>, ImageFault>
    ensures file { IfOk result (λ file. (has_file form images.now ≡ true)
        × (file.items ≡ image_file_of form images.now)) }
    ensures fault { IfErr result (λ fault. (fault ≡ out_of_memory)
        ⊎ ((has_file form images.now ≡ false) × IsFirstOdd images.now fault)) }
{
    if let Some(fault) = hindrance(form, images) {
        return Err(fault);
    }
    match written(alloc, form, images) {
        Ok(file) => Ok(file),
        Err(_) => Err(NO_MEMORY),
    }
}

/// Why a form has no file of cards, if it has none.
fn hindrance(form: Form, images: &[CardImage]) -> Option<ImageFault>
    ensures odd { IfSome result (λ fault. (has_file form images.now ≡ false)
        × IsFirstOdd images.now fault) }
    ensures none { IsNone result → has_file form images.now ≡ true }
{
    match form {
        Form::Text => first_odd(images),
        Form::Punch => None,
        Form::Simh => first_odd(images),
        Form::Binary => None,
    }
}

/// What is written of cards in a form.
fn written(alloc: Global, form: Form, images: &[CardImage]) -> Result<Vec<u8>, AllocError>
    ensures { IfOk result (λ file. file.items ≡ image_file_of form images.now) }
{
    match form {
        Form::Text => lines(alloc, ColumnForm::Glyph, images),
        Form::Punch => lines(alloc, ColumnForm::Digits, images),
        Form::Simh => simh_lines(alloc, images),
        Form::Binary => lines(alloc, ColumnForm::Bits, images),
    }
}

/// Adds the bytes of columns.
fn push_patterns(file: &mut Vec<u8>, form: ColumnForm, patterns: &[u16]) -> Result<(), AllocError>
    ensures { OnOk result (file.new.items
        ≡ file.old.items ++ flat_map (column_of form) patterns.now) }
{
    for pattern in patterns {
        push_pattern(file, form, *pattern)?;
    }
    Ok(())
}

/// Adds the bytes of a card.
fn push_line(file: &mut Vec<u8>, form: ColumnForm, image: &CardImage) -> Result<(), AllocError>
    ensures { OnOk result (file.new.items ≡ file.old.items ++ line_of form image.now) }
{
    push_patterns(file, form, &image.0)?;
    push_end(file, form)
}

/// The bytes of cards.
fn lines(alloc: Global, form: ColumnForm, images: &[CardImage]) -> Result<Vec<u8>, AllocError>
    ensures { IfOk result (λ file. file.items ≡ lines_of form images.now) }
{
    let mut file = Vec::new(alloc);
    for image in images {
        push_line(&mut file, form, image)?;
    }
    Ok(file)
}

/// Adds the line that SimH punches of a card of characters.
fn push_simh_line(text: &mut Vec<u8>, image: &CardImage) -> Result<(), AllocError>
    ensures { OnOk result (text.new.items ≡ text.old.items ++ simh_line_of image.now) }
{
    for pattern in filled_columns(image) {
        text.push(sign_shown(*pattern))?;
    }
    text.push(LINE_FEED)?;
    Ok(())
}

/// The text that SimH punches of cards of characters.
fn simh_lines(alloc: Global, images: &[CardImage]) -> Result<Vec<u8>, AllocError>
    ensures { IfOk result (λ text. text.items ≡ flat_map simh_line_of images.now) }
{
    let mut text = Vec::new(alloc);
    for image in images {
        push_simh_line(&mut text, image)?;
    }
    Ok(text)
}
