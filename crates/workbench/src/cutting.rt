//! The subcommand `cut`.

ghost use Rattle.std.specs.Prelude.{◌≡◌, true, length, IfErr, IfOk, IfSome, IsNone};
ghost use Rattle.card_forms.specs.ImageFiles.{has_file, image_file_of};
ghost use Rattle.card_tools.specs.Cutting.{HasPart, part_of};
ghost use Rattle.workbench.specs.Decks.{IsUnwritten};

use crate::decks::read_images_as;
use crate::process::Process;
use crate::undone::Undone;
use card_forms::{CardImage, Form, ImageFault, form_told, write_images};
use card_tools::{NumberPlace, cut, number_place};
use command_line::Status;
use std::alloc::Global;
use std::io::Write;
use workbench_arguments::{Cutting, Ends};

/// The file of the cards from one place to another, if there are such cards.
fn file_of_part(
    alloc: Global,
    form: Form,
    images: &[CardImage],
    first: usize,
    last: usize,
) -> Result<Option<Vec<u8>>, ImageFault>
    ensures part { IfOk result (λ found. IfSome found (λ file.
        HasPart first last (length images.now)
        × (has_file form (part_of first last images.now) ≡ true)
        × (file.items ≡ image_file_of form (part_of first last images.now)))) }
    ensures none { IfOk result (λ found. IsNone found →
        HasPart first last (length images.now) → ⊥) }
    ensures fault { IfErr result (λ fault. HasPart first last (length images.now)
        × IsUnwritten form (part_of first last images.now) fault) }
{
    let Some(part) = cut(images, first, last) else {
        return Ok(None);
    };
    match write_images(alloc, form, part) {
        Ok(file) => Ok(Some(file)),
        Err(fault) => Err(fault),
    }
}

/// The place of the one card with this in its columns 73 to 80. Where there is none, or more than
/// one, that is told.
fn place_with<W: Write, E: Write>(
    process: &mut Process<W, E>,
    path: &str,
    images: &[CardImage],
    number: &str,
) -> Result<usize, Undone> {
    match number_place(images, number.as_bytes()) {
        NumberPlace::Once(place) => return Ok(place),
        NumberPlace::Nowhere => writeln!(
            process.errors,
            "{path}: no card has {number} in columns 73 to 80"
        )?,
        NumberPlace::Twice(one, other) => writeln!(
            process.errors,
            "{path}: cards {one} and {other} have {number} in columns 73 to 80"
        )?,
    }
    Err(Undone::Told(Status::NotDone))
}

/// The places of the first and the last card of a part.
fn places<W: Write, E: Write>(
    process: &mut Process<W, E>,
    path: &str,
    images: &[CardImage],
    ends: Ends<'_>,
) -> Result<(usize, usize), Undone> {
    match ends {
        Ends::Places(first, last) => Ok((first as usize, last as usize)),
        Ends::Numbers(first, last) => {
            let first = place_with(process, path, images, first)?;
            let last = place_with(process, path, images, last)?;
            Ok((first, last))
        }
    }
}

/// Says why a deck has no such part.
fn tell_no_part<W: Write, E: Write>(
    process: &mut Process<W, E>,
    path: &str,
    (first, last): (usize, usize),
    count: usize,
) -> Result<Status, Undone> {
    if first > last {
        writeln!(
            process.errors,
            "{path}: card {first} stands behind card {last}; FIRST is to be before LAST"
        )?;
    } else {
        writeln!(
            process.errors,
            "{path}: there is no card {last}; it has {count}"
        )?;
    }
    Ok(Status::NotDone)
}

/// Makes a deck of some cards of another, in the same form.
pub(crate) fn cut_deck<W: Write, E: Write>(
    process: &mut Process<W, E>,
    cutting: Cutting<'_>,
) -> Result<Status, Undone> {
    let path = cutting.deck;
    let bytes = process.read(path)?;
    let images = match read_images_as(process.alloc(), None, &bytes) {
        Ok(images) => images,
        Err(fault) => return Err(process.tell_form(path, &bytes, fault)?),
    };
    let (first, last) = places(process, path, &images, cutting.ends)?;
    match file_of_part(process.alloc(), form_told(&bytes), &images, first, last) {
        Ok(Some(part)) => process.write(cutting.out, &part),
        Ok(None) => tell_no_part(process, path, (first, last), images.len()),
        Err(fault) => Err(process.tell_form(path, &bytes, fault)?),
    }
}
