//! The subcommand `convert`.

ghost use Rattle.std.specs.Prelude.{◌≡◌, true, List, IfErr, IfOk};
ghost use Rattle.card_forms.specs.{
  ImageFiles.{IsImageFile, has_file, image_file_of},
  declared.images.CardImage.{CardImage},
};
ghost use Rattle.workbench.specs.Decks.{IsUnconverted};

use crate::decks::{Named, fault_of_deck, tell_form_fault};
use crate::process::Process;
use crate::undone::Undone;
use card_forms::{Form, FormError, ImageFault, read_images, write_images};
use command_line::Status;
use std::alloc::Global;
use std::io::Write;

/// The file of the same cards in another form.
fn converted(alloc: Global, reads: Form, bytes: &[u8], writes: Form) -> Result<Vec<u8>, ImageFault>
    ensures file { IfOk result (λ file. (images : List CardImage)
        × IsImageFile reads bytes.now images × (has_file writes images ≡ true)
        × (file.items ≡ image_file_of writes images)) }
    ensures fault { IfErr result (IsUnconverted reads bytes.now writes) }
{
    let images = read_images(alloc, reads, bytes)?;
    write_images(alloc, writes, &images)
}

/// The fault that is told of a file that is not converted: where a text is to be written, the first
/// one of the file as a deck of characters, if it has one.
fn first_fault(
    alloc: Global,
    (reads, bytes): (Form, &[u8]),
    writes: Form,
    fault: ImageFault,
) -> ImageFault {
    if let Form::Punch | Form::Binary = writes {
        return fault;
    }
    match card_forms::read(alloc, reads, bytes) {
        Err(told) if told.error != FormError::TooManyCards => fault_of_deck(told),
        _ => fault,
    }
}

/// Makes a deck of one form one of another.
pub(crate) fn convert<W: Write, E: Write>(
    process: &mut Process<W, E>,
    deck: (&str, Form),
    out: (&str, Form),
) -> Result<Status, Undone> {
    let (path, form) = deck;
    let bytes = process.read(path)?;
    match converted(process.alloc(), form, &bytes, out.1) {
        Ok(file) => process.write(out.0, &file),
        Err(fault) => {
            let fault = first_fault(process.alloc(), (form, &bytes), out.1, fault);
            let file = Named {
                path,
                bytes: &bytes,
            };
            Err(tell_form_fault(&mut process.errors, file, Some(form), fault)?)
        }
    }
}
