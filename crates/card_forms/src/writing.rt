//! Writing a deck in one of the forms.

ghost use Rattle.std.specs.Prelude.{◌≡◌, IfOk};
ghost use Rattle.card_forms.specs.Forms.{file_of};

use crate::column_binary::binary;
use crate::forms::Form;
use crate::simh_texts::simh_text;
use cards::{Deck, write_punched, write_text};
use std::alloc::{AllocError, Global};

/// Returns the file of a deck in a form. Fails only if there is no memory.
pub fn write(alloc: Global, form: Form, deck: &Deck) -> Result<Vec<u8>, AllocError>
    ensures { IfOk result (λ file. file.items ≡ file_of form deck.now) }
{
    match form {
        Form::Text => write_text(alloc, deck),
        Form::Punch => write_punched(alloc, deck),
        Form::Simh => simh_text(alloc, deck.cards()),
        Form::Binary => binary(alloc, deck.cards()),
    }
}
