//! The forms of a deck's file: as text, as punches, as SimH's IBM 1401 reads and punches it, and as
//! column binary; and the images of cards, of which a column may be no character.
//!
//! The crate uses `cards`, which has the first two forms; a file of the others is read as the deck
//! text or the punch file that it stands for, and a punch file with small digits as the one with
//! capitals (`specs/PunchFiles.antt`). Its contract for the layers above: what is written is
//! the file of the deck in that form (`specs/Forms.antt`); what is read is the one deck of which
//! the bytes are a file, or else the first fault in reading order (`specs/Faults.antt`). The signs
//! of SimH are in `specs/Signs.antt`.
//!
//! [`read_images`] and [`write_images`] are the same for the images of any number of cards
//! (`specs/Images.antt`, `specs/ImageFiles.antt`, `specs/ImageFaults.antt`), and agree with them on
//! decks ([`images_agree`]).
#![tactic(auto)]

mod column_binary;
mod columns;
mod faults;
mod forms;
mod image_faults;
mod image_reading;
mod image_writing;
mod images;
mod laws;
mod punch_files;
mod reading;
mod signs;
mod simh_texts;
mod writing;

pub use faults::{FormError, FormFault, OUT_OF_MEMORY};
pub use forms::Form;
pub use image_faults::{ImageFault, NO_MEMORY, first_odd};
pub use image_reading::read_images;
pub use image_writing::write_images;
pub use images::{
    CardImage, are_characters, character_of, filled_columns, glyph_shown, image_of, images_of,
};
pub use laws::{forms_agree, images_agree};
pub use punch_files::is_punch_line;
pub use reading::{form_told, read, read_either};
pub use signs::{filled, simh_glyph};
pub use writing::write;
