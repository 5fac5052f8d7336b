//! The Autocoder assembler: from the cards of a source to its program, and its listing.
//!
//! It assembles the pieces that `autocoder_layout` returns. Its contract for the layers above: a
//! program is that of its source's one layout (`specs/Programs.antt`), and cards can load it
//! (`specs/Loadable.antt`); the faults are exactly the source's, one for a card, in card order
//! (`specs/Programs.antt`); the listing is that of the deck (`specs/Listing.antt`), and its lines
//! are made by calls that other listings use too. Memory is taken by `assemble` and by all that
//! makes a listing; if there is none, that is a fault of its own.
//!
//! By [`faultless_sources_can_be_loaded`] cards can load the program of every source without
//! faults.
#![tactic(auto)]

mod faults;
mod laws;
mod lines;
mod listings;
mod program;

pub use faults::{Faults, Faulty};
pub use laws::faultless_sources_can_be_loaded;
pub use lines::{card_line, fills, push_fillers, push_glyphs, push_line, push_number};
pub use listings::listing;
pub use program::{Program, assemble};
