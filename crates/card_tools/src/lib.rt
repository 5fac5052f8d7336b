//! What is printed of cards and done to them: a deck listed, two decks compared, the numbers in the
//! columns 73 to 80 of a deck's cards, a deck's line in a manifest, and a part of a deck.
//!
//! The crate uses `cards`, and of `card_forms` the images of cards: what is listed, compared,
//! digested and cut may have columns that are no characters, and any number of cards. Its contract
//! for the layers above: each printed text is exactly that of a definition (`specs/Listing.antt`,
//! `specs/Comparing.antt`, `specs/Checking.antt`, `specs/Manifests.antt`), the deck that is numbered
//! is that of `specs/Numbering.antt`, with the columns 1 to 72 of every card as they were, and the
//! part that is cut out is that of `specs/Cutting.antt`. Of characters what is printed is their
//! glyphs ([`characters_are_shown_by_glyphs`]).
#![tactic(auto)]

mod checking;
mod comparing;
mod cutting;
mod laws;
mod lines;
mod listing;
mod manifests;
mod numbering;

pub use checking::{check_sequence, numbers_rise};
pub use comparing::{Comparison, compare};
pub use cutting::{NumberPlace, cut, number_place};
pub use laws::{
    characters_are_shown_by_glyphs, manifest_lines_have_one_reading, numbered_is_in_order,
    same_decks_do_not_differ,
};
pub use lines::push_numbered;
pub use listing::{ListOptions, list, list_from};
pub use manifests::{ManifestEntry, counted_line, has_count, manifest_line, read_manifest_line};
pub use numbering::{SequenceError, SequenceFault, sequence};
