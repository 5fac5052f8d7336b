//! Decks of cards, and the two files that a deck is read from and written to.
//!
//! A deck text has the eighty glyphs of each card and a line feed. A punch file has three
//! upper-case hexadecimal digits a column in place of the glyph: the twelve rows of the column, row
//! 12 the highest bit and row 9 the lowest. A deck has at most 2,000 cards.
//!
//! The crate uses `bcd`, in which no two of the 64 characters have the same glyph or the same
//! punches. Its contract for the layers above: a deck is the list of its cards; what is written is
//! the one text or punch file of the deck (`specs/Files.antt`); what is read is the one deck whose
//! file it is, or else the first fault in reading order (`specs/Faults.antt`). Reading and writing
//! take one pass, and memory once, before the first card.
#![tactic(auto)]

mod decks;
mod faults;
mod forms;
mod laws;
mod lines;
mod reading;
mod writing;

pub use decks::{COLUMNS, Card, Deck, LARGEST_DECK};
pub use faults::{CardError, CardFault, DeckFault, OUT_OF_MEMORY};
pub use forms::LINE_FEED;
pub use laws::one_reading;
pub use reading::{read_punched, read_text};
pub use writing::{write_punched, write_punched_cards, write_text};
