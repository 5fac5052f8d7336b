//! Cards, lines and pictures of machines as columns of the tables.
//!
//! `specs/Columns.antt` defines which bytes and numbers represent which values. Each pair of calls
//! here is exact in both directions: what was written is read as the same value, and what is read
//! would be written as the same bytes and numbers. Bytes and numbers that represent no value are
//! read as `None`.
#![tactic(auto)]

mod codes;
mod decks;
mod from_cells;
mod lines;
mod numbers;
mod pages;
mod parts;
mod pockets;
mod progress;
mod storage;

pub use decks::{card_bytes, deck_bytes, read_deck};
pub use from_cells::{FromCells, read_rows};
pub use lines::{line_bytes, line_row};
pub use numbers::{read_switches, read_truth, switches_number, truth};
pub use pages::{is_blank_page, page_bytes};
pub use parts::{Media, read_carriage, read_picture, state_row};
pub use pockets::{pocket_cell, profile_row, read_punch, read_punched};
pub use progress::{Progress, read_progress};
pub use storage::{read_storage, storage_holds_characters};
