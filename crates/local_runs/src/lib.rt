//! What the program does with decks and sources: it runs the one and assembles the other.
//!
//! [`run_deck`] runs the deck of a reader: what is written is the listing of the machine that ran
//! the text's deck, and the machine's standing is printed; or a fault is printed instead of
//! everything else. [`assemble_deck`] assembles the source at the beginning of a deck: its listing
//! is written, and the bytes for OUT are returned. Both take a reader and two writers and open no
//! files, so all of it runs in memory (`specs/Runs.antt`, `specs/Assembling.antt`, and for each way
//! to end `specs/Endings.antt`).
//!
//! [`run_input`], [`write_out`] and [`put_file`] connect them to files. The clauses of the kit do
//! not mention the contents of files, so `cases/check` and `examples/check` test that the right
//! file is read, and what is left at a path. The contracts cover the rest: [`run_input`] prints the
//! result of the run of some text, with the size and the switches that were given; and
//! [`write_out`] prints nothing and ends as the assembly did, or prints the fault: it had no
//! memory, or the device failed.
#![tactic(auto)]

mod assembling;
mod deck_files;
mod out_files;
mod pieces;
mod replacing;
mod running;
mod showing;
mod source_faults;
mod statuses;

pub use assembling::assemble_deck;
pub use deck_files::{assemble_file, run_input};
pub use out_files::write_out;
pub use replacing::{put_file, replace_file};
pub use running::{no_deck_is_cut_off, run_deck};
pub use showing::Assembled;
pub use statuses::status_at;
