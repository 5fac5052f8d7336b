//! The subcommands `list` and `compare`.

use crate::process::{Process, status_if};
use crate::undone::Undone;
use card_tools::{ListOptions, compare, list};
use command_line::Status;
use std::io::Write;
use workbench_arguments::DeckListing;

/// Prints the cards of a deck.
pub(crate) fn list_deck<W: Write, E: Write>(
    process: &mut Process<W, E>,
    listing: DeckListing<'_>,
) -> Result<Status, Undone> {
    let DeckListing {
        deck,
        ruler,
        punches,
    } = listing;
    let images = process.images_at(deck)?;
    let text = list(process.alloc(), &images, ListOptions { ruler, punches })?;
    process.print(&text, Status::Done)
}

/// Prints the cards in which two decks differ.
pub(crate) fn compare_decks<W: Write, E: Write>(
    process: &mut Process<W, E>,
    one: &str,
    other: &str,
) -> Result<Status, Undone> {
    let first = process.images_at(one)?;
    let second = process.images_at(other)?;
    let found = compare(process.alloc(), &first, &second)?;
    process.print(&found.text, status_if(found.differing == 0))
}
