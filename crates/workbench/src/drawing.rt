//! The subcommands `card`, `deck` and `pages`.

use crate::process::Process;
use crate::undone::Undone;
use card_forms::CardImage;
use command_line::Status;
use pictures::{ListingError, ListingFault, card_picture, deck_page, listing_pages};
use std::io;
use std::io::Write;

/// The card of a deck with this number, the first being 1.
fn card_with(deck: &[CardImage], number: u32) -> Option<&CardImage> {
    deck.get((number as usize).checked_sub(1)?)
}

/// Writes the picture of the card of a deck with this number.
pub(crate) fn draw_card<W: Write, E: Write>(
    process: &mut Process<W, E>,
    (path, out): (&str, &str),
    number: u32,
) -> Result<Status, Undone> {
    let deck = process.images_at(path)?;
    let Some(card) = card_with(&deck, number) else {
        let count = deck.len();
        writeln!(
            process.errors,
            "{path}: there is no card {number}; it has {count}"
        )?;
        return Ok(Status::NotDone);
    };
    let picture = card_picture(process.alloc(), card)?;
    process.write(out, &picture)
}

/// What a page is called: its title, or without one the name of the file that it shows.
pub(crate) fn title_or_name<'a>(title: Option<&'a str>, path: &'a str) -> &'a str {
    match title {
        Some(title) => title,
        None => path.rsplit('/').next().unwrap_or(path),
    }
}

/// Writes the page of a deck.
pub(crate) fn draw_deck<W: Write, E: Write>(
    process: &mut Process<W, E>,
    (path, out): (&str, &str),
    title: Option<&str>,
) -> Result<Status, Undone> {
    let deck = process.images_at(path)?;
    let title = title_or_name(title, path);
    let page = deck_page(process.alloc(), title.as_bytes(), &deck)?;
    process.write(out, &page)
}

/// Says why a text is no listing.
fn tell_fault<E: Write>(errors: &mut E, path: &str, fault: ListingFault) -> io::Result<Undone> {
    let line = fault.line;
    let column = fault.column;
    match fault.error {
        ListingError::NoMemory => return Ok(Undone::Memory),
        ListingError::Sign(byte) => writeln!(
            errors,
            "{path}: line {line} column {column}: the byte {byte} is in no listing"
        )?,
        ListingError::Length => writeln!(
            errors,
            "{path}: line {line} column {column}: the line is longer than 132 columns"
        )?,
    }
    Ok(Undone::Told(Status::NotDone))
}

/// Writes the pages of a listing.
pub(crate) fn draw_pages<W: Write, E: Write>(
    process: &mut Process<W, E>,
    (path, out): (&str, &str),
    title: Option<&str>,
) -> Result<Status, Undone> {
    let listing = process.read(path)?;
    let title = title_or_name(title, path);
    match listing_pages(process.alloc(), title.as_bytes(), &listing) {
        Ok(pages) => process.write(out, &pages),
        Err(fault) => Err(tell_fault(&mut process.errors, path, fault)?),
    }
}
