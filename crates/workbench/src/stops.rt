//! The address before whose instruction a run ends, as it is given.

use crate::process::Process;
use crate::undone::Undone;
use autocoder_layout::source_of;
use cards::write_text;
use command_line::{Status, is_near};
use core_store::LARGEST_SIZE;
use run_traces::Names;
use std::io::Write;
use texts::number_of;

/// How many bytes a card takes in a deck's text.
const CARD_BYTES: usize = 81;

/// The address that a number is.
pub(crate) fn address_at(number: u32) -> Option<u16> {
    if number < u32::from(LARGEST_SIZE) {
        Some(number as u16)
    } else {
        None
    }
}

/// The address that a number in a text is.
fn address_of(text: &str) -> Option<u16> {
    match number_of(text) {
        Some(number) => address_at(number),
        None => None,
    }
}

/// A text up to the first of these bytes.
fn before<'a>(text: &'a [u8], ends: &[u8]) -> &'a [u8] {
    match text.iter().position(|byte| ends.contains(byte)) {
        Some(place) => text.get(..place).unwrap_or(text),
        None => text,
    }
}

/// The label of a card in the text of a source: from column 6 up to a blank.
fn label_of(card: &[u8]) -> &[u8] {
    if card.len() < CARD_BYTES {
        return &[];
    }
    before(&card[5..11], b" *")
}

/// The label in the text of a source that is nearly a name; none if there are several.
fn near_label<'a>(source: &'a [u8], name: &[u8]) -> Option<&'a [u8]> {
    let mut near = None;
    for card in source.chunks(CARD_BYTES) {
        let label = label_of(card);
        if !label.is_empty() && label != name && is_near(label, name) {
            if near.is_some() {
                return None;
            }
            near = Some(label);
        }
    }
    near
}

/// Says which name of the source in a file a text may mean, if one of them is nearly it.
fn tell_near<W: Write, E: Write>(
    process: &mut Process<W, E>,
    text: &str,
    source: &str,
) -> Result<(), Undone> {
    if source == "-" {
        return Ok(());
    }
    let deck = process.deck_at(source)?;
    let cards = write_text(process.alloc(), &deck)?;
    let length = CARD_BYTES.saturating_mul(source_of(deck.cards()).len());
    if let Some(cards) = cards.get(..length) {
        if let Some(label) = near_label(cards, before(text.as_bytes(), b"&-")) {
            process.errors.write_all(b"; did you mean ")?;
            process.errors.write_all(label)?;
            process.errors.write_all(b"?")?;
        }
    }
    Ok(())
}

/// The address that a text names.
pub(crate) fn address_in<E: Write>(text: &str, errors: &mut E) -> Result<u16, Undone> {
    if let Some(address) = address_of(text) {
        return Ok(address);
    }
    writeln!(
        errors,
        "--stop {text}: that is no address; one is a number from 1 to 15999"
    )?;
    Err(Undone::Told(Status::Misused))
}

/// The address that a text names, by the names of the source in a file if there are some.
pub(crate) fn address_by<W: Write, E: Write>(
    process: &mut Process<W, E>,
    text: &str,
    names: Option<&Names>,
    source: Option<&str>,
) -> Result<u16, Undone> {
    let address = match names {
        Some(names) => names.position_named(process.alloc(), text)?,
        None => address_of(text),
    };
    if let Some(address) = address {
        return Ok(address);
    }
    write!(
        process.errors,
        "--stop {text}: that is no address; one is a number from 1 to 15999, or with --names a \
         name of the source, as READ or READ&7"
    )?;
    if let Some(source) = source {
        tell_near(process, text, source)?;
    }
    writeln!(process.errors)?;
    Err(Undone::Told(Status::Misused))
}
