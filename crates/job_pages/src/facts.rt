//! The table of a page: what was run, how it stands, and the digests.

ghost use Rattle.std.specs.Prelude.{◌≡◌, ◌++◌, codes, length, option_map, OnOk};
ghost use Rattle.cards.specs.Files.{punch_file_of, text_of};
ghost use Rattle.job_pages.specs.Facts.{counted, deck_fact, further_words, listing_fact, machine_fact, maker_fact, punched_fact, row_named, source_fact, standing_fact, starts_words};

use crate::pages::JobShown;
use cards::{Card, Deck, write_punched_cards, write_text};
use pictures::push_escaped;
use std::alloc::{AllocError, Global};
use texts::{push_decimal, push_digest, push_switches};
use units::Switches;

/// Adds the beginning of a row, with its name.
fn push_name(out: &mut Vec<u8>, name: &[u8]) -> Result<(), AllocError>
    ensures { OnOk result (out.new.items ≡ out.old.items ++ row_named name.now) }
{
    out.extend_from_slice(b"<tr><th>")?;
    out.extend_from_slice(name)?;
    out.extend_from_slice(b"</th><td>")
}

/// Adds how many there are of something, what it is, and the digest of its bytes.
fn push_counted(
    alloc: Global,
    out: &mut Vec<u8>,
    count: usize,
    what: &[u8],
    bytes: &[u8],
) -> Result<(), AllocError>
    ensures { OnOk result (out.new.items ≡ out.old.items ++ counted count what.now bytes.now) }
{
    push_decimal(out, count)?;
    out.extend_from_slice(what)?;
    out.extend_from_slice(b", SHA-256 <code>")?;
    push_digest(alloc, out, bytes)?;
    out.extend_from_slice(b"</code></td></tr>\n")
}

/// Adds how many cards a deck has, and the digest of its text.
fn push_deck_counted(alloc: Global, out: &mut Vec<u8>, deck: &Deck) -> Result<(), AllocError>
    ensures { OnOk result (out.new.items
        ≡ out.old.items ++ counted (length deck.now) (codes " cards") (text_of deck.now)) }
{
    let text = write_text(alloc, deck)?;
    push_counted(alloc, out, deck.cards().len(), b" cards", &text)
}

/// Adds the row of a deck, under this name.
pub(crate) fn push_deck(
    alloc: Global,
    out: &mut Vec<u8>,
    name: &[u8],
    deck: &Deck,
) -> Result<(), AllocError>
    ensures { OnOk result (out.new.items ≡ out.old.items ++ deck_fact name.now deck.now) }
{
    push_name(out, name)?;
    push_deck_counted(alloc, out, deck)
}

/// Adds the row of what was handed in, if it is a source.
pub(crate) fn push_source(
    alloc: Global,
    out: &mut Vec<u8>,
    source: Option<&Deck>,
) -> Result<(), AllocError>
    ensures { OnOk result (out.new.items
        ≡ out.old.items ++ source_fact (option_map (λ it. it.now) source.entry)) }
{
    match source {
        Some(source) => push_deck(alloc, out, b"source and data", source),
        None => Ok(()),
    }
}

/// Adds the switches of the starts behind the first.
fn push_further(out: &mut Vec<u8>, further: &[Switches]) -> Result<(), AllocError>
    ensures { OnOk result (out.new.items ≡ out.old.items ++ further_words further.now) }
{
    for switches in further {
        out.extend_from_slice(b", then ")?;
        push_switches(out, *switches)?;
    }
    Ok(())
}

/// Adds the switches of all starts.
fn push_starts(out: &mut Vec<u8>, starts: &[Switches]) -> Result<(), AllocError>
    ensures { OnOk result (out.new.items ≡ out.old.items ++ starts_words starts.now) }
{
    let Some((first, further)) = starts.split_first() else {
        return Ok(());
    };
    push_switches(out, *first)?;
    push_further(out, further)
}

/// Adds the row of the machine: its size, and the switches of its starts.
pub(crate) fn push_machine(out: &mut Vec<u8>, shown: &JobShown<'_>) -> Result<(), AllocError>
    ensures { OnOk result (out.new.items
        ≡ out.old.items ++ machine_fact shown.now.size shown.now.switches.now) }
{
    push_name(out, b"machine")?;
    push_decimal(out, shown.size.positions() as usize)?;
    out.extend_from_slice(b" positions, switches ")?;
    push_starts(out, shown.switches)?;
    out.extend_from_slice(b"</td></tr>\n")
}

/// Adds the row of how the job stands.
pub(crate) fn push_standing(out: &mut Vec<u8>, row: &[u8], words: &[u8]) -> Result<(), AllocError>
    ensures { OnOk result (out.new.items ≡ out.old.items ++ standing_fact row.now words.now) }
{
    push_name(out, row)?;
    out.extend_from_slice(words)?;
    out.extend_from_slice(b"</td></tr>\n")
}

/// Adds the row of the listing of so many lines.
pub(crate) fn push_listing(
    alloc: Global,
    out: &mut Vec<u8>,
    count: usize,
    listing: &[u8],
) -> Result<(), AllocError>
    ensures { OnOk result (out.new.items ≡ out.old.items ++ listing_fact count listing.now) }
{
    push_name(out, b"listing")?;
    push_counted(alloc, out, count, b" lines", listing)
}

/// Adds how many cards there are, and the digest of their punch file.
fn push_cards_counted(alloc: Global, out: &mut Vec<u8>, cards: &[Card]) -> Result<(), AllocError>
    ensures { OnOk result (out.new.items
        ≡ out.old.items ++ counted (length cards.now) (codes " cards") (punch_file_of cards.now)) }
{
    let file = write_punched_cards(alloc, cards)?;
    push_counted(alloc, out, cards.len(), b" cards", &file)
}

/// Adds the row of the punched cards.
pub(crate) fn push_punched(
    alloc: Global,
    out: &mut Vec<u8>,
    cards: &[Card],
) -> Result<(), AllocError>
    ensures { OnOk result (out.new.items ≡ out.old.items ++ punched_fact cards.now) }
{
    push_name(out, b"punch file")?;
    push_cards_counted(alloc, out, cards)
}

/// Adds the row of what made the page.
pub(crate) fn push_maker(out: &mut Vec<u8>, version: &[u8]) -> Result<(), AllocError>
    ensures { OnOk result (out.new.items ≡ out.old.items ++ maker_fact version.now) }
{
    push_name(out, b"made by")?;
    push_escaped(out, version)?;
    out.extend_from_slice(b"</td></tr>\n")
}
