//! A machine kept as rows, and made again from them.

use crate::rows::decks::punching_deck;
use crate::rows::media::{lines_again, punch_again};
use core_store::{Core, FlagCore, LARGEST_SIZE, PAGE_SIZE, Size};
use ledger_rows::{
    Media, deck_bytes, is_blank_page, page_bytes, read_deck, read_picture, read_switches,
    state_row, switches_number,
};
use ledger_tables::{PageRow, StateRow};
use machine::{Machine, Meter, Parts};
use std::alloc::Global;
use std::test::Fail;
use units::{Profile, Switches, render};

/// Runs a machine for at most `limit` instructions.
fn run_on<C: Core>(machine: &mut Machine<C>, limit: u32) -> Result<(), Fail> {
    machine.run(limit, &mut Meter::new())?;
    Ok(())
}

/// A machine with stacker selection that prints two lines and punches four cards, after it has run
/// for at most `limit` instructions.
fn machine_after<C: Core>(alloc: Global, limit: u32) -> Result<Machine<C>, Fail> {
    let deck = punching_deck(alloc)?;
    if deck.cards().is_empty() {
        return Err("no card")?;
    }
    let (size, profile) = (Size::Positions1400, Profile::Selecting);
    let mut machine = Machine::<C>::load(alloc, deck, size, Switches::A, profile)?;
    run_on(&mut machine, limit)?;
    Ok(machine)
}

/// The rows of the pages of a storage that are not blank.
fn page_rows<C: Core>(alloc: Global, core: &C) -> Result<Vec<PageRow>, Fail> {
    let mut rows = Vec::new(alloc);
    if core.size() > LARGEST_SIZE {
        return Err("too many positions")?;
    }
    for page in 0..core.size() / PAGE_SIZE {
        let bytes = page_bytes(core, page);
        if !is_blank_page(&bytes) {
            rows.push(PageRow {
                page: u32::from(page),
                storage: Vec::from_slice(alloc, &bytes)?,
            })?;
        }
    }
    Ok(rows)
}

/// The media of a machine, written and read back.
fn media_of<C: Core>(alloc: Global, parts: &Parts<C>) -> Result<Media, Fail> {
    let bytes = deck_bytes(alloc, &parts.units.hopper.deck)?;
    Ok(Media {
        deck: read_deck(alloc, &bytes)?.ok_or("a deck")?,
        switches: read_switches(switches_number(parts.units.switches)).ok_or("switches")?,
        punch: punch_again(alloc, &parts.units.punch)?,
        lines: lines_again(alloc, &parts.units.printer.lines)?,
    })
}

/// The picture of a machine from its rows, if they are one: with this row of its state, and at most
/// so many of its cards and of its lines.
fn picture_of<C: Core>(
    alloc: Global,
    machine: &Machine<C>,
    state: StateRow,
    most: usize,
) -> Result<Option<Parts<C>>, Fail> {
    let parts = machine.parts();
    let pages = page_rows(alloc, &parts.core)?;
    let mut media = media_of(alloc, parts)?;
    media.punch.cards.truncate(most);
    media.lines.truncate(most);
    let positions = u32::from(parts.core.size());
    Ok(read_picture::<C>(alloc, positions, state, pages.as_slice(), media)?)
}

/// A machine made again from the rows of this one.
fn again<C: Core>(alloc: Global, machine: &Machine<C>) -> Result<Machine<C>, Fail> {
    let state = state_row(machine.parts());
    let parts = picture_of(alloc, machine, state, 4)?.ok_or("a picture")?;
    Ok(Machine::from_parts(alloc, parts)?.ok_or("a picture in range")?)
}

/// The rows of a machine's state and of its pages, as a text.
fn rows_text<C: Core>(alloc: Global, machine: &Machine<C>) -> Result<String, Fail> {
    let parts = machine.parts();
    let mut text = format!(in alloc; "{:?}", state_row(parts))?;
    for row in &page_rows(alloc, &parts.core)? {
        write!(&mut text, "; {} ", row.page)?;
        for byte in &row.storage {
            text.push(*byte as char)?;
        }
    }
    Ok(text)
}

/// Whether two machines have the same rows.
fn are_same<C: Core>(alloc: Global, one: &Machine<C>, other: &Machine<C>) -> Result<bool, Fail> {
    let rows = rows_text(alloc, one)?;
    Ok(rows.as_str() == rows_text(alloc, other)?.as_str())
}

/// Whether the listing of a machine after it has run on is this.
fn lists<C: Core>(alloc: Global, machine: &mut Machine<C>, wanted: &[u8]) -> Result<bool, Fail> {
    run_on(machine, 2000)?;
    Ok(render(alloc, &machine.parts().units.printer.lines)?.as_slice() == wanted)
}

/// Whether a machine that is made again from the rows of this one has the same rows, and lists both
/// data cards after it has run on.
fn goes_on<C: Core>(alloc: Global, machine: &Machine<C>) -> Result<bool, Fail> {
    let mut next = again(alloc, machine)?;
    let are_same = are_same(alloc, machine, &next)?;
    Ok(are_same && lists(alloc, &mut next, b"HELLO\nWORLD\n")?)
}

/// The same for a machine that has run for at most `limit` instructions.
fn goes_on_after<C: Core>(alloc: Global, limit: u32) -> Result<bool, Fail> {
    let machine = machine_after::<C>(alloc, limit)?;
    goes_on(alloc, &machine)
}

#[test]
fn a_machine_goes_on_from_its_rows(rt: HostRuntime) -> Result<(), Fail> {
    for limit in [0, 22, 26, 28, 2000] {
        assert!(rt;
            goes_on_after::<FlagCore>(rt.alloc(), limit)?,
            "after {limit}"
        );
    }
    Ok(())
}

/// How many cards and lines were made before those of the media, where a machine's row counts so
/// many, and the media have at most `most` of each; if that is a picture.
fn before<C: Core>(
    alloc: Global,
    machine: &Machine<C>,
    (cards, lines): (u32, u32),
    most: usize,
) -> Result<Option<(u32, u32)>, Fail> {
    let mut state = state_row(machine.parts());
    state.cards = cards;
    state.lines = lines;
    match picture_of(alloc, machine, state, most)? {
        Some(parts) => Ok(Some((parts.units.before.cards, parts.units.before.lines))),
        None => Ok(None),
    }
}

/// The same for a machine at its halt, which has made four cards and two lines.
fn before_at_the_halt<C: Core>(
    alloc: Global,
    counts: (u32, u32),
    most: usize,
) -> Result<Option<(u32, u32)>, Fail> {
    let machine = machine_after::<C>(alloc, 2000)?;
    before(alloc, &machine, counts, most)
}

/// Those beyond the media were made before. No picture counts less than its media.
#[test]
fn cards_and_lines_that_were_made_before(rt: HostRuntime) -> Result<(), Fail> {
    for (counts, most, wanted) in [
        ((4, 2), 4, Some((0, 0))),
        ((4, 2), 2, Some((2, 0))),
        ((4, 2), 1, Some((3, 1))),
        ((4, 2), 0, Some((4, 2))),
        ((3, 2), 4, None),
        ((4, 1), 4, None),
    ] {
        let made = before_at_the_halt::<FlagCore>(rt.alloc(), counts, most)?;
        assert!(rt; made == wanted, "{counts:?} of {most}");
    }
    Ok(())
}
