//! Decks, cards with their pockets and lines as rows, and read again.

use bcd::Code;
use cards::{COLUMNS, Card};
use ledger_rows::{
    card_bytes, line_row, pocket_cell, profile_row, read_deck, read_punch, read_punched, read_rows,
};
use ledger_tables::{CardRow, LineRow, PocketRow};
use std::alloc::Global;
use std::test::Fail;
use units::{Line, Punch, Punched};

/// The row of a card.
fn card_row(alloc: Global, card: &Card) -> Result<CardRow, Fail> {
    let card = Vec::from_slice(alloc, &card_bytes(card))?;
    Ok(CardRow { card })
}

/// Punched cards, written as rows and read back.
fn cards_again(alloc: Global, cards: &[Punched]) -> Result<Vec<Punched>, Fail> {
    let mut rows = Vec::new(alloc);
    let mut pockets = Vec::new(alloc);
    let mut place = 0u32;
    for punched in cards {
        place = place.saturating_add(1);
        rows.push(card_row(alloc, &punched.card)?)?;
        if let Some(pocket) = pocket_cell(punched.pocket) {
            pockets.push(PocketRow { place, pocket })?;
        }
    }
    Ok(read_punched(alloc, &rows, &pockets)?.ok_or("punched cards")?)
}

/// A punch, written as rows and read back.
pub(crate) fn punch_again(alloc: Global, punch: &Punch) -> Result<Punch, Fail> {
    let mut again = read_punch(alloc, profile_row(punch)).ok_or("a punch")?;
    again.cards = cards_again(alloc, &punch.cards)?;
    Ok(again)
}

/// Lines, written as rows and read back.
pub(crate) fn lines_again(alloc: Global, lines: &[Line]) -> Result<Vec<Line>, Fail> {
    let mut rows = Vec::new(alloc);
    for line in lines {
        rows.push(line_row(alloc, line)?)?;
    }
    Ok(read_rows::<LineRow, Line>(alloc, &rows)?.ok_or("lines")?)
}

/// The numbers of the pockets of three cards that have these rows of pockets.
fn pockets_of(alloc: Global, pockets: &[PocketRow]) -> Result<[u32; 3], Fail> {
    let mut rows = Vec::new(alloc);
    for _ in 0..3 {
        rows.push(card_row(alloc, &Card([Code::blank(); COLUMNS]))?)?;
    }
    let cards = read_punched(alloc, &rows, pockets)?.ok_or("punched cards")?;
    let mut numbers = [0; 3];
    for (number, punched) in numbers.iter_mut().zip(&cards) {
        *number = punched.pocket.number();
    }
    Ok(numbers)
}

/// A row of a pocket.
fn pocket_row(place: u32, pocket: u32) -> PocketRow {
    PocketRow { place, pocket }
}

/// A row of a place that another row has too counts in its place.
#[test]
fn the_last_row_of_a_place_counts(rt: HostRuntime) -> Result<(), Fail> {
    let alloc = rt.alloc();
    let twice = [pocket_row(2, 4), pocket_row(2, 8)];
    assert!(rt; pockets_of(alloc, &twice)? == [0, 8, 0]);
    let apart = [pocket_row(2, 8), pocket_row(3, 4), pocket_row(2, 4)];
    assert!(rt; pockets_of(alloc, &apart)? == [0, 4, 4]);
    Ok(())
}

/// A deck without cards, and a line past the end of a form: bytes that are read, and that are out of
/// range only for a machine.
#[test]
fn what_only_a_machine_cannot_have(rt: HostRuntime) -> Result<(), Fail> {
    let alloc = rt.alloc();
    assert!(rt; read_deck(alloc, &[])?.is_some());
    let line = Line {
        form: 1,
        line: 255,
        codes: [Code::blank(); 132],
    };
    let again = lines_again(alloc, &[line])?;
    assert!(rt; again.as_slice() == [line].as_slice());
    Ok(())
}

/// A line of a late form, and its row.
#[test]
fn a_line_is_the_row_that_it_is(rt: HostRuntime) -> Result<(), Fail> {
    let alloc = rt.alloc();
    let code = Code::from_glyph(b'Z').ok_or("a glyph")?;
    let line = Line {
        form: 2_000_000_000,
        line: 66,
        codes: [code; 132],
    };
    let row = line_row(alloc, &line)?;
    assert!(rt; row.form == 2_000_000_000);
    assert!(rt; row.line == 66);
    assert!(rt; row.image.as_slice() == [25u8; 132].as_slice());
    let again = lines_again(alloc, &[line])?;
    assert!(rt; again.as_slice() == [line].as_slice());
    Ok(())
}
