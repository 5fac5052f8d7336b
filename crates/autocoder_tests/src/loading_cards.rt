//! A worked program with its listing, the cards that load it, and those of its data. More of them
//! are in `cases/assemblies`, which the program assembles.

use crate::coding_sheets::{deck_of, lines_of, text_of};
use autocoder::{Program, assemble, listing};
use autocoder_layout::SourceFault;
use bcd::Code;
use cards::{COLUMNS, Card, Deck};
use loader::{deck_to_run, object_deck};
use std::alloc::Global;
use std::test::Fail;

/// The program of a sheet's source.
fn program_of(alloc: Global, sheet: &str) -> Result<Program, Fail> {
    let deck = deck_of(alloc, sheet)?;
    match assemble(alloc, &deck) {
        Ok(program) => Ok(program),
        Err(_) => Err(Fail::from("a program")),
    }
}

/// A program with headings.
const HEADING_SOURCE: &str = "\
|CS|332|
|CS||
|SW|001|
READ|R||
|MCW|080,280|
|W||
|BLC|DONE|
|B|READ|
DONE|H||
|END||
";

/// Its cards. Its seventh mark after the first, at `B342`, begins a card.
const HEADING: &str = "\
,008015,022029,036040,047054,061068,072)008015)022029)036036N0000001040
/332/,0011M0802802B360A                L023355,337338,342343,3503511040
B342.                                  L006361,360361N000000N0000001040
                                       /333080
";

/// Its listing.
const LISTING: &str = "   1 00333                CS   332
   2 00337                CS
   3 00338                SW   001
   4 00342      READ      R
   5 00343                MCW  080,280
   6 00350                W
   7 00351                BLC  DONE
   8 00356                B    READ
   9 00360      DONE      H
  10                      END
";

/// The listing of a sheet's source.
fn listed(alloc: Global, sheet: &str) -> Result<String, Fail> {
    let deck = deck_of(alloc, sheet)?;
    let Ok(program) = assemble(alloc, &deck) else {
        return Err(Fail::from("a program"));
    };
    text_of(alloc, &listing(alloc, &deck, &program)?)
}

/// The cards that load the program of a sheet's source.
fn loading(alloc: Global, sheet: &str) -> Result<String, Fail> {
    let program = program_of(alloc, sheet)?;
    let deck = object_deck(alloc, &program)?;
    lines_of(alloc, deck.cards())
}

#[test]
fn a_program_is_listed_and_loaded(rt: HostRuntime) -> Result<(), Fail> {
    assert_eq!(rt; listed(rt.alloc(), HEADING_SOURCE)?.as_str(), LISTING);
    assert_eq!(rt; loading(rt.alloc(), HEADING_SOURCE)?.as_str(), HEADING);
    Ok(())
}

/// Blank cards.
fn blank_cards(alloc: Global, count: u32) -> Result<Deck, Fail> {
    let mut deck = Deck::empty(alloc);
    for _ in 0..count {
        deck.push(Card([Code::blank(); COLUMNS]))?;
    }
    Ok(deck)
}

/// A program of a hundred stretches of thirty-nine positions.
const HUNDRED_STRETCHES: &str = "\
|ORG|90|
|DCW|#3900|
|END|90|
";

/// The number of cards of the deck that runs the program of a sheet's source on `count` blank
/// cards, or else the number of the fault.
fn count_with(alloc: Global, sheet: &str, count: u32) -> Result<String, Fail> {
    let program = program_of(alloc, sheet)?;
    let data = blank_cards(alloc, count)?;
    match deck_to_run(alloc, &program, data.cards()) {
        Ok(deck) => Ok(format!(in alloc; "{} cards", deck.cards().len())?),
        Err(fault) => Ok(format!(in alloc; "fault {}", fault.number())?),
    }
}

#[test]
fn two_thousand_cards_and_no_more(rt: HostRuntime) -> Result<(), Fail> {
    for (data, wanted) in [
        (0, "102 cards"),
        (1897, "1999 cards"),
        (1898, "2000 cards"),
        (1899, "fault 33"),
        (2000, "fault 33"),
    ] {
        assert_eq!(rt;
            count_with(rt.alloc(), HUNDRED_STRETCHES, data)?.as_str(),
            wanted
        );
    }
    assert!(rt; SourceFault::NoMemory.number() == 1);
    Ok(())
}
