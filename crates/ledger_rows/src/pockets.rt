//! The pockets of punched cards as rows, and the profile of a punch.

ghost use Rattle.std.specs.Prelude.{◌≡◌, ◌≤◌, ◌↔◌, ◌⊎◌, [], All, List, length, map, IfOk, IfSome, IsNone, IsSome, IsTrue, Some};
ghost use Rattle.cards.specs.Decks.{IsCard};
ghost use Rattle.ledger_tables.specs.Named.{ArePockets};
ghost use Rattle.units.specs.{
  Stacked.{Stacked},
  declared.pockets.Pocket.{Pocket},
  declared.punch.Punched.{Punched},
};
ghost use Rattle.ledger_rows.specs.{
  Columns.{profile_row},
  Pockets.{ArePunched, IsPocketOf, IsPunched, named_pocket, pocket_cell, pocket_rows_of, punched_bytes, with_pocket, with_pockets},
};

use crate::decks::read_card;
use crate::from_cells::{FromCells, read_rows};
use crate::numbers::{profile_number, read_pocket, read_profile};
use ledger_tables::{CardRow, PocketRow, ProfileRow};
use std::alloc::{AllocError, Global};
use units::{Pocket, Punch, Punched};

/// The row of a punch: its profile, and the pocket chosen for its next card.
pub fn profile_row(punch: &Punch) -> ProfileRow
    ensures { result ≡ profile_row punch.now }
{
    ProfileRow {
        profile: profile_number(punch.profile),
        chosen: punch.chosen.number(),
    }
}

/// The punch of a row, which has no cards yet, or `None` if there is no such profile or pocket.
pub fn read_punch(alloc: Global, row: ProfileRow) -> Option<Punch>
    ensures all { (p : Stacked) → row ≡ profile_row p → result ≡ Some (record p { cards = [] }) }
    ensures only { IfSome result (λ p. (profile_row p ≡ row) × (p.cards ≡ [])) }
{
    let (Some(profile), Some(chosen)) = (read_profile(row.profile), read_pocket(row.chosen)) else {
        return None;
    };
    Some(Punch {
        cards: Vec::new(alloc),
        chosen,
        profile,
    })
}

/// The number of a card's pocket in its row; a card in the normal pocket has no row.
pub fn pocket_cell(pocket: Pocket) -> Option<u32>
    ensures { result ≡ pocket_cell pocket }
{
    match pocket {
        Pocket::Normal => None,
        Pocket::Four => Some(4),
        Pocket::Eight => Some(8),
    }
}

/// The pocket of a row's number, unless that is the normal one's or none's.
fn read_apart(number: u32) -> Option<Pocket>
    ensures found { IfSome result (λ pocket. (pocket ≡ named_pocket number)
        × ((number ≡ 4) ⊎ (number ≡ 8))) }
    ensures none { IsNone result → ¬ ((number ≡ 4) ⊎ (number ≡ 8)) }
{
    match number {
        4 => Some(Pocket::Four),
        8 => Some(Pocket::Eight),
        _ => None,
    }
}

/// Whether a place is that of one of so many cards, of which the first has place 1.
fn is_place(place: u32, count: usize) -> bool
    ensures { IsTrue result ↔ (1 ≤ place) × (place ≤ count) }
{
    1 <= place && place as usize <= count
}

/// Puts the card at a row's place into the row's pocket. Returns whether the row is that of one of
/// the cards, and of a pocket that is not the normal one.
fn put_into_pocket(cards: &mut [Punched], row: &PocketRow) -> bool
    ensures size { length cards.new ≡ length cards.old }
    ensures is { IsTrue result ↔ IsPocketOf (length cards.old) row.now }
    ensures put { IsTrue result → cards.new ≡ with_pocket cards.old row.now }
{
    if !is_place(row.place, cards.len()) {
        return false;
    }
    let Some(pocket) = read_apart(row.pocket) else {
        return false;
    };
    let behind = row.place as usize - 1;
    cards[behind] = Punched {
        card: cards[behind].card,
        pocket,
    };
    true
}

/// Puts the cards at the places of these rows into their pockets. Returns whether each row is that
/// of one of the cards, and of a pocket that is not the normal one.
fn put_into_pockets(cards: &mut [Punched], rows: &[PocketRow]) -> bool
    ensures size { length cards.new ≡ length cards.old }
    ensures are { IsTrue result ↔ All (IsPocketOf (length cards.old)) rows.now }
    ensures put { IsTrue result → cards.new ≡ with_pockets cards.old rows.now }
{
    for row in rows {
        if !put_into_pocket(cards, row) {
            return false;
        }
    }
    true
}

impl FromCells<CardRow> for Punched {
    ghost cells = { punched_bytes };

    ghost IsHeld = { λ c. IsCard c.card × (c.pocket ≡ Pocket.Normal) };

    fn from_cells(row: &CardRow) -> Option<Punched> {
        let card = read_card(&row.card)?;
        Some(Punched {
            card,
            pocket: Pocket::Normal,
        })
    }
}

/// Returns the punched cards of these rows, each in the pocket of its row, or in the normal one
/// where it has none; or `None` if a row is not that of a card, or of the pocket of one. Fails only
/// if there is no memory.
pub fn read_punched(
    alloc: Global,
    cards: &[CardRow],
    pockets: &[PocketRow],
) -> Result<Option<Vec<Punched>>, AllocError>
    ensures all { IfOk result (λ read. (punched : List Punched) → All IsPunched punched
        → cards.now ≡ map punched_bytes punched → ArePockets pockets.now (pocket_rows_of punched)
        → IfSome read (λ made. made.items ≡ punched) × IsSome read) }
    ensures only { IfOk result (λ read.
        IfSome read (λ made. ArePunched cards.now pockets.now made.items)) }
{
    let Some(mut punched) = read_rows::<CardRow, Punched>(alloc, cards)? else {
        return Ok(None);
    };
    if !put_into_pockets(&mut punched, pockets) {
        return Ok(None);
    }
    Ok(Some(punched))
}
