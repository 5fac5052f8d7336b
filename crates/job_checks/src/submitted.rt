//! What a job's rows say that its customer handed in.

ghost use Rattle.std.specs.Prelude.{◌≡◌, ◌<◌, ◌^◌, ℕ, List, pos, Bool, IfErr, IfOk, IfSome, Ok, Some};
ghost use Rattle.cards.specs.{Decks.{IsDeck, deck_bytes}, declared.decks.Card.{Card}};
ghost use Rattle.core_store.specs.Storage.{positions_of};
ghost use Rattle.office_tables.specs.Standing.{named, stretch_row as stretch_cells};
ghost use Rattle.office.specs.Numbers.{kind_number};
ghost use Rattle.job_checks.specs.{
  Jobs.{numbers_of, row_of},
  Kept.{rows_of_profile, rows_of_stretches},
  Stops.{Gives, IfDiffers},
  Tables.{rows_of_job},
};
ghost use Rattle.ledger_rows.specs.Columns.{truth};
ghost use Rattle.ledger_tables.specs.Tables.{job_row, stretch_row};
ghost use Rattle.office.specs.{Jobs.{AreStretches, HasSwitches}, Office.{Entry}};
ghost use Rattle.sqlite.specs.{Order.{column}, declared.types.Value.TheVariants.{Blob, Int}};
ghost use Rattle.units.specs.Stacked.{Stacked};

use crate::cells::{bytes_at, number_at};
use crate::differences::{Difference, Found, Place, Stop};
use crate::following::next_of;
use crate::names::is_row_of;
use cards::Deck;
use core_store::Size;
use ledger_rows::{read_deck, read_switches, read_truth};
use office::{Kind, Stretch};
use sqlite::Row;
use std::alloc::Global;
use texts::JobName;
use units::Profile;

/// The kind, the size and the flags of a row of `jobs`.
#[derive(Clone, Copy)]
pub(crate) struct Numbers {
    pub kind: Kind,
    pub size: Size,
    pub held: bool,
    pub collected: bool,
}

/// What a row of `jobs` holds beside the name and the loaded deck.
#[derive(Drop)]
pub(crate) struct Submitted {
    pub numbers: Numbers,
    pub deck: Deck,
}

/// The kind with this number.
fn read_kind(number: u32) -> Option<Kind>
    ensures all { (kind : Kind) → number ≡ kind_number kind → result ≡ Some kind }
    ensures only { IfSome result (λ kind. kind_number kind ≡ number) }
{
    match number {
        0 => Some(Kind::Object),
        1 => Some(Kind::Autocoder),
        _ => None,
    }
}

/// The kind in a column, if it holds one.
fn kind_at(row: &Row, at: usize) -> Option<Kind>
    ensures all { (kind : Kind) → column row.now at ≡ Int (pos (kind_number kind))
        → result ≡ Some kind }
    ensures only { IfSome result (λ kind. column row.now at ≡ Int (pos (kind_number kind))) }
{
    read_kind(number_at(row, at)?)
}

/// The size in a column, if it holds one.
fn size_at(row: &Row, at: usize) -> Option<Size>
    ensures all { (size : Size) → column row.now at ≡ Int (pos (positions_of size))
        → result ≡ Some size }
    ensures only { IfSome result (λ size. column row.now at ≡ Int (pos (positions_of size))) }
{
    Size::of_positions(number_at(row, at)?)
}

/// The flag in a column, if it holds one.
fn truth_at(row: &Row, at: usize) -> Option<bool>
    ensures all { (flag : Bool) → column row.now at ≡ Int (pos (truth flag)) → result ≡ Some flag }
    ensures only { IfSome result (λ flag. column row.now at ≡ Int (pos (truth flag))) }
{
    read_truth(number_at(row, at)?)
}

/// The numbers of a row of `jobs`, or the name of the first column with a value that no job has.
fn read_numbers(row: &Row) -> Result<Numbers, &'static str>
    ensures all { (customer deck loaded : List ℕ) → (number : ℕ) → (it : Numbers)
        → row.now ≡ row_of customer number it deck loaded → result ≡ Ok it }
    ensures only { IfOk result (λ it. (column row.now 2 ≡ Int (pos (kind_number it.kind)))
        × (column row.now 3 ≡ Int (pos (positions_of it.size)))
        × (column row.now 6 ≡ Int (pos (truth it.held)))
        × (column row.now 7 ≡ Int (pos (truth it.collected)))) }
{
    let Some(kind) = kind_at(row, 2) else {
        return Err("kind");
    };
    let Some(size) = size_at(row, 3) else {
        return Err("size");
    };
    let Some(held) = truth_at(row, 6) else {
        return Err("held");
    };
    let Some(collected) = truth_at(row, 7) else {
        return Err("collected");
    };
    Ok(Numbers {
        kind,
        size,
        held,
        collected,
    })
}

/// The deck that was handed in.
fn read_deck_of(alloc: Global, row: &Row) -> Result<Deck, Stop>
    ensures { (deck : List Card) → IsDeck deck → column row.now 4 ≡ Blob (deck_bytes deck)
        → Gives result deck }
{
    let Some(bytes) = bytes_at(row, 4) else {
        return Err(Stop::Differs(Difference::NoJob { name: "deck" }));
    };
    match read_deck(alloc, bytes)? {
        Some(deck) => Ok(deck),
        None => Err(Stop::Differs(Difference::NoJob { name: "deck" })),
    }
}

/// What a row of `jobs` holds.
pub(crate) fn read_submitted(alloc: Global, row: &Row) -> Result<Submitted, Stop>
    ensures { (e : Entry) → IsDeck e.job.deck → row.now ≡ job_row (named e)
        → Gives result (record { numbers = numbers_of e.job; deck = e.job.deck }) }
{
    let numbers = match read_numbers(row) {
        Ok(numbers) => numbers,
        Err(name) => return Err(Stop::Differs(Difference::NoJob { name })),
    };
    let deck = read_deck_of(alloc, row)?;
    Ok(Submitted { numbers, deck })
}

/// The stretch of a row of `stretches`.
fn read_stretch(row: &Row) -> Option<Stretch>
    ensures { (customer : List ℕ) → (number place : ℕ) → (stretch : Stretch)
        → HasSwitches stretch → stretch.granted < 2 ^ 32
        → row.now ≡ stretch_row customer number place (stretch_cells stretch)
        → result ≡ Some stretch }
{
    let switches = read_switches(number_at(row, 3)?)?;
    let granted = number_at(row, 4)?;
    Some(Stretch { switches, granted })
}

/// The stretches of a job, in the order of their rows.
pub(crate) fn read_stretches(
    alloc: Global,
    rows: &[Row],
    name: JobName<'_>,
) -> Result<Vec<Stretch>, Stop>
    ensures { (stretches : List Stretch) → AreStretches stretches
        → rows_of_job name.entry rows.now
        ≡ rows_of_stretches name.entry.customer.now name.entry.number stretches
        → IfOk result (λ read. read.items ≡ stretches)
        × IfErr result (λ stop. stop ≡ Stop.NoMemory) }
{
    let mut stretches = Vec::new(alloc);
    for row in rows {
        if is_row_of(row, name) {
            let Some(stretch) = read_stretch(row) else {
                return Err(Stop::Differs(Difference::NoStretch(stretches.len())));
            };
            stretches.try_reserve(1)?;
            stretches.push_reserved(stretch);
        }
    }
    Ok(stretches)
}

/// The profile of a job's row of `profiles`.
pub(crate) fn read_profile(rows: &[Row], name: JobName<'_>) -> Result<Profile, Difference>
    ensures { (punch : Stacked)
        → rows_of_job name.entry rows.now
        ≡ rows_of_profile name.entry.customer.now name.entry.number punch
        → result ≡ Ok punch.profile }
{
    let Some((row, _)) = next_of(rows, name) else {
        return Err(Difference::Row(Place::Profile, Found::Nothing));
    };
    match number_at(row, 2) {
        Some(1) => Ok(Profile::Plain),
        Some(2) => Ok(Profile::Selecting),
        _ => Err(Difference::NoProfile),
    }
}
