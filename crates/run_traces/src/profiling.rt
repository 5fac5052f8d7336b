//! The profile of a run.

ghost use Rattle.std.specs.Prelude.{◌≡◌, ◌<◌, ◌≤◌, ◌++◌, length, string_bytes, option_copied, None, IfOk, OnOk};
ghost use Rattle.core_store.specs.Storage.{largest_size};
ghost use Rattle.machine.specs.{Run.{State, loaded}, Standings.{standing_of}};
ghost use Rattle.units.specs.declared.profiles.Profile.TheVariants.{Selecting};
ghost use Rattle.run_traces.specs.{
  Ends.{ended},
  Profiles.{IsCounted, attempts_line, began_at, counts_shown, first_at, place_columns, place_shown, places_shown, profiled, right_text, tenths_of_percent, tenths_words},
  Shown.{left},
};

use crate::accounts::Account;
use crate::counted_cards::push_source;
use crate::counting::{Begun, count_run, none_begun};
use crate::ends::load;
use crate::names::Names;
use crate::reports::push_report;
use crate::shown::push_padding;
use autocoder::{push_fillers, push_line, push_number};
use cards::Deck;
use core_store::{LARGEST_SIZE, Size};
use std::alloc::{AllocError, Global};
use units::Switches;

/// A part of all in tenths of a percent, rounded down.
fn tenths_of_percent(part: u32, all: u32) -> u64
    requires { 0 < all }
    ensures { result ≡ tenths_of_percent part all }
{
    u64::from(part) * 1000 / u64::from(all)
}

/// A number of tenths with its last digit behind a point.
fn tenths_words(alloc: Global, tenths: u64) -> Result<String, AllocError>
    ensures { IfOk result (λ words. string_bytes words ≡ tenths_words tenths) }
{
    let whole = tenths / 10;
    let tenth = tenths % 10;
    let words = format!(in alloc; "{whole}.{tenth}")?;
    Ok(words)
}

/// Adds a text at the right of a field of this width.
fn push_right(line: &mut Vec<u8>, width: usize, text: &str) -> Result<(), AllocError>
    ensures { OnOk result (line.new.items ≡ line.old.items ++ right_text width text.now) }
{
    push_fillers(line, b' ', width.saturating_sub(text.len()))?;
    line.extend_from_slice(text.as_bytes())
}

/// Adds a text at the left of a field of this width.
fn push_left(line: &mut Vec<u8>, width: usize, text: &[u8]) -> Result<(), AllocError>
    ensures { OnOk result (line.new.items ≡ line.old.items ++ left width text.now) }
{
    line.extend_from_slice(text)?;
    push_padding(line, width, text.len())
}

/// The line of an address at which attempts began.
fn place_columns(
    alloc: Global,
    address: u16,
    place: &Begun,
    attempts: u32,
) -> Result<Vec<u8>, AllocError>
    requires { 0 < attempts }
    ensures { IfOk result (λ line. line.items
        ≡ place_columns address place.now.characters.items place.now.count attempts) }
{
    let mut line = Vec::new(alloc);
    push_number(&mut line, b'0', 5, u64::from(address))?;
    line.push(b' ')?;
    push_left(&mut line, 9, &place.characters)?;
    push_number(&mut line, b' ', 8, u64::from(place.count))?;
    line.push(b' ')?;
    let share = tenths_words(alloc, tenths_of_percent(place.count, attempts))?;
    push_right(&mut line, 5, share.as_str())?;
    Ok(line)
}

/// Adds what is shown of an address.
#[tactic(auto, unfolding(crate::specs::Profiles::place_shown))]
fn push_shown(
    alloc: Global,
    text: &mut Vec<u8>,
    address: u16,
    place: &Begun,
    attempts: u32,
) -> Result<(), AllocError>
    requires { place.now.count ≤ attempts }
    ensures { OnOk result ((m : State) → place.now.count ≡ began_at m attempts address →
        place.now.characters.items ≡ first_at m attempts address →
        text.new.items ≡ text.old.items ++ place_shown m attempts address) }
{
    if place.count == 0 {
        return Ok(());
    }
    let line = place_columns(alloc, address, place, attempts)?;
    push_line(text, &line)
}

/// Adds what is shown of all addresses.
fn push_places(
    alloc: Global,
    text: &mut Vec<u8>,
    places: &[Begun],
    attempts: u32,
) -> Result<(), AllocError>
    requires { (m : State) × IsCounted m attempts places.now }
    ensures { OnOk result ((m : State) → IsCounted m attempts places.now →
        text.new.items ≡ text.old.items ++ places_shown m attempts largest_size) }
{
    for address in 0..LARGEST_SIZE {
        push_shown(alloc, text, address, &places[address as usize], attempts)?;
    }
    Ok(())
}

/// Adds how often each place was attempted.
#[tactic(auto, unfolding(crate::specs::Profiles::counts_shown))]
fn push_counts(
    alloc: Global,
    text: &mut Vec<u8>,
    names: Option<&Names>,
    places: &[Begun],
    attempts: u32,
) -> Result<(), AllocError>
    requires { (m : State) × IsCounted m attempts places.now }
    ensures { OnOk result ((m : State) → IsCounted m attempts places.now →
        text.new.items
        ≡ text.old.items ++ counts_shown (option_copied names.entry) m attempts) }
{
    match names {
        None => push_places(alloc, text, places, attempts),
        Some(names) => push_source(text, places, names),
    }
}

/// Adds the line of the number of attempts.
fn push_attempts(alloc: Global, text: &mut Vec<u8>, attempts: u32) -> Result<(), AllocError>
    ensures { OnOk result (text.new.items ≡ text.old.items ++ attempts_line attempts) }
{
    let words = format!(in alloc; "attempts {attempts}\n")?;
    text.extend_from_slice(words.as_bytes())
}

/// Returns the profile of a deck's run, on a machine with stacker selection: a line for each
/// address at which attempts began, the number of attempts, and the report of the machine after the
/// run.
///
/// A line has the address, the characters of the instruction as it was the first time, how many
/// attempts began there, and what part of all they are, in tenths of a percent. If the names of a
/// source are given, the lines are those of its cards instead, each with how many attempts began at
/// its place, if it is an instruction. Fails only if there is no memory.
#[tactic(auto, using(crate::proofs::EndLemmas::whole_run), unfolding(crate::specs::Profiles::profiled))]
pub fn profile(
    alloc: Global,
    deck: &Deck,
    size: Size,
    switches: Switches,
    names: Option<&Names>,
) -> Result<Account, AllocError>
    requires { 0 < length deck.now }
    ensures profile { IfOk result (λ account. account.text.items
        ≡ profiled (option_copied names.entry) (loaded deck.now size switches Selecting)) }
    ensures standing { IfOk result (λ account. account.standing
        ≡ standing_of (ended (loaded deck.now size switches Selecting) None)) }
{
    let mut machine = load(alloc, deck, size, switches)?;
    let mut places = none_begun(alloc)?;
    let attempts = count_run(alloc, &mut machine, &mut places)?;
    let mut text = Vec::new(alloc);
    push_counts(alloc, &mut text, names, &places, attempts)?;
    push_attempts(alloc, &mut text, attempts)?;
    push_report(alloc, &mut text, machine.parts())?;
    let standing = machine.parts().standing_at();
    Ok(Account { text, standing })
}
