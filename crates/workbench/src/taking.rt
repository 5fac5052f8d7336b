//! A file taken as a deck, and what is said of it.

ghost use Rattle.std.specs.Prelude.{◌≡◌, ◌≢◌, IfOk, IfSome, IsNone, OnOk};
ghost use Rattle.card_texts.specs.{
  Taking.{IsTaken},
  declared.Untaken.TheVariants.{NoMemory},
};
ghost use Rattle.workbench.specs.Intake.{IsCopy, IsRefused};

use crate::punching::{
    count_blank, count_empty, count_folded, is_of_punch_file, numbers_told, rises, tabs_of,
    tell_text_fault,
};
use crate::undone::Undone;
use card_texts::{Change, Reading, Rules, Signs, TextFault, Untaken, Way, changes, take};
use std::alloc::{AllocError, Global};
use texts::push_decimal;

/// What is said of a text that is one deck by each table of signs, and not the same.
const TWO_TEXTS: &[u8] = b"two decks, by --signs glyphs and by --signs simh; name one\n";

/// The same rules, in memory of their own.
pub(crate) fn copy_of(alloc: Global, rules: &Rules) -> Result<Rules, AllocError>
    ensures { IfOk result (IsCopy rules.now) }
{
    Ok(Rules {
        folds: rules.folds,
        tabs: Vec::from_slice(alloc, &rules.tabs)?,
        signs: rules.signs,
        keeps: rules.keeps,
        empty: rules.empty,
    })
}

/// A way to read a file, in words.
fn words_of(way: Way) -> &'static str {
    match way {
        Way::Punch => "as a punch file",
        Way::Binary => "as column binary",
        Way::Text(Signs::Bureau) => "as text by glyphs",
        Way::Text(Signs::Simh) => "as text by SimH's signs",
    }
}

/// What takes a file as one of the two decks that it is in these ways.
fn way_out(one: Way, other: Way) -> &'static str {
    match (one, other) {
        (Way::Text(_), _) | (_, Way::Text(_)) => "take it by workbench convert or workbench punch",
        _ => "name its form to workbench convert",
    }
}

/// Says that a file is two decks.
fn tell_two_decks(told: &mut Vec<u8>, one: Way, other: Way) -> Result<(), AllocError> {
    if let (Way::Text(_), Way::Text(_)) = (one, other) {
        return told.extend_from_slice(TWO_TEXTS);
    }
    told.extend_from_slice(words_of(one).as_bytes())?;
    told.extend_from_slice(b" and ")?;
    told.extend_from_slice(words_of(other).as_bytes())?;
    told.extend_from_slice(b" it is two decks; ")?;
    told.extend_from_slice(way_out(one, other).as_bytes())?;
    told.extend_from_slice(b"\n")
}

/// Says one of the faults of a text: that a line is one of a punch file, if one is, and else the
/// first.
fn tell_one_fault(told: &mut Vec<u8>, faults: &[TextFault]) -> Result<(), Undone> {
    let fault = match faults.iter().find(|&fault| is_of_punch_file(fault)) {
        Some(fault) => Some(fault),
        None => faults.first(),
    };
    match fault {
        Some(fault) => Ok(tell_text_fault(told, *fault)?),
        None => Ok(()),
    }
}

/// Says why a file is not taken. Want of memory is not told here.
fn tell_untaken(told: &mut Vec<u8>, untaken: &Untaken) -> Result<(), Undone>
    ensures { OnOk result (untaken.now ≢ NoMemory) }
{
    match untaken {
        Untaken::NoMemory => Err(Undone::Memory),
        Untaken::Differ(one, other) => Ok(tell_two_decks(told, *one, *other)?),
        Untaken::Faults(_, faults) => tell_one_fault(told, faults),
    }
}

/// The deck that a file is, by rules that are as before when it is done. Where it is none, or two,
/// that is told.
pub(crate) fn taken(
    alloc: Global,
    rules: &mut Rules,
    named: Option<Signs>,
    bytes: &[u8],
    told: &mut Vec<u8>,
) -> Result<Option<Reading>, Undone>
    ensures rules { rules.new ≡ rules.old }
    ensures taken { IfOk result (λ found. IfSome found (IsTaken rules.old named bytes.now)) }
    ensures none { IfOk result (λ found. IsNone found → IsRefused rules.old named bytes.now) }
{
    match take(alloc, rules, named, bytes) {
        Ok(reading) => Ok(Some(reading)),
        Err(untaken) => {
            tell_untaken(told, &untaken)?;
            Ok(None)
        }
    }
}

/// Adds a count to those of a line, with its word, unless it is 0.
fn push_count(
    line: &mut Vec<u8>,
    is_first: &mut bool,
    word: &[u8],
    count: usize,
) -> Result<(), AllocError> {
    if count == 0 {
        return Ok(());
    }
    let between: &[u8] = if *is_first { b": " } else { b", " };
    *is_first = false;
    line.extend_from_slice(between)?;
    line.extend_from_slice(word)?;
    push_decimal(line, count)
}

/// How many lines are blank cards that were empty lines; none if a blank card was none.
fn empty_lines(changes: &[Change]) -> usize {
    let empty = count_empty(changes);
    if empty == count_blank(changes) {
        empty
    } else {
        0
    }
}

/// Adds what was done to the lines of a text, and what may be no part of its deck.
fn push_changes(
    alloc: Global,
    line: &mut Vec<u8>,
    changes: &[Change],
    deck: &[u8],
) -> Result<(), AllocError> {
    let mut is_first = true;
    push_count(line, &mut is_first, b"folded ", count_folded(changes))?;
    push_count(line, &mut is_first, b"tabs ", tabs_of(changes))?;
    let empty = empty_lines(changes);
    push_count(line, &mut is_first, b"blank ", empty)?;
    if 0 < empty {
        line.extend_from_slice(b" (--empty drop)")?;
    }
    line.extend_from_slice(numbers_told(rises(alloc, deck)))
}

/// Adds in which way a file was taken, and of a text what was done to its lines. The rules have the
/// signs of the text afterwards.
pub(crate) fn push_taken(
    alloc: Global,
    line: &mut Vec<u8>,
    rules: &mut Rules,
    bytes: &[u8],
    reading: &Reading,
) -> Result<(), AllocError> {
    match reading.way {
        Way::Punch => line.extend_from_slice(b" as punch"),
        Way::Binary => line.extend_from_slice(b" as binary"),
        Way::Text(signs) => {
            if let Signs::Simh = signs {
                line.extend_from_slice(b" as simh")?;
            }
            rules.signs = signs;
            let changes = changes(alloc, rules, bytes)?;
            push_changes(alloc, line, &changes, &reading.text)
        }
    }
}
