//! The subcommand `punch`.

ghost use Rattle.std.specs.Prelude.{◌≡◌, ◌++◌, [], count_by, IfOk, OnOk};
ghost use Rattle.card_texts.specs.Punching.{deck_text_of, faults_of};
ghost use Rattle.workbench.specs.Punching.{IsSum, count_told, empty_told, is_empty_line, numbers_told, sum_line, tabs_of};

use crate::characters::{tell_character, tell_remedy};
use crate::decks::TOO_MANY_CARDS;
use crate::process::Process;
use crate::undone::Undone;
use card_texts::{Change, Rules, TextError, TextFault, Unpunched, changes, punch, remedy_of};
use card_tools::numbers_rise;
use cards::read_text;
use command_line::Status;
use std::alloc::{AllocError, Global};
use std::io;
use std::io::Write;
use texts::push_decimal;
use workbench_arguments::Punching;

/// How many faults are printed at most.
const MOST_FAULTS: usize = 100;

/// What is said of a line of a punch file.
const PUNCH_FILE: &[u8] =
    b"240 hexadecimal digits: this is a punch file; workbench convert IN OUT punch text\n";

/// Says which character has no card code, and what helps.
fn tell_no_code<E: Write>(errors: &mut E, bytes: [u8; 4]) -> io::Result<()> {
    tell_character(errors, &bytes)?;
    errors.write_all(b" has no card code")?;
    tell_remedy(errors, remedy_of(&bytes))?;
    writeln!(errors)
}

/// Says what is wrong with a line.
pub(crate) fn tell_text_fault<E: Write>(errors: &mut E, fault: TextFault) -> io::Result<()> {
    let line = fault.line;
    let column = fault.column;
    if let TextError::TooManyCards = fault.error {
        return writeln!(errors, "line {line}: {TOO_MANY_CARDS} of a deck text");
    }
    write!(errors, "line {line} column {column}: ")?;
    match fault.error {
        TextError::NoCode(bytes) => tell_no_code(errors, bytes),
        TextError::SmallLetter => writeln!(errors, "a small letter; --fold makes it a capital"),
        TextError::Tab => writeln!(errors, "a tab; give its columns with --tabs 6,16,21,41"),
        TextError::PastTheCard(width) => {
            writeln!(errors, "the line has {width} columns, and a card has 80")
        }
        TextError::PunchLine => errors.write_all(PUNCH_FILE),
        TextError::EmptyLine => writeln!(errors, "an empty line; --empty drop leaves it out"),
        TextError::TooManyCards => Ok(()),
    }
}

/// Whether a fault is that a line is one of a punch file.
pub(crate) fn is_of_punch_file(fault: &TextFault) -> bool {
    matches!(fault.error, TextError::PunchLine)
}

/// Says what is wrong with the lines of a text.
///
/// Where a line is one of a punch file, it alone is told: no other way out is one of its lines.
fn tell_text_faults<E: Write>(errors: &mut E, faults: &[TextFault]) -> io::Result<()> {
    if let Some(fault) = faults.iter().find(|&fault| is_of_punch_file(fault)) {
        return tell_text_fault(errors, *fault);
    }
    for fault in faults.iter().take(MOST_FAULTS) {
        tell_text_fault(errors, *fault)?;
    }
    if faults.len() > MOST_FAULTS {
        let more = faults.len() - MOST_FAULTS;
        writeln!(errors, "and {more} more")?;
    }
    Ok(())
}

/// The deck's text of a text. Where it has faults, these are told.
fn punched<E: Write>(
    alloc: Global,
    rules: &Rules,
    text: &[u8],
    errors: &mut E,
) -> Result<Vec<u8>, Undone>
    ensures { IfOk result (λ deck. (faults_of rules.now text.now ≡ [])
        × (deck.items ≡ deck_text_of rules.now text.now)) }
{
    match punch(alloc, rules, text) {
        Ok(deck) => Ok(deck),
        Err(Unpunched::Faults(faults)) => {
            tell_text_faults(errors, &faults)?;
            Err(Undone::Told(Status::NotDone))
        }
        Err(Unpunched::NoMemory) => Err(Undone::Memory),
    }
}

/// Prints a word and a number, unless the number is 0.
fn tell_count<E: Write>(errors: &mut E, word: &str, count: usize) -> io::Result<()> {
    if count == 0 {
        return Ok(());
    }
    write!(errors, " {word} {count}")
}

/// Says what was done to a line, if anything was.
fn tell_change<E: Write>(errors: &mut E, change: &Change) -> io::Result<()> {
    if !change.filled && !change.folded && change.tabs == 0 {
        return Ok(());
    }
    let line = change.line;
    write!(errors, "line {line}:")?;
    if change.filled {
        errors.write_all(b" filled")?;
    }
    if change.folded {
        errors.write_all(b" folded")?;
    }
    tell_count(errors, "tabs", change.tabs)?;
    writeln!(errors)
}

/// How many lines were taken, and how many of them were changed and in which way.
#[derive(Clone, Copy)]
struct Sum {
    /// The lines that are cards.
    cards: usize,
    /// Those that were filled up.
    filled: usize,
    /// Those with small letters.
    folded: usize,
    /// The tabs of all lines; the greatest number that there is where they are more.
    tabs: usize,
    /// The lines that are blank cards.
    blank: usize,
    /// Those of them that had fewer than 80 columns.
    empty: usize,
}

/// Whether the card of a line is blank, and the line had fewer than 80 columns.
fn is_empty_line(change: &Change) -> bool
    ensures { result ≡ is_empty_line change.now }
{
    change.blank && change.filled
}

/// How many lines were filled up.
fn count_filled(changes: &[Change]) -> usize
    ensures { result ≡ count_by (λ change. change.filled) changes.now }
{
    changes.iter().filter(|&change| change.filled).count()
}

/// How many lines have small letters.
pub(crate) fn count_folded(changes: &[Change]) -> usize
    ensures { result ≡ count_by (λ change. change.folded) changes.now }
{
    changes.iter().filter(|&change| change.folded).count()
}

/// How many lines are blank cards.
pub(crate) fn count_blank(changes: &[Change]) -> usize
    ensures { result ≡ count_by (λ change. change.blank) changes.now }
{
    changes.iter().filter(|&change| change.blank).count()
}

/// How many lines are blank cards and had fewer than 80 columns.
pub(crate) fn count_empty(changes: &[Change]) -> usize
    ensures { result ≡ count_by (λ change. is_empty_line change) changes.now }
{
    changes
        .iter()
        .filter(|&change| is_empty_line(change))
        .count()
}

/// The tabs of lines, or the greatest number that there is.
pub(crate) fn tabs_of(changes: &[Change]) -> usize
    ensures { result ≡ tabs_of changes.now }
{
    let mut tabs = 0usize;
    for change in changes {
        tabs = tabs.saturating_add(change.tabs);
    }
    tabs
}

/// The sum of what was done to lines.
fn sum_of(changes: &[Change]) -> Sum
    ensures { IsSum changes.now result }
{
    Sum {
        cards: changes.len(),
        filled: count_filled(changes),
        folded: count_folded(changes),
        tabs: tabs_of(changes),
        blank: count_blank(changes),
        empty: count_empty(changes),
    }
}

/// Adds a word and a number, unless the number is 0.
fn push_count(line: &mut Vec<u8>, word: &[u8], count: usize) -> Result<(), AllocError>
    ensures { OnOk result (line.new.items ≡ line.old.items ++ count_told word.now count) }
{
    if count == 0 {
        return Ok(());
    }
    line.extend_from_slice(word)?;
    push_decimal(line, count)
}

/// The option that leaves out blank cards, where there are some and all of them were empty lines.
fn empty_told(sum: &Sum) -> &'static [u8]
    ensures { result.now ≡ empty_told sum.now }
{
    if 0 < sum.blank && sum.empty == sum.blank {
        b" (--empty drop)"
    } else {
        b""
    }
}

/// The option that leaves out the numbers in columns 73 to 80, where these rise.
pub(crate) fn numbers_told(rise: bool) -> &'static [u8]
    ensures { result.now ≡ numbers_told rise }
{
    if rise {
        b"; columns 73-80 hold rising numbers (--keep 72)"
    } else {
        b""
    }
}

/// The line that says what was done to the lines of a text, and which options would leave out what
/// may be no part of the deck.
fn sum_line(alloc: Global, sum: &Sum, rise: bool) -> Result<Vec<u8>, AllocError>
    ensures { IfOk result (λ line. line.items ≡ sum_line sum.now rise) }
{
    let mut line = Vec::new(alloc);
    line.extend_from_slice(b"cards ")?;
    push_decimal(&mut line, sum.cards)?;
    push_count(&mut line, b" filled ", sum.filled)?;
    push_count(&mut line, b" folded ", sum.folded)?;
    push_count(&mut line, b" tabs ", sum.tabs)?;
    push_count(&mut line, b" blank ", sum.blank)?;
    line.extend_from_slice(empty_told(sum))?;
    line.extend_from_slice(numbers_told(rise))?;
    line.push(b'\n')?;
    Ok(line)
}

/// Whether the numbers in columns 73 to 80 of a deck's text rise; not where it is none, or where
/// there is no memory.
pub(crate) fn rises(alloc: Global, deck: &[u8]) -> bool {
    let Ok(deck) = read_text(alloc, deck) else {
        return false;
    };
    numbers_rise(alloc, deck.cards()).unwrap_or(false)
}

/// Says what was done to the lines of a text that was taken as a deck: of each that was changed, if
/// that is asked for, and their sum.
fn tell_changes<E: Write>(
    alloc: Global,
    punching: &Punching<'_>,
    text: &[u8],
    deck: &[u8],
    errors: &mut E,
) -> io::Result<()> {
    let Ok(changes) = changes(alloc, &punching.rules, text) else {
        return Ok(());
    };
    if punching.reports {
        for change in &changes {
            tell_change(errors, change)?;
        }
    }
    let Ok(line) = sum_line(alloc, &sum_of(&changes), rises(alloc, deck)) else {
        return Ok(());
    };
    errors.write_all(&line)
}

/// Takes a text as a deck, and writes the deck's text.
pub(crate) fn punch_text<W: Write, E: Write>(
    process: &mut Process<W, E>,
    punching: &Punching<'_>,
) -> Result<Status, Undone> {
    let alloc = process.alloc();
    let text = process.read(punching.text)?;
    let deck = punched(alloc, &punching.rules, &text, &mut process.errors)?;
    let status = process.write(punching.out, &deck)?;
    tell_changes(alloc, punching, &text, &deck, &mut process.errors)?;
    Ok(status)
}
