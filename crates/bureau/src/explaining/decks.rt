//! Explanations of decks that are not run and of sources that are not assembled.

use crate::explaining::files::{tell_fault, tell_output, unread, unwritten};
use crate::explaining::told::Told;
use command_line::Input;
use std::alloc::Global;
use std::fs::File;
use std::io::Write;
use std::{fs, io};
use texts::read_up_to;

/// How many bytes of a file are looked at.
const MOST: u64 = 4_000_000;

/// The way out of cards that are no cards.
const PUNCH: &str = "workbench punch makes cards of a text as it is typed";

/// The bytes of a file, as far as they are looked at. A pipe or a device is not read a second time:
/// it would be waited for.
pub(crate) fn bytes_at(rt: &HostRuntime, path: &str) -> Option<Vec<u8>> {
    if !fs::metadata(rt, path).ok()?.is_file() {
        return None;
    }
    let file = File::open(rt, path).ok()?;
    read_up_to(rt.alloc(), file, MOST).ok()
}

/// The line of a text with this number, from 1, without its end.
pub(crate) fn line_in(bytes: &[u8], number: u32) -> Option<&[u8]> {
    let before = number.checked_sub(1)?;
    bytes.split(|byte| *byte == b'\n').nth(before as usize)
}

/// Prints what is wrong with the length of a line that is to be a card.
fn tell_length<E: Write>(errors: &mut E, line: &[u8]) -> io::Result<()> {
    match line {
        [.., b'\r'] => write!(errors, "it ends in CR LF, and a card's in LF alone"),
        _ => {
            let length = line.len();
            write!(
                errors,
                "it has {length} characters, and a card 80, and a line feed"
            )
        }
    }
}

/// Prints what stands in a column where no card has such a character.
fn tell_character<E: Write>(errors: &mut E, line: &[u8], column: u32) -> io::Result<()> {
    match line.get((column as usize).saturating_sub(1)) {
        Some(b'\t') => write!(errors, "column {column} has a tab"),
        Some(byte) if byte.is_ascii_graphic() => {
            let character = char::from(*byte);
            write!(errors, "column {column} has {character}, which no card has")
        }
        _ => write!(errors, "column {column} has a character that no card has"),
    }
}

/// Prints what is wrong with a line that is to be a card.
pub(crate) fn tell_line<E: Write>(
    errors: &mut E,
    name: &str,
    line: &[u8],
    card: u32,
    column: u32,
    fault: u32,
) -> io::Result<()> {
    write!(errors, "{name}: line {card}: ")?;
    match fault {
        30 => tell_length(errors, line)?,
        _ => tell_character(errors, line, column)?,
    }
    writeln!(errors, "; {PUNCH}")
}

/// Explains a fault of a card of the deck at a path, or of the standard input.
fn explain_card<E: Write>(
    rt: &HostRuntime,
    path: Option<&str>,
    card: u32,
    column: u32,
    fault: u32,
    errors: &mut E,
) -> io::Result<()> {
    let name = path.unwrap_or("standard input");
    if fault != 30 && fault != 31 {
        return tell_fault(errors, name, fault);
    }
    let Some(bytes) = path.and_then(|path| bytes_at(rt, path)) else {
        return writeln!(errors, "{name}: line {card}, column {column}: {PUNCH}");
    };
    match line_in(&bytes, card) {
        Some(line) => tell_line(errors, name, line, card, column, fault),
        None => Ok(()),
    }
}

/// Prints that a deck or a script cannot be read, or else that the output could not be written.
pub(crate) fn tell_unread<E: Write>(
    rt: &HostRuntime,
    path: Option<&str>,
    errors: &mut E,
) -> io::Result<()> {
    let Some(path) = path else {
        return tell_output(errors);
    };
    match unread(rt, path) {
        Some(why) => writeln!(errors, "{path}: {why}"),
        None => tell_output(errors),
    }
}

/// Explains how the run of a deck ended, if it did not at a halt.
pub(crate) fn explain_run<E: Write>(
    rt: &HostRuntime,
    deck: Input<'_>,
    told: Told,
    errors: &mut E,
) -> io::Result<()> {
    let path = match deck {
        Input::File(path) => Some(path),
        Input::Standard => None,
    };
    let name = path.unwrap_or("standard input");
    match told {
        Told::Device => tell_unread(rt, path, errors),
        Told::Card {
            card,
            column,
            fault,
        } => explain_card(rt, path, card, column, fault, errors),
        Told::Fault(number) | Told::Refused(number) => tell_fault(errors, name, number),
        Told::Running => writeln!(
            errors,
            "{name}: 1,000,000 instructions were done; `workbench profile`, with the same deck, \
             size and switches, shows the loop that it is in"
        ),
        Told::FirstCheck => writeln!(
            errors,
            "{name}: a source is no deck: `bureau assemble` makes one of it; of a deck `workbench \
             trace` says why"
        ),
        Told::Check => writeln!(
            errors,
            "{name}: `workbench trace`, with the same deck, size and switches, says why, and what \
             led to it"
        ),
        _ => Ok(()),
    }
}

/// Explains why a source was not assembled, by what the output and the standard error told.
pub(crate) fn explain_assembly<E: Write>(
    rt: &HostRuntime,
    source: &str,
    out: &str,
    output: Told,
    told: Told,
    errors: &mut E,
) -> io::Result<()> {
    match (output, told) {
        (_, Told::Device) => match unread(rt, source) {
            Some(why) => writeln!(errors, "{source}: {why}"),
            None => {
                let why = unwritten(rt, out);
                writeln!(errors, "{out}: {why}")
            }
        },
        (
            _,
            Told::Card {
                card,
                column,
                fault,
            },
        ) => explain_card(rt, Some(source), card, column, fault, errors),
        (_, Told::Fault(number)) => tell_fault(errors, source, number),
        (Told::Source, _) => writeln!(
            errors,
            "{source}: `workbench source {source}` shows each of these cards, and what is wrong \
             with it"
        ),
        _ => Ok(()),
    }
}
