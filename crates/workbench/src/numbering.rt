//! The subcommand `sequence`.

use crate::process::Process;
use crate::undone::Undone;
use card_tools::{SequenceError, SequenceFault, check_sequence, sequence};
use cards::write_text;
use command_line::Status;
use std::io;
use std::io::Write;
use workbench_arguments::Numbering;

/// What is said of a card that is not numbered, behind the glyphs that it holds, if any are told.
fn words_of(error: SequenceError) -> &'static str {
    match error {
        SequenceError::NoMemory => "",
        SequenceError::Ident => "IDENT must be 0 to 5 glyphs\n",
        SequenceError::Held(_) => {
            "\"; they are blank, or IDENT and digits, where a card is numbered\n"
        }
        SequenceError::TooGreat => {
            "the number does not fit behind IDENT; a lower FIRST or STEP, or a shorter IDENT\n"
        }
    }
}

/// Says which card is not numbered.
fn tell_card<E: Write>(errors: &mut E, path: &str, card: u16) -> io::Result<()> {
    write!(errors, "{path}: card {card}: ")
}

/// Says why a deck is not numbered.
fn tell_sequence_fault<E: Write>(
    errors: &mut E,
    path: &str,
    fault: SequenceFault,
) -> io::Result<Undone> {
    match fault.error {
        SequenceError::NoMemory => return Ok(Undone::Memory),
        SequenceError::Ident => {}
        SequenceError::Held(glyphs) => {
            tell_card(errors, path, fault.card)?;
            errors.write_all(b"columns 73 to 80 hold \"")?;
            errors.write_all(&glyphs)?;
        }
        SequenceError::TooGreat => tell_card(errors, path, fault.card)?,
    }
    errors.write_all(words_of(fault.error).as_bytes())?;
    Ok(Undone::Told(Status::NotDone))
}

/// Numbers the cards of a deck in columns 73 to 80.
pub(crate) fn number_deck<W: Write, E: Write>(
    process: &mut Process<W, E>,
    numbering: Numbering<'_>,
) -> Result<Status, Undone> {
    let Numbering {
        deck: path,
        out,
        ident,
        first,
        step,
    } = numbering;
    let deck = process.deck_at(path)?;
    let numbered = match sequence(process.alloc(), &deck, ident, first, step) {
        Ok(numbered) => numbered,
        Err(fault) => return Err(tell_sequence_fault(&mut process.errors, path, fault)?),
    };
    let text = write_text(process.alloc(), &numbered)?;
    process.write(out, &text)
}

/// Prints where the numbers of a deck's cards do not rise.
pub(crate) fn check_numbers<W: Write, E: Write>(
    process: &mut Process<W, E>,
    path: &str,
) -> Result<Status, Undone> {
    let deck = process.deck_at(path)?;
    let text = check_sequence(process.alloc(), deck.cards())?;
    if text.is_empty() {
        return Ok(Status::Done);
    }
    process.print(&text, Status::NotDone)
}
