//! The meaning of the words of a line.

ghost use Rattle.std.specs.Prelude.{List, ℕ, ◌≤◌, ◌∷◌, [], IfOk, length, map};
ghost use Rattle.scripts.specs.Commands.{AreFound, IsMeantBy, IsMeantIn};

use crate::headings::Heading;
use crate::job_words::{plain_command, worded_command};
use crate::meanings::Meaning;
use crate::values::{count_of, customer_of, kind_of, number_of, switches_of};
use crate::words::Words;
use office::{Command, JobCommand};
use std::alloc::{AllocError, Global};

/// The meaning of a line of one word.
fn lone(verb: &[u8]) -> Meaning
    ensures { IsMeantBy (verb.now ∷ []) result }
{
    if verb == b"queue".as_slice() {
        Meaning::Command(Command::Queue)
    } else {
        Meaning::Nothing
    }
}

/// The meaning of a line of two words.
fn on_customer(alloc: Global, verb: &[u8], name: &[u8]) -> Result<Meaning, AllocError>
    ensures { IfOk result (IsMeantBy (verb.now ∷ name.now ∷ [])) }
{
    if verb != b"jobs".as_slice() {
        return Ok(Meaning::Nothing);
    }
    let customer = customer_of(alloc, name)?;
    Ok(Meaning::Command(Command::Jobs { customer }))
}

/// The meaning of a line with this command on a job, or with none.
fn on_job(
    alloc: Global,
    name: &[u8],
    number: &[u8],
    command: Option<JobCommand>,
) -> Result<Meaning, AllocError>
    ensures { (verb : List ℕ) → (after : List (List ℕ)) → length after ≤ 1
        → AreFound verb after command
        → IfOk result (IsMeantBy (verb ∷ name.now ∷ number.now ∷ after)) }
{
    let Some(command) = command else {
        return Ok(Meaning::Nothing);
    };
    let customer = customer_of(alloc, name)?;
    Ok(Meaning::Command(Command::Job {
        customer,
        number: number_of(number),
        command,
    }))
}

/// The words of a heading, after the verb.
#[derive(Clone, Copy)]
struct HeadingWords<'a> {
    name: &'a [u8],
    number: &'a [u8],
    kind: &'a [u8],
    size: &'a [u8],
    switches: &'a [u8],
    cards: &'a [u8],
}

/// The meaning of a line of seven words.
fn heading(alloc: Global, verb: &[u8], words: &HeadingWords<'_>) -> Result<Meaning, AllocError>
    ensures { IfOk result (IsMeantBy (verb.now ∷ words.now.name.now ∷ words.now.number.now
        ∷ words.now.kind.now ∷ words.now.size.now ∷ words.now.switches.now
        ∷ words.now.cards.now ∷ [])) }
{
    if verb != b"submit".as_slice() {
        return Ok(Meaning::Nothing);
    }
    let Some(kind) = kind_of(words.kind) else {
        return Ok(Meaning::Nothing);
    };
    let Some(switches) = switches_of(words.switches) else {
        return Ok(Meaning::Nothing);
    };
    let Some(cards) = count_of(words.cards) else {
        return Ok(Meaning::Nothing);
    };
    let customer = customer_of(alloc, words.name)?;
    Ok(Meaning::Heading(Heading {
        customer,
        number: number_of(words.number),
        kind,
        size: number_of(words.size),
        switches,
        cards,
    }))
}

/// The meaning of the words of a line.
fn meant_by(alloc: Global, words: &[&[u8]]) -> Result<Meaning, AllocError>
    ensures { IfOk result (IsMeantBy (map (λ word. word.now) words.now)) }
{
    match words {
        [verb] => Ok(lone(verb)),
        [verb, name] => on_customer(alloc, verb, name),
        [verb, name, number] => on_job(alloc, name, number, plain_command(verb)),
        [verb, name, number, word] => { on_job(alloc, name, number, worded_command(verb, word)) }
        [verb, name, number, kind, size, switches, cards] => {
            let words = HeadingWords {
                name,
                number,
                kind,
                size,
                switches,
                cards,
            };
            heading(alloc, verb, &words)
        }
        _ => Ok(Meaning::Nothing),
    }
}

/// The meaning of a line.
pub(crate) fn meant_in(alloc: Global, line: &[u8]) -> Result<Meaning, AllocError>
    ensures { IfOk result (IsMeantIn line.now) }
{
    match Words::of(line) {
        Some(words) => meant_by(alloc, words.as_slice()),
        None => Ok(Meaning::Nothing),
    }
}
