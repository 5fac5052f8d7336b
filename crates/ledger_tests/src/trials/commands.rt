//! Commands to a bureau, and the replies to them.

use crate::trials::decks::script_of;
use crate::trials::sessions::Session;
use bitflags::Flags;
use cards::read_text;
use ledger::{Bureau, Fault, shift};
use office::{Command, Contents, JobCommand, Kind, Reply, Stacker};
use scripts::{parse, write_reply};
use sqlite::Alter;
use std::alloc::Global;
use std::io::Write;
use std::test::Fail;
use units::{Pocket, Switches, render};

/// A command on job 9 of a customer.
fn on_nine(alloc: Global, customer: &str, command: JobCommand) -> Result<Command, Fail> {
    Ok(Command::Job {
        customer: String::from_str(alloc, customer)?,
        number: 9,
        command,
    })
}

/// All switches, and an eighth one, which there is not.
fn eight_switches() -> Switches {
    Switches::from_bits_retain(255)
}

/// The submission of a customer's job 9 that prints two lines, with eight switches on.
fn submission(alloc: Global, customer: &str) -> Result<Command, Fail> {
    let deck = read_text(alloc, script_of(alloc, "two lines")?.as_str().as_bytes())?;
    Ok(Command::Submit {
        customer: String::from_str(alloc, customer)?,
        number: 9,
        contents: Contents {
            kind: Kind::Object,
            size: 4000,
            switches: eight_switches(),
            deck,
        },
    })
}

/// The customer of the job and the command on it that these words name, which no script has: a
/// query for what the job has made, a start with eight switches on, or a query of nobody.
fn job_command_named(words: &str) -> Option<(&'static str, JobCommand)> {
    match words {
        "lines" => Some(("ACME", JobCommand::Lines)),
        "cards" => Some(("ACME", JobCommand::Cards { from: Stacker::All })),
        "cards of pocket 4" => {
            let from = Stacker::Of(Pocket::Four);
            Some(("ACME", JobCommand::Cards { from }))
        }
        "start with eight switches" => {
            let switches = eight_switches();
            Some(("ACME", JobCommand::Start { switches }))
        }
        "standing of nobody" => Some(("", JobCommand::Standing)),
        _ => None,
    }
}

/// The command that these words name, which no script has: on a job, a submission with eight
/// switches on, or one of a customer without a name.
fn command_named(alloc: Global, words: &str) -> Result<Option<Command>, Fail> {
    if let Some((customer, command)) = job_command_named(words) {
        return Ok(Some(on_nine(alloc, customer, command)?));
    }
    match words {
        "submission with eight switches" => Ok(Some(submission(alloc, "ACME")?)),
        "submission of nobody" => Ok(Some(submission(alloc, "")?)),
        "jobs of nobody" => Ok(Some(Command::Jobs {
            customer: String::new(alloc),
        })),
        _ => Ok(None),
    }
}

/// The commands of a stage: those of a script, or the one that its words name.
fn commands_of(alloc: Global, text: &str) -> Result<Vec<Command>, Fail> {
    if let Some(command) = command_named(alloc, text)? {
        return Ok(vec![in alloc; command]?);
    }
    let script = script_of(alloc, text)?;
    Ok(
        parse(alloc, script.as_str().as_bytes())
            .ok()
            .ok_or("a script")?,
    )
}

/// Tells a reply: how many cards, lines as they are listed, or the line of a script.
fn tell_reply(alloc: Global, reply: &Reply, told: &mut Vec<u8>) -> Result<(), Fail> {
    match reply {
        Reply::Cards(cards) => Ok(write!(told, "cards {}\n", cards.0.len())?),
        Reply::Lines(lines) => Ok(told.extend_from_slice(&render(alloc, &lines.0)?)?),
        other => Ok(write_reply(told, &mut 0, other).ok().ok_or("a line")?),
    }
}

/// Whether a bureau that is broken answers none of these commands, right or wrong, and does
/// nothing.
fn is_at_rest<S: Alter>(
    alloc: Global,
    bureau: &mut Bureau<S>,
    commands: &[Command],
    session: &mut Session,
) -> bool {
    let ticks = session.meter.ticks();
    for place in 0..commands.len() {
        let next = shift(alloc, bureau, &commands[place..], &mut session.meter);
        if next.fault != Some(Fault::Store) || next.acknowledged != 0 {
            return false;
        }
    }
    bureau.broken() && session.meter.ticks() == ticks
}

/// Tells the replies of a shift.
fn tell_replies(alloc: Global, replies: &[Reply], told: &mut Vec<u8>) -> Result<(), Fail> {
    for reply in replies {
        tell_reply(alloc, reply, told)?;
    }
    Ok(())
}

/// Works off the commands of a stage in a shift, and tells each reply, and the fault that ended it.
/// The stage `adopt` has none.
pub(crate) fn work<S: Alter>(
    alloc: Global,
    bureau: &mut Bureau<S>,
    stage: &str,
    session: &mut Session,
) -> Result<(), Fail> {
    if stage == "adopt" {
        return Ok(session.told.extend_from_slice(b"done\n")?);
    }
    let commands = commands_of(alloc, stage)?;
    let done = shift(alloc, bureau, &commands, &mut session.meter);
    tell_replies(alloc, &done.replies, &mut session.told)?;
    match done.fault {
        None => Ok(()),
        Some(Fault::Store) if !is_at_rest(alloc, bureau, &commands, session) => {
            Err("a bureau that goes on after fault 2")?
        }
        Some(fault) => session.tell_fault(fault.number()),
    }
}
