//! The replies of a job to all commands, at each of its standings.

use crate::jobs::{granted, submitted};
use cards::write_punched_cards;
use core_store::PlaneCore;
use machine::Meter;
use office::{Job, JobCommand, Reply, Stacker, take};
use scripts::write_reply;
use std::alloc::Global;
use std::test::Fail;
use units::{Switches, render};

const SLICE: JobCommand = JobCommand::Slice { limit: 2000 };

const START: JobCommand = JobCommand::Start {
    switches: Switches::B,
};

/// The first commands on a job that was submitted, each with the line of its reply.
const SUBMITTED: [(JobCommand, &str); 11] = [
    (
        JobCommand::Standing,
        "standing running held 0 collected 0 granted 0 cards 0 lines 0\n",
    ),
    (START, "refused 24\n"),
    (JobCommand::Collect, "refused 24\n"),
    (JobCommand::Release, "refused 26\n"),
    (JobCommand::Hold, "held\n"),
    (JobCommand::Hold, "refused 25\n"),
    (SLICE, "refused 22\n"),
    (START, "refused 22\n"),
    (JobCommand::Collect, "refused 22\n"),
    (
        JobCommand::Standing,
        "standing running held 1 collected 0 granted 0 cards 0 lines 0\n",
    ),
    (JobCommand::Release, "released\n"),
];

/// The next commands: the job runs to its halt.
const HALTED: [(JobCommand, &str); 3] = [
    (SLICE, "ran 8 halted next 33\n"),
    (
        JobCommand::Standing,
        "standing halted next 33 held 0 collected 0 granted 2000 cards 3 lines 0\n",
    ),
    (SLICE, "refused 23\n"),
];

/// The next commands: the job starts again, and finds no instruction after its halt.
const CHECKED: [(JobCommand, &str); 6] = [
    (START, "started\n"),
    (
        JobCommand::Standing,
        "standing running held 0 collected 0 granted 2000 cards 3 lines 0\n",
    ),
    (SLICE, "ran 0 check INSTRUCTION at 33\n"),
    (SLICE, "refused 23\n"),
    (START, "refused 24\n"),
    (JobCommand::Collect, "collected 3 0\n"),
];

/// The last commands: the job was collected.
const COLLECTED: [(JobCommand, &str); 6] = [
    (
        JobCommand::Standing,
        "standing check INSTRUCTION at 33 held 0 collected 1 granted 4000 cards 3 lines 0\n",
    ),
    (SLICE, "refused 27\n"),
    (START, "refused 27\n"),
    (JobCommand::Hold, "refused 27\n"),
    (JobCommand::Release, "refused 27\n"),
    (JobCommand::Collect, "refused 27\n"),
];

/// Commands on a job that can be granted one more instruction.
const GRANTED: [(JobCommand, &str); 3] = [
    (JobCommand::Slice { limit: 2 }, "refused 28\n"),
    (JobCommand::Slice { limit: 1 }, "ran 1 running\n"),
    (JobCommand::Slice { limit: 1 }, "refused 28\n"),
];

/// Returns the line of a reply in a script. If the reply has cards or lines, returns their punch
/// file or their listing.
fn reply_text(alloc: Global, reply: &Reply) -> Result<String, Fail> {
    let (mut line, mut sent) = (Vec::new(alloc), 0);
    let bytes = match reply {
        Reply::Cards(cards) => write_punched_cards(alloc, &cards.0)?,
        Reply::Lines(lines) => render(alloc, &lines.0)?,
        other if write_reply(&mut line, &mut sent, other).is_ok() => line,
        _ => return Err("a line")?,
    };
    Ok(String::from_utf8(bytes).ok().ok_or("a text")?)
}

/// Carries out commands on a job. Fails at the first whose reply is not the one in its row.
fn check_replies(
    alloc: Global,
    job: &mut Job<PlaneCore>,
    meter: &mut Meter,
    rows: &[(JobCommand, &str)],
) -> Result<(), Fail> {
    for (command, wanted) in rows {
        let reply = take(alloc, job, command, meter)?;
        let told = reply_text(alloc, &reply)?;
        if told.as_str() != *wanted {
            return Err(Fail::new(format_args!("{told} in place of {wanted}")));
        }
    }
    Ok(())
}

/// Checks the cards and lines of the job that has punched three cards.
fn check_made(alloc: Global, job: &mut Job<PlaneCore>, meter: &mut Meter) -> Result<(), Fail> {
    let blank = "0".repeat(alloc, 240)?;
    let punched = format!(in alloc; "{blank}\n{blank}\n{blank}\n")?;
    let cards = JobCommand::Cards { from: Stacker::All };
    check_replies(alloc, job, meter, &[(cards, punched.as_str())])?;
    check_replies(alloc, job, meter, &[(JobCommand::Lines, "")])
}

#[test]
fn each_command_has_its_reply(rt: HostRuntime) -> Result<(), Fail> {
    let alloc = rt.alloc();
    let (mut job, mut meter) = (submitted(alloc)?, Meter::new());
    check_replies(alloc, &mut job, &mut meter, &SUBMITTED)?;
    check_replies(alloc, &mut job, &mut meter, &HALTED)?;
    check_made(alloc, &mut job, &mut meter)?;
    check_replies(alloc, &mut job, &mut meter, &CHECKED)?;
    check_replies(alloc, &mut job, &mut meter, &COLLECTED)?;
    check_made(alloc, &mut job, &mut meter)?;
    // Eight instructions, and the attempt that met the check.
    assert_eq!(rt; meter.ticks(), 9);
    Ok(())
}

#[test]
fn no_slice_is_granted_past_the_most(rt: HostRuntime) -> Result<(), Fail> {
    let alloc = rt.alloc();
    let (mut job, mut meter) = (granted(alloc, 999_999_999)?, Meter::new());
    check_replies(alloc, &mut job, &mut meter, &GRANTED)?;
    assert_eq!(rt; meter.ticks(), 1);
    Ok(())
}
