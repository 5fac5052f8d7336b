//! A job that was submitted, or that is made from its parts, over the storage that the bureau's
//! jobs have.

use crate::decks::text_of;
use crate::submissions::PUNCHING;
use bitflags::Flags;
use cards::{Deck, read_text};
use core_store::{Core, PlaneCore, Size};
use machine::{Meter, Parts, StandingAt};
use office::{Contents, Job, JobCommand, JobParts, Kind, Reply, Stretch, new_job, take};
use std::alloc::Global;
use std::test::Fail;
use units::{Hopper, Printer, Punch, Switches, Units};

/// The deck of the job.
fn deck(alloc: Global) -> Result<Deck, Fail> {
    Ok(read_text(alloc, &text_of(alloc, PUNCHING.card)?)?)
}

/// Returns the job that punches three cards, as it was submitted.
pub(crate) fn submitted(alloc: Global) -> Result<Job<PlaneCore>, Fail> {
    let contents = Contents {
        kind: Kind::Object,
        size: PUNCHING.size,
        switches: Switches::from_bits_retain(0),
        deck: deck(alloc)?,
    };
    Ok(new_job(alloc, &contents).ok().ok_or("a job")?)
}

/// A copy of the units of a machine that has made nothing yet.
fn copy_of_units(alloc: Global, units: &Units) -> Result<Units, Fail> {
    Ok(Units {
        hopper: Hopper {
            deck: deck(alloc)?,
            taken: units.hopper.taken,
        },
        before: units.before,
        punch: Punch {
            cards: Vec::new(alloc),
            chosen: units.punch.chosen,
            profile: units.punch.profile,
        },
        printer: Printer {
            lines: Vec::new(alloc),
            carriage: units.printer.carriage,
        },
        switches: units.switches,
    })
}

/// A copy of such a machine's picture.
fn copy_of_machine(alloc: Global, machine: &Parts<PlaneCore>) -> Result<Parts<PlaneCore>, Fail> {
    let mut core = PlaneCore::blank(alloc, Size::Positions1400)?;
    if core.size() != machine.core.size() {
        return Err("another size")?;
    }
    core.copy_from(&machine.core);
    Ok(Parts {
        core,
        registers: machine.registers,
        units: copy_of_units(alloc, &machine.units)?,
        standing: machine.standing,
    })
}

/// The parts of a job that was just submitted, with so many instructions granted in its stretch.
fn granted_parts(
    alloc: Global,
    job: &Job<PlaneCore>,
    granted: u32,
) -> Result<JobParts<PlaneCore>, Fail> {
    let shown = job.parts();
    let mut stretches = Vec::new(alloc);
    for stretch in shown.stretches {
        stretches.push(Stretch {
            switches: stretch.switches,
            granted,
        })?;
    }
    Ok(JobParts {
        stretches,
        held: shown.held,
        collected: shown.collected,
        machine: copy_of_machine(alloc, shown.machine)?,
    })
}

/// Returns the job as it was submitted, with this number of instructions granted.
pub(crate) fn granted(alloc: Global, count: u32) -> Result<Job<PlaneCore>, Fail> {
    let parts = granted_parts(alloc, &submitted(alloc)?, count)?;
    Ok(Job::from_parts(alloc, parts)?.ok_or("parts of a job")?)
}

/// Runs a job for one instruction. Returns how many it executed, whether it goes on, and how often
/// the meter ticked.
fn slice_of_one(alloc: Global, job: &mut Job<PlaneCore>) -> Result<(u32, bool, u64), Fail> {
    let mut meter = Meter::new();
    match take(alloc, job, &JobCommand::Slice { limit: 1 }, &mut meter)? {
        Reply::Ran { executed, standing } => {
            Ok((executed, standing == StandingAt::Running, meter.ticks()))
        }
        _ => Err("it did not run")?,
    }
}

#[test]
fn what_was_granted_is_not_run_again(rt: HostRuntime) -> Result<(), Fail> {
    let mut job = granted(rt.alloc(), 8)?;
    assert_eq!(rt; slice_of_one(rt.alloc(), &mut job)?, (1, true, 1));
    assert_eq!(rt; job.summary().granted, 9);
    assert_eq!(rt; job.summary().cards, 0);
    Ok(())
}

#[test]
fn eight_instructions_halt(rt: HostRuntime) -> Result<(), Fail> {
    let mut job = submitted(rt.alloc())?;
    for _ in 0..7 {
        assert_eq!(rt; slice_of_one(rt.alloc(), &mut job)?, (1, true, 1));
    }
    assert_eq!(rt; slice_of_one(rt.alloc(), &mut job)?, (1, false, 1));
    assert_eq!(rt; job.summary().cards, 3);
    Ok(())
}
