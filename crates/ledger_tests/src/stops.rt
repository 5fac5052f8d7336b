//! A bureau that is stopped at each call of a disk: single commands, and shifts.

use crate::trials::{
    Failing, NONE, Step, Stops, Trial, disks_after, empty_disks, stop_each, told_on,
};
use sqlite::Files;
use sqlite_disk::Memory;
use std::alloc::Global;
use std::test::Fail;

/// A bureau is created and opened.
const CREATION: &[Step] = &[("done/", "fault 2/", "create"), ("done/", "done/", "adopt")];

const SUBMIT: &str = "submit ACME 9 object 4000 A 6~two lines";

const STANDING: &str = "standing running held 0 collected 0 granted 34 cards 0 lines 2/";

/// Commands on a job that prints two lines.
const ONE_JOB: &[Step] = &[
    ("refused 20/", "refused 20/", "hold ACME 9"),
    ("taken 6/", "taken 6/", SUBMIT),
    ("taken 6/", "taken 6/", SUBMIT),
    ("queue ACME/9/", "queue ACME/9/", "queue"),
    ("held/", "refused 25/", "hold ACME 9"),
    ("released/", "refused 26/", "release ACME 9"),
    (
        "ran 34 running/",
        "ran 1 halted next 361/",
        "slice ACME 9 34",
    ),
    (STANDING, STANDING, "standing ACME 9"),
    ("ran 1 halted next 361/", "refused 23/", "slice ACME 9 2000"),
    ("started/", "refused 24/", "start ACME 9 -"),
    (
        "ran 0 check INSTRUCTION at 361/",
        "refused 23/",
        "slice ACME 9 10",
    ),
    ("HELLO/WORLD/", "HELLO/WORLD/", "lines"),
    ("collected 0 2/", "refused 27/", "collect ACME 9"),
    ("jobs 9/", "jobs 9/", "jobs ACME"),
];

const SUBMIT_SOURCE: &str = "submit ACME 9 autocoder 1400 - 7~source";

/// Commands on a job of which a source is handed in.
const OF_A_SOURCE: &[Step] = &[
    (
        "refused 16 1:49/",
        "refused 16 1:49/",
        "submit ACME 9 autocoder 1400 - 1~source without END",
    ),
    ("taken 4/", "taken 4/", SUBMIT_SOURCE),
    ("taken 4/", "taken 4/", SUBMIT_SOURCE),
    (
        "ran 22 halted next 347/",
        "refused 23/",
        "slice ACME 9 2000",
    ),
    ("cards 1/", "cards 1/", "cards"),
];

const SUBMIT_POCKETS: &str = "submit ACME 9 object 1400 - 1~three pockets";

/// Commands on a job that punches a card into each pocket, and stops first where a pocket is chosen
/// and nothing is punched.
const WITH_CARDS: &[Step] = &[
    ("taken 1/", "taken 1/", SUBMIT_POCKETS),
    ("ran 7 running/", "ran 5 halted next 51/", "slice ACME 9 7"),
    ("ran 5 halted next 51/", "refused 23/", "slice ACME 9 2000"),
    ("cards 1/", "cards 1/", "cards of pocket 4"),
];

const SUBMIT_THREE_CARDS: &str = "submit ACME 9 object 1400 - 1~three cards";

const AS_LOADED: &str = "standing running held 0 collected 0 granted 0 cards 0 lines 0/";

const AT_THE_HALT: &str =
    "standing halted next 33 held 0 collected 0 granted 2000 cards 3 lines 0/";

/// Commands on a job that punches three blank cards in one slice. Before the slice the machine is as
/// loaded and there are no cards; after the slice it is at the halt and there are three.
const WITH_THREE_CARDS: &[Step] = &[
    ("taken 1/", "taken 1/", SUBMIT_THREE_CARDS),
    (AS_LOADED, AS_LOADED, "standing ACME 9"),
    ("ran 8 halted next 33/", "refused 23/", "slice ACME 9 2000"),
    (AT_THE_HALT, AT_THE_HALT, "standing ACME 9"),
    ("cards 3/", "cards 3/", "cards"),
];

/// The disks of a bureau without jobs.
fn new_disks(alloc: Global) -> Result<Files<Memory>, Fail> {
    disks_after(alloc, &empty_disks(alloc), "create", "done/")
}

/// The stops of each step alone: the first one over these disks, and each other one over those that
/// the step before left.
fn stops_of_each(
    alloc: Global,
    mut disks: Files<Memory>,
    steps: &[Step],
    failing: Failing,
) -> Result<Stops, Fail> {
    let mut stops = NONE;
    for (reply, again, stage) in steps {
        let trial = Trial {
            disks: &disks,
            steps: &[(*reply, *again, *stage)],
            last: "",
            told: "",
        };
        stop_each(alloc, &trial, failing, &mut stops)?;
        disks = disks_after(alloc, &disks, stage, reply)?;
    }
    Ok(stops)
}

/// The stops of each call: those after which the step was lost, and those after which it was kept.
#[test]
fn a_disk_fails_at_a_creation(rt: HostRuntime) -> Result<(), Fail> {
    let alloc = rt.alloc();
    let mut found = Vec::new(alloc);
    for failing in [Failing::Log, Failing::Database] {
        let stops = stops_of_each(alloc, empty_disks(alloc), CREATION, failing)?;
        found.push((stops.lost, stops.kept))?;
    }
    assert_eq!(rt; found.as_slice(), [(167u32, 1u32), (22, 0)].as_slice());
    Ok(())
}

#[test]
fn a_disk_fails_in_a_command(rt: HostRuntime) -> Result<(), Fail> {
    let alloc = rt.alloc();
    let mut found = Vec::new(alloc);
    for failing in [Failing::Log, Failing::Database] {
        let stops = stops_of_each(alloc, new_disks(alloc)?, ONE_JOB, failing)?;
        found.push((stops.lost, stops.kept))?;
    }
    assert_eq!(rt; found.as_slice(), [(1027u32, 8u32), (682, 0)].as_slice());
    Ok(())
}

#[test]
fn a_disk_fails_at_a_source_and_at_cards(rt: HostRuntime) -> Result<(), Fail> {
    let alloc = rt.alloc();
    let mut found = Vec::new(alloc);
    for (steps, failing) in [
        (OF_A_SOURCE, Failing::Log),
        (OF_A_SOURCE, Failing::Database),
        (WITH_CARDS, Failing::Log),
        (WITH_CARDS, Failing::Database),
    ] {
        let stops = stops_of_each(alloc, new_disks(alloc)?, steps, failing)?;
        found.push((stops.lost, stops.kept))?;
    }
    assert_eq!(rt;
        found.as_slice(),
        [(565u32, 2u32), (170, 0), (405, 3), (183, 0)].as_slice()
    );
    Ok(())
}

#[test]
fn a_disk_fails_at_three_cards(rt: HostRuntime) -> Result<(), Fail> {
    let alloc = rt.alloc();
    let mut found = Vec::new(alloc);
    for failing in [Failing::Log, Failing::Database] {
        let stops = stops_of_each(alloc, new_disks(alloc)?, WITH_THREE_CARDS, failing)?;
        found.push((stops.lost, stops.kept))?;
    }
    assert_eq!(rt; found.as_slice(), [(466u32, 2u32), (216, 0)].as_slice());
    Ok(())
}

/// A shift on a job that prints two lines, and at its end a wrong command.
const TWO_LINES: &[Step] = &[
    ("taken 6/", "taken 6/", SUBMIT),
    (
        "ran 34 running/",
        "ran 1 halted next 361/",
        "slice ACME 9 34",
    ),
    ("ran 1 halted next 361/", "refused 23/", "slice ACME 9 2000"),
    ("refused 10/", "refused 10/", "slice acme 0 0"),
];

/// A shift on a job that punches a card into each pocket.
const THREE_POCKETS: &[Step] = &[
    ("taken 1/", "taken 1/", SUBMIT_POCKETS),
    ("ran 12 halted next 51/", "refused 23/", "slice ACME 9 2000"),
];

/// The stops of a shift.
fn stops_of_shift(alloc: Global, steps: &[Step], failing: Failing) -> Result<Stops, Fail> {
    let disks = new_disks(alloc)?;
    let trial = Trial {
        disks: &disks,
        steps,
        last: "",
        told: "",
    };
    let mut stops = NONE;
    stop_each(alloc, &trial, failing, &mut stops)?;
    Ok(stops)
}

#[test]
fn a_disk_fails_in_a_shift(rt: HostRuntime) -> Result<(), Fail> {
    let mut found = Vec::new(rt.alloc());
    for (steps, failing) in [
        (TWO_LINES, Failing::Log),
        (TWO_LINES, Failing::Database),
        (THREE_POCKETS, Failing::Log),
        (THREE_POCKETS, Failing::Database),
    ] {
        let stops = stops_of_shift(rt.alloc(), steps, failing)?;
        found.push((stops.lost, stops.kept))?;
    }
    assert_eq!(rt;
        found.as_slice(),
        [(215u32, 3u32), (50, 0), (198, 2), (42, 0)].as_slice()
    );
    Ok(())
}

#[test]
fn a_shift_of_many_commands(rt: HostRuntime) -> Result<(), Fail> {
    let alloc = rt.alloc();
    let told = told_on(alloc, &new_disks(alloc)?, &"queue~".repeat(alloc, 300)?)?;
    assert!(rt; told == "queue/".repeat(alloc, 300)?);
    Ok(())
}
