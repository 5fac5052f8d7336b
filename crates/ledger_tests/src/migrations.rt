//! Tables of older versions that are raised while a disk fails from some call on, each call in
//! turn. They go on as if they had never been old.

use crate::old_tables::{FIRST_TABLES, made_old};
use crate::trials::{
    ALL, Ended, Failing, NONE, Step, Stops, Trial, disks_after, empty_disks, session_over,
    stop_each, told_on,
};
use sqlite::Files;
use sqlite_disk::Memory;
use std::alloc::Global;
use std::test::Fail;

/// Two jobs: one that has nearly ended, and one that has punched three cards.
const TWO_JOBS: &str = "\
submit ACME 9 object 1400 A 6~two lines~slice ACME 9 34~\
submit ZETA 9 object 1400 - 1~three cards~slice ZETA 9 2000";

/// The replies to these commands.
const TAKEN: &str = "taken 6/ran 34 running/taken 1/ran 8 halted next 33/";

/// How the bureau is opened, every row, and what its jobs are asked at last.
const AT_LAST: &str = "adopt#rows#queue~slice ACME 9 2000~standing ZETA 9#lines#rows";

/// The disks of the two jobs as those of a version.
fn old_disks(alloc: Global, version: u32) -> Result<Files<Memory>, Fail> {
    let old = made_old(alloc, version)?;
    let stages = format!(in alloc; "sql {FIRST_TABLES}#{TWO_JOBS}#sql {old}")?;
    disks_after(alloc, &empty_disks(alloc), stages.as_str(), TAKEN)
}

/// The disks of the two jobs in a bureau that was never old, where each has the profile of those
/// that were made before version 4.
fn never_old(alloc: Global) -> Result<Files<Memory>, Fail> {
    let bureau = disks_after(alloc, &empty_disks(alloc), "create", "done/")?;
    let stages = format!(in alloc; "{TWO_JOBS}#sql UPDATE profiles SET profile = 1")?;
    disks_after(alloc, &bureau, stages.as_str(), TAKEN)
}

/// The step that raises the tables of a version.
fn migration_from(version: u32) -> Step {
    match version {
        1 => ("version 1/", "version 4/", "migrate"),
        2 => ("version 2/", "version 4/", "migrate"),
        _ => ("version 3/", "version 4/", "migrate"),
    }
}

/// The stops of a migration from a version.
fn stops_of(alloc: Global, version: u32, failing: Failing) -> Result<Stops, Fail> {
    let told = told_on(alloc, &never_old(alloc)?, AT_LAST)?;
    let disks = old_disks(alloc, version)?;
    let trial = Trial {
        disks: &disks,
        steps: &[migration_from(version)],
        last: AT_LAST,
        told: told.as_str(),
    };
    let mut stops = NONE;
    stop_each(alloc, &trial, failing, &mut stops)?;
    Ok(stops)
}

/// The stops of each migration: those after which it was lost, and those after which it was kept.
#[test]
fn a_disk_fails_in_a_migration(rt: HostRuntime) -> Result<(), Fail> {
    let mut found = Vec::new(rt.alloc());
    for (version, failing) in [
        (1, Failing::Log),
        (1, Failing::Database),
        (2, Failing::Log),
        (2, Failing::Database),
        (3, Failing::Log),
        (3, Failing::Database),
    ] {
        let stops = stops_of(rt.alloc(), version, failing)?;
        found.push((stops.lost, stops.kept))?;
    }
    assert_eq!(rt;
        found.as_slice(),
        [(69u32, 1u32), (44, 0), (69, 1), (48, 0), (55, 1), (52, 0)].as_slice()
    );
    Ok(())
}

/// Whether nothing is raised in a transaction that is open. It is given up when the connection is
/// closed.
fn is_left_alone(alloc: Global, disks: &Files<Memory>) -> Result<bool, Fail> {
    let rows = told_on(alloc, disks, "rows")?;
    let Ended { told, disks, .. } = session_over(alloc, disks, ALL, "sql BEGIN#migrate")?;
    Ok(told.as_str() == "fault 2/" && told_on(alloc, &disks, "rows")? == rows)
}

#[test]
fn an_open_transaction_is_left_alone(rt: HostRuntime) -> Result<(), Fail> {
    let alloc = rt.alloc();
    assert!(rt; is_left_alone(alloc, &never_old(alloc)?)?);
    for version in 1..=3 {
        assert!(rt; is_left_alone(alloc, &old_disks(alloc, version)?)?);
    }
    Ok(())
}
