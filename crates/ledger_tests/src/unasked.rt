//! What no program asks of a bureau: switches and customers that no script has, calls of tables
//! that the bureau does not make; and what a command runs of a job with a damaged row.

use crate::trials::{ALL, Ended, empty_disks, session_over, told_on};
use std::test::Fail;

/// A job with seven switches on, at both of its starts, and then all rows.
const SEVEN: &str = "create#submit ACME 9 object 4000 ABCDEFG 6~two lines#slice ACME 9 2000#\
start ACME 9 ABCDEFG#rows";

/// The same with the eighth bit on, which is not a switch, and submitted again with and without it.
const EIGHT: &str = "create#submission with eight switches#slice ACME 9 2000#\
start with eight switches#rows#submit ACME 9 object 4000 ABCDEFG 6~two lines#\
submission with eight switches#submit ACME 9 object 4000 A 6~two lines";

#[test]
fn the_eighth_bit_is_no_switch(rt: HostRuntime) -> Result<(), Fail> {
    let disks = empty_disks(rt.alloc());
    let seven = told_on(rt.alloc(), &disks, SEVEN)?;
    assert!(rt; seven.starts_with("done/taken 6/ran 35 halted next 361/started/"));
    let eight = told_on(rt.alloc(), &disks, EIGHT)?;
    assert_eq!(rt;
        eight.as_str().strip_prefix(seven.as_str()),
        Some("taken 6/taken 6/refused 14/")
    );
    Ok(())
}

/// Commands of a customer without a name.
const NOBODY: &str = "create#submission of nobody#standing of nobody#jobs of nobody#queue";

#[test]
fn nobody_is_no_customer(rt: HostRuntime) -> Result<(), Fail> {
    let alloc = rt.alloc();
    assert_eq!(rt;
        told_on(alloc, &empty_disks(alloc), NOBODY)?.as_str(),
        "done/refused 10/refused 10/refused 10/queue/"
    );
    Ok(())
}

#[test]
fn tables_keep_a_job_and_find_no_other(rt: HostRuntime) -> Result<(), Fail> {
    let alloc = rt.alloc();
    let Ended { told, disks, .. } = session_over(alloc, &empty_disks(alloc), ALL, SEVEN)?;
    let rows = told_on(alloc, &disks, "rows")?;
    assert!(rt; told.ends_with(rows.as_str()));
    assert_eq!(rt;
        told_on(alloc, &disks, "tables#rows")?,
        format!(in alloc; "done/{rows}")?
    );
    Ok(())
}

/// Statements that damage a running job that goes on for 5 instructions, each after the ticks of a
/// session in which a slice of it then meets fault 2: 13 before, and of those that are run.
const DAMAGES: [(u64, &str); 12] = [
    (
        13,
        "UPDATE stretches SET switches = 128 WHERE number = 9 AND place = 1",
    ),
    (13, "DELETE FROM stretches WHERE number = 9"),
    (13, "UPDATE jobs SET held = 2 WHERE number = 9"),
    (13, "UPDATE jobs SET loaded = x'40' WHERE number = 9"),
    (13, "DELETE FROM states WHERE number = 9"),
    (13, "UPDATE states SET a = 16000 WHERE number = 9"),
    (13, "UPDATE states SET cards = 10001 WHERE number = 9"),
    (13, "UPDATE pages SET storage = x'00' WHERE number = 9"),
    (13, "DELETE FROM profiles WHERE number = 9"),
    (13, "UPDATE profiles SET chosen = 5 WHERE number = 9"),
    (18, "UPDATE states SET cards = 1 WHERE number = 9"),
    (18, "UPDATE states SET lines = 1 WHERE number = 9"),
];

/// A job that has printed two lines and punched two cards, the second one into pocket 4, of three
/// stretches, and is running. Its commands have 13 ticks.
const RUNNING: &str = "create#submit ACME 9 object 1400 - 1~cards apart~\
slice ACME 9 2000~start ACME 9 -~slice ACME 9 2000~start ACME 9 -";

/// The replies to these commands, and then fault 2.
const RAN: &str = "done/taken 1/ran 8 halted next 39/started/ran 5 halted next 39/started/fault 2/";

#[test]
fn a_damaged_job_runs_no_more_than_its_slice(rt: HostRuntime) -> Result<(), Fail> {
    let alloc = rt.alloc();
    for (wanted, sql) in DAMAGES {
        let stages = format!(in alloc; "{RUNNING}#sql {sql}#slice ACME 9 2000")?;
        let Ended { told, ticks, .. } = session_over(
            alloc,
            &empty_disks(alloc),
            ALL,
            stages.as_str(),
        )?;
        assert_eq!(rt; (told.as_str(), ticks), (RAN, wanted), "{sql}");
    }
    Ok(())
}
