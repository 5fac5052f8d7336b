//! Calls of tables that the bureau does not make.

use ledger_tables::{Fault, OpenTables};
use sqlite::{Alter, Connection};
use std::alloc::Global;
use std::test::Fail;
use texts::JobName;

/// The name of a job of ACME.
fn named(number: u32) -> JobName<'static> {
    JobName {
        customer: "ACME",
        number,
    }
}

/// Whether job 9, which is there, is not inserted again; and of job 11, which is not, the flags are
/// set, and no row is found.
fn are_as_asked<S: Alter>(tables: &mut OpenTables<'_, '_, S>) -> Result<bool, Fault> {
    let Some(job) = tables.find_job(named(9))? else {
        return Ok(false);
    };
    if tables.insert_job(named(9), &job) != Err(Fault::Store) {
        return Ok(false);
    }
    tables.set_flags(named(11), 1, 1)?;
    Ok(tables.find_job(named(11))?.is_none() && tables.find_progress(named(11))?.is_none())
}

/// The stage `tables`.
pub(crate) fn ask_tables<S: Alter>(
    alloc: Global,
    conn: &mut Connection<S>,
    told: &mut Vec<u8>,
) -> Result<(), Fail> {
    if !conn.is_autocommit() {
        return Err("in a transaction")?;
    }
    let mut tx = conn.transaction();
    let answers = are_as_asked(&mut OpenTables { tx: &mut tx, alloc });
    let is_kept = tx.commit().is_ok();
    let is_well = is_kept && answers == Ok(true);
    Ok(told.extend_from_slice(if is_well { b"done\n" } else { b"other\n" })?)
}
