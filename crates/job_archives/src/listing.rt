//! The list of a bureau's jobs.

ghost use Rattle.std.specs.Prelude.{◌≡◌, ◌≤◌, ◌++◌, decimal, map, option_map, Some, IfOk, IsTrue, OnOk};
ghost use Rattle.office.specs.{Jobs.{Job}, Kept.{kept_of, summary_of}, Office.{Office, job_of}};
ghost use Rattle.sqlite.specs.Held.{state};
ghost use Rattle.office_tables.specs.Standing.{named};
ghost use Rattle.ledger_tables.specs.{Disks.{StaysClean}, Tables.{AreDistinct}};
ghost use Rattle.sqlite.specs.{State.{HasCleanDisk}, View.{IsClean}};
ghost use Rattle.job_archives.specs.{
  Lists.{AddsNamed, FindsStill, Leaves, LeavesAlone, Lists, ListsAlone, count_line, is_of, list_text, listed_line},
  Names.{HasName, name_row},
};

use crate::names::{name_in, read_names};
use job_checks::push_summary;
use ledger::Bureau;
use ledger_tables::{Fault, OpenFault};
use machine::Meter;
use office::{Command, JobCommand, Reply, Summary};
use sqlite::{Alter, Connection, Row};
use sqlite_trees::store::Store;
use std::alloc::{AllocError, Global};
use texts::{JobName, push_decimal};

/// Adds words and a number after them.
fn push_counted(out: &mut Vec<u8>, words: &str, number: usize) -> Result<(), AllocError>
    ensures { OnOk result (out.new.items ≡ out.old.items ++ words.now ++ decimal number) }
{
    out.extend_from_slice(words.as_bytes())?;
    push_decimal(out, number)
}

/// Adds the line of a job.
#[tactic(auto, unfolding(crate::specs::Lists::listed_line))]
fn push_job(out: &mut Vec<u8>, name: JobName<'_>, summary: Summary) -> Result<(), AllocError>
    ensures { OnOk result (out.new.items ≡ out.old.items
        ++ listed_line name.entry.customer.now name.entry.number summary) }
{
    out.extend_from_slice(name.customer.as_bytes())?;
    push_counted(out, " ", name.number as usize)?;
    out.extend_from_slice(b" ")?;
    push_summary(out, summary)?;
    out.extend_from_slice(b"\n")
}

/// The summary of the job of this name, by the bureau's own command.
fn ask<S: Alter>(alloc: Global, bureau: &mut Bureau<S>, name: JobName<'_>) -> Result<Summary, Fault>
    ensures told { FindsStill S.Store bureau.old.conn bureau.new.conn result
        (λ office summary. (job : Job)
        → job_of name.entry.customer.now name.entry.number office ≡ Some job
        → summary ≡ summary_of (kept_of job)) }
    ensures left { (office : Office) → AreDistinct (map named office)
        → Leaves S.Store bureau.old.conn bureau.new.conn office }
    ensures clean { StaysClean S.Store bureau.old.conn bureau.new.conn }
{
    let command = Command::Job {
        customer: String::from_str(alloc, name.customer)?,
        number: name.number,
        command: JobCommand::Standing,
    };
    match bureau.apply(&command, &mut Meter::new())? {
        Reply::Standing(summary) => Ok(summary),
        _ => Err(Fault::Store),
    }
}

/// Whether a job of this customer is asked for.
fn is_asked(asked: Option<&str>, customer: &str) -> bool
    ensures { result ≡ is_of (option_map (λ it. it.now) asked.entry) customer.now }
{
    match asked {
        Some(asked) => customer == asked,
        None => true,
    }
}

/// Adds the line of the job of this name, if it is asked for. Returns how many lines were added.
fn push_named<S: Alter>(
    alloc: Global,
    bureau: &mut Bureau<S>,
    out: &mut Vec<u8>,
    asked: Option<&str>,
    name: JobName<'_>,
) -> Result<usize, Fault>
    ensures added { AddsNamed S.Store bureau.old.conn bureau.new.conn result
        (HasName name.entry.customer.now name.entry.number)
        (option_map (λ it. it.now) asked.entry) out.old.items out.new.items }
    ensures left { (office : Office) → AreDistinct (map named office)
        → Leaves S.Store bureau.old.conn bureau.new.conn office }
    ensures one { IfOk result (λ count. count ≤ 1) }
    ensures clean { StaysClean S.Store bureau.old.conn bureau.new.conn }
{
    if !is_asked(asked, name.customer) {
        return Ok(0);
    }
    let summary = ask(alloc, bureau, name)?;
    push_job(out, name, summary)?;
    Ok(1)
}

/// Adds the line of the job that a row names, if it is asked for. Returns how many lines were
/// added.
fn push_row<S: Alter>(
    alloc: Global,
    bureau: &mut Bureau<S>,
    out: &mut Vec<u8>,
    asked: Option<&str>,
    row: &Row,
) -> Result<usize, Fault>
    ensures added { AddsNamed S.Store bureau.old.conn bureau.new.conn result
        (λ e. row.now ≡ name_row e)
        (option_map (λ it. it.now) asked.entry) out.old.items out.new.items }
    ensures left { (office : Office) → AreDistinct (map named office)
        → Leaves S.Store bureau.old.conn bureau.new.conn office }
    ensures one { IfOk result (λ count. count ≤ 1) }
    ensures clean { StaysClean S.Store bureau.old.conn bureau.new.conn }
{
    let name = name_in(row)?;
    push_named(alloc, bureau, out, asked, name)
}

/// Adds the line of how many jobs the list has.
#[tactic(auto, unfolding(crate::specs::Lists::count_line))]
fn push_count(out: &mut Vec<u8>, jobs: usize) -> Result<(), AllocError>
    ensures { OnOk result (out.new.items ≡ out.old.items ++ count_line jobs) }
{
    push_counted(out, "jobs ", jobs)?;
    out.extend_from_slice(b"\n")
}

/// The list of the jobs that these rows name.
fn list_named<S: Alter>(
    alloc: Global,
    bureau: &mut Bureau<S>,
    asked: Option<&str>,
    rows: &[Row],
) -> Result<Vec<u8>, Fault>
    ensures listed { FindsStill S.Store bureau.old.conn bureau.new.conn result
        (λ office text. rows.now ≡ map name_row office
        → text.items ≡ list_text (option_map (λ it. it.now) asked.entry) office) }
    ensures left { (office : Office) → AreDistinct (map named office)
        → Leaves S.Store bureau.old.conn bureau.new.conn office }
    ensures clean { StaysClean S.Store bureau.old.conn bureau.new.conn }
{
    let mut out = Vec::new(alloc);
    let mut jobs = 0usize;
    for row in rows {
        jobs += push_row(alloc, bureau, &mut out, asked, row)?;
    }
    push_count(&mut out, jobs)?;
    Ok(out)
}

/// The list of the jobs of a connection, which is handed back.
fn list_in<S: Alter + Drop>(
    alloc: Global,
    conn: Connection<S>,
    asked: Option<&str>,
) -> (Result<Vec<u8>, OpenFault>, Connection<S>)
    ensures listed { Lists S.Store conn result.1 result.0
        (option_map (λ it. it.now) asked.entry) }
    ensures left { (office : Office) → Leaves S.Store conn result.1 office }
    ensures opened { HasCleanDisk (state S.Store result.1)
        → OnOk result.0 (IsTrue (state S.Store conn).is_open) }
{
    let mut conn = conn;
    let rows = match read_names(&mut conn) {
        Ok(rows) => rows,
        Err(fault) => return (Err(OpenFault::from(fault)), conn),
    };
    let mut bureau = match Bureau::adopt(alloc, conn) {
        Ok(bureau) => bureau,
        Err((fault, conn)) => return (Err(fault), conn),
    };
    let listed = list_named(alloc, &mut bureau, asked, &rows);
    let conn = bureau.into_connection();
    match listed {
        Ok(text) => (Ok(text), conn),
        Err(fault) => (Err(OpenFault::from(fault)), conn),
    }
}

/// Returns the list of a bureau's jobs, or of those of one customer, in the order in which the
/// bureau took them, and hands the store back. Nothing is written. Fails with 1 if there is no
/// memory, with 2 if the store fails or its rows are damaged, and with 50 or 51 if the tables are
/// not a bureau's of this version.
pub fn list_jobs<S: Alter + Drop>(
    alloc: Global,
    conn: Connection<S>,
    asked: Option<&str>,
) -> (Result<Vec<u8>, OpenFault>, S)
    ensures listed { ListsAlone S.Store conn result.1 result.0
        (option_map (λ it. it.now) asked.entry) }
    ensures left { LeavesAlone S.Store conn result.1 }
    ensures opened { IsClean (S.Store.view result.1)
        → OnOk result.0 (IsTrue (state S.Store conn).is_open) }
{
    let (listed, conn) = list_in(alloc, conn, asked);
    let store = conn.into_store();
    if store.is_broken() {
        return (Err(OpenFault::Store), store);
    }
    (listed, store)
}
