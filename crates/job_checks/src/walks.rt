//! All jobs of a bureau, each run again, one after the other.

ghost use Rattle.std.specs.Prelude.{◌≡◌, ◌↔◌, [], IfOk, IsNone, OnOk};
ghost use Rattle.office.specs.Office.{Entry};
ghost use Rattle.sqlite.specs.Held.{state};
ghost use Rattle.ledger_tables.specs.Disks.{StaysClean};
ghost use Rattle.job_checks.specs.{
  Kept.{version_row},
  Tables.{LeavesLess, LeavesNoMore, Reads, ReadsAlone, ReadsOn, ReadsSettled},
  Walks.{HasTaken, HasWalked},
};

use crate::cells::first_other;
use crate::jobs::run_job;
use crate::reading::hand_back;
use crate::reports::{JobReport, Orphan, Table};
use crate::runs::JobRun;
use crate::whole_tables::{read_jobs, read_version};
use ledger_tables::{Fault, VERSION};
use sqlite::{Alter, Connection, Row, Transaction, params};
use std::alloc::{AllocError, Global};

/// What is done with each job of a bureau.
pub trait EachJob {
    // What it was before, what it is now, and what came of the job that it took between.
    ghost use Rattle.std.specs.Prelude.{Result};
    ghost use Rattle.office.specs.Office.{Entry};
    ghost use Rattle.job_checks.specs.declared.reports.JobReport.{JobReport};

    ghost takes: { Self → Self → Result Entry JobReport → Type 0 };

    /// Takes a job that is as it ran, or what is told of one that differs. A fault ends the walk.
    fn take(&mut self, found: Result<JobRun, JobReport>) -> Result<(), Fault>
        ensures { OnOk result (takes self.old self.new found) };
}

/// What was read of a bureau beside its jobs.
#[derive(Drop)]
pub struct Walked {
    /// The rows of the table `bureau`.
    pub version: Vec<Row>,
    /// How many jobs there are.
    pub jobs: usize,
}

/// The first row of `bureau`, counted from 1, that is not as it is to be: one row, with the
/// version.
fn first_other_version(rows: &[Row]) -> Option<usize>
    ensures { IsNone result ↔ (rows.now ≡ version_row) }
{
    let [row] = rows else {
        return Some(2);
    };
    match first_other(row, params![1u32, VERSION]) {
        None => None,
        Some(_) => Some(1),
    }
}

impl Walked {
    /// The first row of a table that is not as it is to be, whatever the jobs. By the rules of a
    /// bureau's schema only that of `bureau` may be one.
    pub fn orphans(&self, alloc: Global) -> Result<Vec<Orphan>, AllocError>
        ensures { IfOk result (λ orphans. (orphans.items ≡ [])
            ↔ (self.now.version.items ≡ version_row)) }
    {
        let mut orphans = Vec::new(alloc);
        if let Some(row) = first_other_version(&self.version) {
            orphans.try_reserve(1)?;
            orphans.push_reserved(Orphan {
                table: Table::Bureau,
                row,
            });
        }
        Ok(orphans)
    }
}

/// Runs the job of each of these rows again, and has it taken.
fn take_each<S: Alter, E: EachJob>(
    alloc: Global,
    tx: &mut Transaction<'_, S>,
    jobs: &[Row],
    each: &mut E,
) -> Result<(), Fault>
    ensures read { ReadsOn S.Store tx.old.conn.now tx.new.conn.now result
        (λ db _. HasTaken E.takes db jobs.now each.old each.new) }
    ensures same_reference { tx.new.conn.ghost_name ≡ tx.old.conn.ghost_name }
    ensures left { LeavesLess (state S.Store tx.old.conn.now) (state S.Store tx.new.conn.now) }
    ensures clean { StaysClean S.Store tx.old.conn.now tx.new.conn.now }
{
    for job in jobs {
        let found = run_job(alloc, tx, job)?;
        each.take(found)?;
    }
    Ok(())
}

/// Runs each job again, and has it taken, inside a transaction.
fn walk<S: Alter, E: EachJob>(
    alloc: Global,
    tx: &mut Transaction<'_, S>,
    each: &mut E,
) -> Result<Walked, Fault>
    ensures read { Reads S.Store tx.old.conn.now tx.new.conn.now result
        (λ db walked. HasWalked E.takes db each.old each.new walked) }
    ensures same_reference { tx.new.conn.ghost_name ≡ tx.old.conn.ghost_name }
    ensures left { LeavesLess (state S.Store tx.old.conn.now) (state S.Store tx.new.conn.now) }
    ensures clean { StaysClean S.Store tx.old.conn.now tx.new.conn.now }
{
    let version = read_version(tx)?;
    let rows = read_jobs(tx)?;
    take_each(alloc, tx, rows.as_slice(), each)?;
    let jobs = rows.len();
    Ok(Walked { version, jobs })
}

/// Runs each job again, and has it taken, in a transaction that is rolled back.
fn walk_settled<S: Alter, E: EachJob>(
    alloc: Global,
    conn: &mut Connection<S>,
    each: &mut E,
) -> Result<Walked, Fault>
    ensures read { ReadsSettled S.Store conn.old conn.new result
        (λ db walked. HasWalked E.takes db each.old each.new walked) }
    ensures left { LeavesLess (state S.Store conn.old) (state S.Store conn.new) }
    ensures clean { StaysClean S.Store conn.old conn.new }
{
    if !conn.is_autocommit() {
        return Err(Fault::Store);
    }
    let _schema = conn.schema();
    let mut tx = conn.transaction();
    let walked = walk(alloc, &mut tx, each);
    tx.rollback();
    walked
}

/// Runs each job of a bureau again, compares its rows with what it makes, and has it taken, one job
/// after the other in the order of their rows. Nothing is written, and the store is handed back: a
/// crash then leaves nothing that it might not have left before. Fails with 1 if there is no
/// memory, with 2 if the store fails, and as a job was taken.
pub fn each_job<S: Alter + Drop, E: EachJob>(
    alloc: Global,
    conn: Connection<S>,
    each: &mut E,
) -> (Result<Walked, Fault>, S)
    ensures read { ReadsAlone S.Store conn result.1 result.0
        (λ db walked. HasWalked E.takes db each.old each.new walked) }
    ensures left { LeavesNoMore S.Store conn result.1 }
{
    let mut conn = conn;
    let walked = walk_settled(alloc, &mut conn, each);
    let (sound, store) = hand_back(conn);
    match sound {
        Ok(()) => (walked, store),
        Err(fault) => (Err(fault), store),
    }
}
