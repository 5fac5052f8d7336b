//! One job, run again and compared with its rows.

ghost use Rattle.std.specs.Prelude.{◌≡◌, ℕ, ℤ, List, true, Err, IfErr, IfOk, OnErr, OnOk};
ghost use Rattle.sqlite.specs.{
  Held.{state},
  Order.{column},
  Tree.{Trees},
  declared.types.Value.TheVariants.{Int, Text},
};
ghost use Rattle.job_checks.specs.{
  Jobs.{HasRun, HasRunAs, IsFound, IsNameOf, entry_of, row_of},
  Outcomes.{IsAsItRan},
  Stops.{IfDiffers},
  Tables.{LeavesLess, Reads, ReadsOn, tables_of},
};
ghost use Rattle.ledger_tables.specs.Disks.{StaysClean};
ghost use Rattle.office.specs.Office.{Entry};

use crate::again::{Loaded, load, run_again};
use crate::cells::{first_other, number_at, text_at};
use crate::differences::{Difference, Place, Stop, value_apart};
use crate::job_rows::JobRows;
use crate::machines::{check_machine, check_stretches};
use crate::reports::{JobReport, Outcome};
use crate::runs::JobRun;
use crate::submitted::{Numbers, Submitted, read_profile, read_stretches, read_submitted};
use ledger_rows::truth;
use ledger_tables::Fault;
use office::Stretch;
use sqlite::types::ValueRef;
use sqlite::{Alter, Row, Transaction, params};
use std::alloc::{AllocError, Global};
use texts::{JobName, is_customer, is_number};
use units::Profile;

/// The job's row is this one.
fn check_row(row: &Row, name: JobName<'_>, job: Numbers, loaded: &Loaded) -> Result<(), Difference>
    ensures same { OnOk result (row.now ≡ row_of name.entry.customer.now name.entry.number job
        loaded.now.deck_bytes.items loaded.now.loaded_bytes.items) }
    ensures other { OnErr result (¬ (row.now ≡ row_of name.entry.customer.now name.entry.number
        job loaded.now.deck_bytes.items loaded.now.loaded_bytes.items)) }
{
    let size = job.size.positions() as u32;
    let wanted = params![
        name.customer,
        name.number,
        job.kind.number(),
        size,
        loaded.deck_bytes.as_slice(),
        loaded.loaded_bytes.as_slice(),
        truth(job.held),
        truth(job.collected),
    ];
    match first_other(row, wanted) {
        None => Ok(()),
        Some(column) => Err(Difference::Row(
            Place::Job,
            value_apart(Place::Job, row, wanted, column),
        )),
    }
}

/// The job with this name and these contents, profile and stretches is run again, and compared with
/// its rows.
fn check_again(
    alloc: Global,
    rows: &JobRows,
    row: &Row,
    name: JobName<'_>,
    submitted: Submitted,
    profile: Profile,
    stretches: Vec<Stretch>,
) -> Result<JobRun, Stop>
    requires { IsNameOf row.now name.customer.now name.number }
    ensures same { IfOk result (λ run. run ≡ entry_of name.entry.customer.now name.entry.number
        submitted.numbers submitted.deck profile stretches.items) }
    ensures kept { IfOk result (λ run. HasRunAs (tables_of rows.now) row.now run) }
    ensures other { IfDiffers result (¬ HasRunAs (tables_of rows.now) row.now (entry_of
        name.entry.customer.now name.entry.number submitted.numbers submitted.deck profile
        stretches.items)) }
{
    let Submitted { numbers, deck } = submitted;
    let loaded = load(alloc, numbers.kind, numbers.size, deck)?;
    check_row(row, name, numbers, &loaded)?;
    check_stretches(&rows.stretches, name, &stretches)?;
    let Loaded { deck, loaded, .. } = loaded;
    let machine = run_again(alloc, loaded, numbers.size, profile, &stretches)?;
    check_machine(rows, name, machine.parts())?;
    let run = JobRun::of(alloc, name, numbers, deck, profile, stretches, machine)?;
    Ok(run)
}

/// The name of the job of a row, or the name of the column with a value that no name has.
fn name_of(row: &Row) -> Result<JobName<'_>, &'static str>
    ensures name { IfOk result (λ name. IsNameOf row.now name.customer.now name.number) }
    ensures none { IfErr result (λ column. (customer : List ℕ) → (number : ℕ)
        → ¬ IsNameOf row.now customer number) }
{
    let Some(customer) = text_at(row, 0) else {
        return Err("customer");
    };
    if !is_customer(customer) {
        return Err("customer");
    }
    let Some(number) = number_at(row, 1) else {
        return Err("number");
    };
    if !is_number(number) {
        return Err("number");
    }
    Ok(JobName { customer, number })
}

/// The job of this name and row is run again, and compared with its rows.
fn check_named(alloc: Global, rows: &JobRows, row: &Row, name: JobName<'_>) -> Result<JobRun, Stop>
    requires { IsNameOf row.now name.customer.now name.number }
    ensures run { IfOk result (HasRun (tables_of rows.now) row.now) }
    ensures other { IfDiffers result ((e : Entry) → ¬ HasRun (tables_of rows.now) row.now e) }
{
    let submitted = read_submitted(alloc, row)?;
    let stretches = read_stretches(alloc, &rows.stretches, name)?;
    let profile = read_profile(&rows.profiles, name)?;
    check_again(alloc, rows, row, name, submitted, profile, stretches)
}

/// The bytes of the text in a column, or none.
fn label_bytes(alloc: Global, row: &Row) -> Result<Vec<u8>, AllocError>
    ensures { IfOk result (λ bytes. (text : List ℕ) → column row.now 0 ≡ Text text
        → bytes.items ≡ text) }
{
    match row.get_ref(0) {
        Ok(ValueRef::Text(bytes)) => Vec::from_slice(alloc, bytes),
        _ => Ok(Vec::new(alloc)),
    }
}

/// The number in the second column, or 0.
fn label_number(row: &Row) -> i64
    ensures { (number : ℤ) → column row.now 1 ≡ Int number → result ≡ number }
{
    match row.get_ref(1) {
        Ok(ValueRef::Int(number)) => number,
        _ => 0,
    }
}

/// What is told of the job of a row that differs.
fn differing(alloc: Global, row: &Row, difference: Difference) -> Result<JobReport, AllocError>
    ensures { IfOk result (λ report. report.outcome ≡ Outcome.Differs difference) }
{
    Ok(JobReport {
        customer: label_bytes(alloc, row)?,
        number: label_number(row),
        outcome: Outcome::Differs(difference),
    })
}

/// The job of this name and row is run again, and compared with its rows: the job, or what is told
/// of it if it differs.
fn run_named(
    alloc: Global,
    rows: &JobRows,
    row: &Row,
    name: JobName<'_>,
) -> Result<Result<JobRun, JobReport>, AllocError>
    requires { IsNameOf row.now name.customer.now name.number }
    ensures run { IfOk result (λ found. IfOk found (HasRun (tables_of rows.now) row.now)) }
    ensures told { IfOk result (λ found. IfErr found (λ report. ¬ IsAsItRan report.outcome)) }
    ensures other { IfOk result (λ found. IfErr found (λ report. (e : Entry)
        → ¬ HasRun (tables_of rows.now) row.now e)) }
{
    match check_named(alloc, rows, row, name) {
        Ok(run) => Ok(Ok(run)),
        Err(Stop::Differs(difference)) => Ok(Err(differing(alloc, row, difference)?)),
        Err(Stop::NoMemory) => Err(AllocError),
    }
}

/// The job of this name and row is run again, and compared with its rows, which are read inside a
/// transaction.
fn read_and_run<S: Alter>(
    alloc: Global,
    tx: &mut Transaction<'_, S>,
    row: &Row,
    name: JobName<'_>,
) -> Result<Result<JobRun, JobReport>, Fault>
    requires { IsNameOf row.now name.customer.now name.number }
    ensures read { Reads S.Store tx.old.conn.now tx.new.conn.now result
        (λ db found. IsFound db row.now found) }
    ensures same_reference { tx.new.conn.ghost_name ≡ tx.old.conn.ghost_name }
    ensures left { LeavesLess (state S.Store tx.old.conn.now) (state S.Store tx.new.conn.now) }
    ensures clean { StaysClean S.Store tx.old.conn.now tx.new.conn.now }
{
    let rows = JobRows::read(tx, name)?;
    let found = run_named(alloc, &rows, row, name)?;
    Ok(found)
}

/// What is told of a row with a value in this column that no name has: it is that of no job.
fn unnamed(alloc: Global, row: &Row, name: &'static str) -> Result<JobReport, AllocError>
    requires { (customer : List ℕ) → (number : ℕ) → ¬ IsNameOf row.now customer number }
    ensures { IfOk result (λ report. (db : Trees) → IsFound db row.now (Err report)) }
{
    differing(alloc, row, Difference::NoJob { name })
}

/// Runs the job of a row of `jobs` again, and compares its rows, which are read inside a
/// transaction, with what it makes. Returns the job if its rows are these, else what is told of it:
/// then no job has these rows. Fails with 1 if there is no memory, and with 2 if the store fails.
pub(crate) fn run_job<S: Alter>(
    alloc: Global,
    tx: &mut Transaction<'_, S>,
    row: &Row,
) -> Result<Result<JobRun, JobReport>, Fault>
    ensures read { ReadsOn S.Store tx.old.conn.now tx.new.conn.now result
        (λ db found. IsFound db row.now found) }
    ensures same_reference { tx.new.conn.ghost_name ≡ tx.old.conn.ghost_name }
    ensures left { LeavesLess (state S.Store tx.old.conn.now) (state S.Store tx.new.conn.now) }
    ensures clean { StaysClean S.Store tx.old.conn.now tx.new.conn.now }
{
    match name_of(row) {
        Ok(name) => read_and_run(alloc, tx, row, name),
        Err(name) => Ok(Err(unnamed(alloc, row, name)?)),
    }
}
