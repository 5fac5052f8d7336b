//! A new bureau, filled with jobs of another one.

ghost use Rattle.std.specs.Prelude.{◌≡◌};
ghost use Rattle.sqlite.specs.Held.{state};
ghost use Rattle.ledger_tables.specs.Disks.{StaysClean};
ghost use Rattle.job_checks.specs.Tables.{LeavesLess};

use crate::customers::{Customers, is_theirs};
use crate::names::name_in;
use job_checks::{JobRows, read_jobs, value_at};
use ledger_tables::{Fault, fault_of};
use sqlite::{Alter, Connection, Row, Transaction};
use std::alloc::Global;

/// How many jobs of a bureau are looked at in one transaction of the new one.
const JOBS: usize = 64;

/// Adds a row to `jobs`.
const PUT_JOB: &str = "INSERT INTO jobs (customer, number, kind, size, deck, loaded, held, \
    collected) VALUES (?1, ?2, ?3, ?4, ?5, ?6, ?7, ?8)";

/// Adds a row to `stretches`.
const PUT_STRETCH: &str = "INSERT INTO stretches (customer, number, place, switches, granted) \
    VALUES (?1, ?2, ?3, ?4, ?5)";

/// Adds a row to `states`.
const PUT_STATE: &str = "INSERT INTO states (customer, number, i, a, b, compare, overflow, \
    channel, waiting, form, line, taken, cards, lines, standing) \
    VALUES (?1, ?2, ?3, ?4, ?5, ?6, ?7, ?8, ?9, ?10, ?11, ?12, ?13, ?14, ?15)";

/// Adds a row to `pages`.
const PUT_PAGE: &str =
    "INSERT INTO pages (customer, number, page, storage) VALUES (?1, ?2, ?3, ?4)";

/// Adds a row to `profiles`.
const PUT_PROFILE: &str =
    "INSERT INTO profiles (customer, number, profile, chosen) VALUES (?1, ?2, ?3, ?4)";

/// Adds a row to `cards`.
const PUT_CARD: &str = "INSERT INTO cards (customer, number, place, card) VALUES (?1, ?2, ?3, ?4)";

/// Adds a row to `pockets`.
const PUT_POCKET: &str =
    "INSERT INTO pockets (customer, number, place, pocket) VALUES (?1, ?2, ?3, ?4)";

/// Adds a row to `lines`.
const PUT_LINE: &str = "INSERT INTO lines (customer, number, place, form, line, image) \
    VALUES (?1, ?2, ?3, ?4, ?5, ?6)";

/// Adds a row to a table, by a statement with a parameter for each of its columns.
fn put_row<S: Alter>(
    alloc: Global,
    tx: &mut Transaction<'_, S>,
    sql: &str,
    row: &Row,
) -> Result<(), Fault>
    ensures { tx.new.conn.ghost_name ≡ tx.old.conn.ghost_name }
{
    let mut values = Vec::new(alloc);
    for at in 0..row.column_count() {
        values.try_reserve(1)?;
        values.push_reserved(value_at(row, at));
    }
    match tx.execute(sql, values.as_slice()) {
        Ok(_rows) => Ok(()),
        Err(error) => Err(fault_of(error)),
    }
}

/// Adds rows to a table.
fn put_rows<S: Alter>(
    alloc: Global,
    tx: &mut Transaction<'_, S>,
    sql: &str,
    rows: &[Row],
) -> Result<(), Fault>
    ensures { tx.new.conn.ghost_name ≡ tx.old.conn.ghost_name }
{
    for row in rows {
        put_row(alloc, tx, sql, row)?;
    }
    Ok(())
}

/// Adds the rows of a job in all other tables.
fn put_tables<S: Alter>(
    alloc: Global,
    tx: &mut Transaction<'_, S>,
    rows: &JobRows,
) -> Result<(), Fault>
    ensures { tx.new.conn.ghost_name ≡ tx.old.conn.ghost_name }
{
    put_rows(alloc, tx, PUT_STRETCH, &rows.stretches)?;
    put_rows(alloc, tx, PUT_STATE, &rows.states)?;
    put_rows(alloc, tx, PUT_PAGE, &rows.pages)?;
    put_rows(alloc, tx, PUT_PROFILE, &rows.profiles)?;
    put_rows(alloc, tx, PUT_CARD, &rows.cards)?;
    put_rows(alloc, tx, PUT_POCKET, &rows.pockets)?;
    put_rows(alloc, tx, PUT_LINE, &rows.lines)
}

/// Adds all rows of a job, if it is of these customers. They are read in a transaction of its
/// bureau.
fn put_job<S: Alter, T: Alter>(
    alloc: Global,
    file: &mut Transaction<'_, S>,
    new: &mut Transaction<'_, T>,
    customers: Customers<'_>,
    job: &Row,
) -> Result<(), Fault>
    ensures file { file.new.conn.ghost_name ≡ file.old.conn.ghost_name }
    ensures new { new.new.conn.ghost_name ≡ new.old.conn.ghost_name }
    ensures left { LeavesLess (state S.Store file.old.conn.now) (state S.Store file.new.conn.now) }
    ensures clean { StaysClean S.Store file.old.conn.now file.new.conn.now }
{
    if !is_theirs(customers, job) {
        return Ok(());
    }
    let name = name_in(job)?;
    let rows = JobRows::read(file, name)?;
    put_row(alloc, new, PUT_JOB, job)?;
    put_tables(alloc, new, &rows)
}

/// Adds all rows of those of these jobs that are of these customers.
fn put_jobs<S: Alter, T: Alter>(
    alloc: Global,
    file: &mut Transaction<'_, S>,
    new: &mut Transaction<'_, T>,
    customers: Customers<'_>,
    jobs: &[Row],
) -> Result<(), Fault>
    ensures file { file.new.conn.ghost_name ≡ file.old.conn.ghost_name }
    ensures new { new.new.conn.ghost_name ≡ new.old.conn.ghost_name }
    ensures left { LeavesLess (state S.Store file.old.conn.now) (state S.Store file.new.conn.now) }
    ensures clean { StaysClean S.Store file.old.conn.now file.new.conn.now }
{
    for job in jobs {
        put_job(alloc, file, new, customers, job)?;
    }
    Ok(())
}

/// Adds all rows of those of these jobs that are of these customers, in a transaction of the new
/// bureau.
fn put_together<S: Alter, T: Alter>(
    alloc: Global,
    file: &mut Transaction<'_, S>,
    new: &mut Connection<T>,
    customers: Customers<'_>,
    jobs: &[Row],
) -> Result<(), Fault>
    ensures file { file.new.conn.ghost_name ≡ file.old.conn.ghost_name }
    ensures left { LeavesLess (state S.Store file.old.conn.now) (state S.Store file.new.conn.now) }
    ensures clean { StaysClean S.Store file.old.conn.now file.new.conn.now }
{
    if !new.is_autocommit() {
        return Err(Fault::Store);
    }
    let mut tx = new.transaction();
    match put_jobs(alloc, file, &mut tx, customers, jobs) {
        Ok(()) => match tx.commit() {
            Ok(()) => Ok(()),
            Err(error) => Err(fault_of(error)),
        },
        Err(fault) => {
            tx.rollback();
            Err(fault)
        }
    }
}

/// Adds all rows of the jobs of these customers, which are read in a transaction of their bureau.
fn put_all<S: Alter, T: Alter>(
    alloc: Global,
    file: &mut Transaction<'_, S>,
    new: &mut Connection<T>,
    customers: Customers<'_>,
) -> Result<(), Fault>
    ensures left { LeavesLess (state S.Store file.old.conn.now) (state S.Store file.new.conn.now) }
    ensures same_reference { file.new.conn.ghost_name ≡ file.old.conn.ghost_name }
    ensures clean { StaysClean S.Store file.old.conn.now file.new.conn.now }
{
    let jobs = read_jobs(file)?;
    for some in jobs.as_slice().chunks(JOBS) {
        put_together(alloc, file, new, customers, some)?;
    }
    Ok(())
}

/// Puts the jobs of these customers, with all their rows, into a new bureau, in their order. The
/// file is read only: a crash then leaves nothing of it that it might not have left before. Fails
/// with 1 if there is no memory, and with 2 if a store fails, or a job has no name that a number
/// and a text can be. No clause says which rows the new bureau has: `compare_files` and
/// `compare_join` find them.
pub fn copy_jobs<S: Alter, T: Alter>(
    alloc: Global,
    file: &mut Connection<S>,
    new: &mut Connection<T>,
    customers: Customers<'_>,
) -> Result<(), Fault>
    ensures left { LeavesLess (state S.Store file.old) (state S.Store file.new) }
    ensures clean { StaysClean S.Store file.old file.new }
{
    if !file.is_autocommit() {
        return Err(Fault::Store);
    }
    let mut tx = file.transaction();
    let put = put_all(alloc, &mut tx, new, customers);
    tx.rollback();
    put
}
