//! The comparison of two bureaus, one job after the other.

ghost use Rattle.std.specs.{Prelude.{◌≡◌, Ok, OnOk}, List.{AllByRecursion}};
ghost use Rattle.sqlite.specs.Held.{state};
ghost use Rattle.ledger_tables.specs.Disks.{StaysClean};
ghost use Rattle.job_checks.specs.Tables.{LeavesLess, LeavesNoMore, tables_of};
ghost use Rattle.job_archives.specs.Copies.{Compares, ComparesFiles, HaveSameJob, IsSameJob, JobDiffers, ReadsBoth, ReadsBothOn, ReadsBothSettled, Tells, rows_in};

use crate::customers::{Customers, are_theirs};
use crate::names::name_in;
use crate::rows::are_same;
use job_checks::{JobRows, Table, hand_back, read_jobs, read_version};
use ledger_tables::Fault;
use sqlite::{Alter, Connection, Row, Transaction};
use texts::JobName;

/// What the comparison of a bureau's file with a copy of it, or of a part of it, found.
#[derive(Drop)]
pub struct Compared {
    /// A table whose rows are not the same, if there is one.
    pub other: Option<Table>,
    /// How many jobs the copy has.
    pub jobs: usize,
}

/// The first table in which two readings of a job differ, if there is one. The rows of pages and of
/// pockets, too, are compared in the order in which they were read.
fn other_rows(first: &JobRows, second: &JobRows) -> Option<Table>
    ensures { Tells (tables_of first.now ≡ tables_of second.now) (λ table.
        ¬ (rows_in (tables_of first.now) table ≡ rows_in (tables_of second.now) table)) result }
{
    if !are_same(&first.stretches, &second.stretches) {
        return Some(Table::Stretches);
    }
    if !are_same(&first.states, &second.states) {
        return Some(Table::States);
    }
    if !are_same(&first.pages, &second.pages) {
        return Some(Table::Pages);
    }
    if !are_same(&first.cards, &second.cards) {
        return Some(Table::Cards);
    }
    if !are_same(&first.lines, &second.lines) {
        return Some(Table::Lines);
    }
    if !are_same(&first.profiles, &second.profiles) {
        return Some(Table::Profiles);
    }
    if !are_same(&first.pockets, &second.pockets) {
        return Some(Table::Pockets);
    }
    None
}

/// Compares the rows of a job in two bureaus, inside a transaction of each.
fn compare_job<S: Alter, T: Alter>(
    first: &mut Transaction<'_, S>,
    second: &mut Transaction<'_, T>,
    name: JobName<'_>,
) -> Result<Option<Table>, Fault>
    ensures read { ReadsBoth S.Store T.Store first.old.conn.now first.new.conn.now
        second.old.conn.now second.new.conn.now result (λ db copy told. Tells
        (HaveSameJob db copy name.entry.customer.now name.entry.number) (JobDiffers db copy) told) }
    ensures first { first.new.conn.ghost_name ≡ first.old.conn.ghost_name }
    ensures second { second.new.conn.ghost_name ≡ second.old.conn.ghost_name }
    ensures left { LeavesLess (state S.Store first.old.conn.now)
        (state S.Store first.new.conn.now) }
    ensures copy_left { LeavesLess (state T.Store second.old.conn.now)
        (state T.Store second.new.conn.now) }
    ensures clean { StaysClean S.Store first.old.conn.now first.new.conn.now }
    ensures copy_clean { StaysClean T.Store second.old.conn.now second.new.conn.now }
{
    let rows = JobRows::read(first, name)?;
    let others = JobRows::read(second, name)?;
    Ok(other_rows(&rows, &others))
}

/// Compares the rows of these jobs in two bureaus, inside a transaction of each, and returns a
/// table in which the first one that differs does so.
pub(crate) fn compare_each<S: Alter, T: Alter>(
    first: &mut Transaction<'_, S>,
    second: &mut Transaction<'_, T>,
    jobs: &[Row],
) -> Result<Option<Table>, Fault>
    ensures read { ReadsBothOn S.Store T.Store first.old.conn.now first.new.conn.now
        second.old.conn.now second.new.conn.now result (λ db copy told.
        Tells (AllByRecursion (IsSameJob db copy) jobs.now) (JobDiffers db copy) told) }
    ensures first { first.new.conn.ghost_name ≡ first.old.conn.ghost_name }
    ensures second { second.new.conn.ghost_name ≡ second.old.conn.ghost_name }
    ensures left { LeavesLess (state S.Store first.old.conn.now)
        (state S.Store first.new.conn.now) }
    ensures copy_left { LeavesLess (state T.Store second.old.conn.now)
        (state T.Store second.new.conn.now) }
    ensures clean { StaysClean S.Store first.old.conn.now first.new.conn.now }
    ensures copy_clean { StaysClean T.Store second.old.conn.now second.new.conn.now }
{
    for job in jobs {
        let name = name_in(job)?;
        let told = compare_job(first, second, name)?;
        if let Some(table) = told {
            return Ok(Some(table));
        }
    }
    Ok(None)
}

/// Compares all rows of a bureau with those of these customers in another one, inside a transaction
/// of each.
fn compare_all<S: Alter, T: Alter>(
    first: &mut Transaction<'_, S>,
    second: &mut Transaction<'_, T>,
    customers: Customers<'_>,
) -> Result<Compared, Fault>
    ensures read { ReadsBoth S.Store T.Store first.old.conn.now first.new.conn.now
        second.old.conn.now second.new.conn.now result
        (λ db copy told. Compares db copy customers.entry told) }
    ensures first { first.new.conn.ghost_name ≡ first.old.conn.ghost_name }
    ensures second { second.new.conn.ghost_name ≡ second.old.conn.ghost_name }
    ensures left { LeavesLess (state S.Store first.old.conn.now)
        (state S.Store first.new.conn.now) }
    ensures copy_left { LeavesLess (state T.Store second.old.conn.now)
        (state T.Store second.new.conn.now) }
    ensures clean { StaysClean S.Store first.old.conn.now first.new.conn.now }
    ensures copy_clean { StaysClean T.Store second.old.conn.now second.new.conn.now }
{
    let version = read_version(first)?;
    let jobs = read_jobs(first)?;
    let other_version = read_version(second)?;
    let other_jobs = read_jobs(second)?;
    let theirs = other_jobs.as_slice();
    let count = theirs.len();
    if !are_same(&version, &other_version) {
        return Ok(Compared {
            other: Some(Table::Bureau),
            jobs: count,
        });
    }
    if !are_theirs(customers, &jobs, theirs) {
        return Ok(Compared {
            other: Some(Table::Jobs),
            jobs: count,
        });
    }
    let other = compare_each(first, second, theirs)?;
    Ok(Compared { other, jobs: count })
}

/// Compares all rows of a bureau with those of these customers in another one, in transactions that
/// are rolled back.
fn compare_settled<S: Alter, T: Alter>(
    file: &mut Connection<S>,
    copy: &mut Connection<T>,
    customers: Customers<'_>,
) -> Result<Compared, Fault>
    ensures read { ReadsBothSettled S.Store T.Store file.old file.new copy.old copy.new result
        (λ db copy told. Compares db copy customers.entry told) }
    ensures left { LeavesLess (state S.Store file.old) (state S.Store file.new) }
    ensures copy_left { LeavesLess (state T.Store copy.old) (state T.Store copy.new) }
    ensures clean { StaysClean S.Store file.old file.new }
    ensures copy_clean { StaysClean T.Store copy.old copy.new }
{
    if !file.is_autocommit() || !copy.is_autocommit() {
        return Err(Fault::Store);
    }
    let _schema = file.schema();
    let _copy_schema = copy.schema();
    let mut first = file.transaction();
    let mut second = copy.transaction();
    let told = compare_all(&mut first, &mut second, customers);
    first.rollback();
    second.rollback();
    told
}

/// Whether both stores are sound, or the first fault.
pub(crate) fn both_sound(first: Result<(), Fault>, second: Result<(), Fault>) -> Result<(), Fault>
    ensures { OnOk result ((first ≡ Ok tt) × (second ≡ Ok tt)) }
{
    first?;
    second
}

/// Compares a bureau's file with a copy of it, or of the part of it that these customers have: the
/// rows of all tables, those of one job at a time. Returns a table whose rows are not the same, if
/// there is one: that in which the first job that differs does so. If there is none, the copy
/// stands for the customers' part of each office for which the file stands. Nothing is written, and
/// the stores are handed back. Fails with 1 if there is no memory, and with 2 if a store fails, or
/// a job has no name that a number and a text can be.
pub fn compare_files<S: Alter + Drop, T: Alter + Drop>(
    file: Connection<S>,
    copy: Connection<T>,
    customers: Customers<'_>,
) -> (Result<Compared, Fault>, S, T)
    ensures compared { ComparesFiles S.Store T.Store customers.entry file copy result.1 result.2
        result.0 }
    ensures left { LeavesNoMore S.Store file result.1 }
    ensures copy_left { LeavesNoMore T.Store copy result.2 }
{
    let mut file = file;
    let mut copy = copy;
    let told = compare_settled(&mut file, &mut copy, customers);
    let (sound, store) = hand_back(file);
    let (copied, other) = hand_back(copy);
    match both_sound(sound, copied) {
        Ok(()) => (told, store, other),
        Err(fault) => (Err(fault), store, other),
    }
}
