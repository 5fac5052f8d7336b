//! Raising the tables of an earlier version to this program's, in one transaction.

ghost use Rattle.std.specs.Prelude.{IfErr, IfOk, IsErrOf};
ghost use Rattle.ledger_tables.specs.{Disks.{StaysClean}, Steps.{IsStep}, Versions.{IsNotOld}};
ghost use Rattle.ledger.specs.{
  Migrating.{AddsPages, AddsNext, AddsPagesOf, AddsAllPages, EndsFirst, EndsThird, RaisesFrom, FindsVersion, RaisesFound, KnowsFault, TellsVersion, IsRaised, IsKeptOf, LeavesEitherVersion, LeavesUntouched, IsNoFaultOfVersion, HasVersion, IsAnswerOf, IsToldOfVersion},
  Older.{FirstRows, RowsOf, SecondRows, ThirdRows},
};

use crate::page_saving::insert_pages;
use crate::reading::{stored, told};
use core_store::PlaneCore;
use ledger_rows::read_storage;
use ledger_tables::{Fault, OpenFault, OpenTables, QueuedRow, VERSION};
use office::commands_keep_jobs;
use sqlite::{Alter, Connection};
use std::alloc::Global;
use texts::JobName;

/// Makes the pages of a job's storage, which is in `pictures` as a whole.
fn raise_storage<S: Alter>(
    tables: &mut OpenTables<'_, '_, S>,
    name: JobName<'_>,
) -> Result<(), Fault>
    ensures step { IsStep S.Store tables.old tables.new result }
    ensures raised { AddsPages S.Store tables.old tables.new result name.entry }
{
    let found = tables.find_storage(name)?;
    let row = stored(found)?;
    let core: PlaneCore = told(read_storage(tables.alloc, &row.storage))?;
    insert_pages(tables, name, &core)
}

/// Makes the pages of the storage of the job of this row.
fn raise_row<S: Alter>(tables: &mut OpenTables<'_, '_, S>, row: &QueuedRow) -> Result<(), Fault>
    ensures step { IsStep S.Store tables.old tables.new result }
    ensures raised { AddsNext S.Store tables.old tables.new result row.now }
{
    // A law, for the proof: it does nothing.
    commands_keep_jobs();
    let name = JobName {
        customer: row.customer.as_str(),
        number: row.number,
    };
    raise_storage(tables, name)
}

/// Makes the pages of the storages of the jobs of these rows.
fn raise_rows<S: Alter>(tables: &mut OpenTables<'_, '_, S>, rows: &[QueuedRow]) -> Result<(), Fault>
    ensures step { IsStep S.Store tables.old tables.new result }
    ensures raised { AddsPagesOf S.Store tables.old tables.new result rows.now }
{
    for row in rows {
        raise_row(tables, row)?;
    }
    Ok(())
}

/// Makes the pages of all jobs' storages.
fn raise_storages<S: Alter>(tables: &mut OpenTables<'_, '_, S>) -> Result<(), Fault>
    ensures step { IsStep S.Store tables.old tables.new result }
    ensures raised { AddsAllPages S.Store tables.old tables.new result }
{
    let rows = tables.names_pictured()?;
    raise_rows(tables, rows.as_slice())
}

/// Ends a migration from version 3, or from an earlier one whose tables are then those of version 3.
fn end_third<S: Alter>(tables: &mut OpenTables<'_, '_, S>) -> Result<(), Fault>
    ensures step { IsStep S.Store tables.old tables.new result }
    ensures ended { EndsThird S.Store tables.old tables.new result }
{
    tables.add_profiles()?;
    tables.set_version()
}

/// Ends a migration from version 1, after all pages were made.
fn end_first<S: Alter>(tables: &mut OpenTables<'_, '_, S>) -> Result<(), Fault>
    ensures step { IsStep S.Store tables.old tables.new result }
    ensures ended { EndsFirst S.Store tables.old tables.new result }
{
    tables.drop_pictures()?;
    end_third(tables)
}

/// Raises the tables from version 1.
fn raise_first<S: Alter>(tables: &mut OpenTables<'_, '_, S>) -> Result<(), Fault>
    ensures step { IsStep S.Store tables.old tables.new result }
    ensures raised { RaisesFrom S.Store FirstRows tables.old tables.new result }
{
    tables.lay_out()?;
    raise_storages(tables)?;
    end_first(tables)
}

/// Raises the tables from version 2.
fn raise_second<S: Alter>(tables: &mut OpenTables<'_, '_, S>) -> Result<(), Fault>
    ensures step { IsStep S.Store tables.old tables.new result }
    ensures raised { RaisesFrom S.Store SecondRows tables.old tables.new result }
{
    tables.clear_blank_pages()?;
    end_third(tables)
}

/// Raises the tables from version 3.
fn raise_third<S: Alter>(tables: &mut OpenTables<'_, '_, S>) -> Result<(), Fault>
    ensures step { IsStep S.Store tables.old tables.new result }
    ensures raised { RaisesFrom S.Store ThirdRows tables.old tables.new result }
{
    end_third(tables)
}

/// Raises the tables from an earlier version.
fn raise<S: Alter>(tables: &mut OpenTables<'_, '_, S>, version: u32) -> Result<(), Fault>
    ensures step { IsStep S.Store tables.old tables.new result }
    ensures raised { RaisesFrom S.Store (RowsOf version) tables.old tables.new result }
{
    match version {
        1 => raise_first(tables),
        2 => raise_second(tables),
        3 => raise_third(tables),
        _ => Err(Fault::Store),
    }
}

/// The version of the tables: this program's or an earlier one.
fn version_of<S: Alter>(tables: &mut OpenTables<'_, '_, S>) -> Result<u32, OpenFault>
    ensures step { IsStep S.Store tables.old tables.new result }
    ensures found { FindsVersion S.Store tables.old tables.new result }
    ensures known { KnowsFault S.Store tables.old tables.new result }
    ensures not_old { IfErr result IsNotOld }
    ensures told { TellsVersion S.Store tables.old tables.new result }
{
    match tables.find_version() {
        Ok(()) => Ok(VERSION),
        Err(OpenFault::Old(version)) => Ok(version),
        Err(OpenFault::NoMemory) => Err(OpenFault::NoMemory),
        Err(OpenFault::Store) => Err(OpenFault::Store),
        Err(OpenFault::NotABureau) => Err(OpenFault::NotABureau),
    }
}

/// Raises the tables from the version that they have, and returns that version.
fn raise_found<S: Alter>(tables: &mut OpenTables<'_, '_, S>) -> Result<u32, OpenFault>
    ensures step { IsStep S.Store tables.old tables.new result }
    ensures found { RaisesFound S.Store tables.old tables.new result }
    ensures known { KnowsFault S.Store tables.old tables.new result }
    ensures not_old { IfErr result IsNotOld }
    ensures told { TellsVersion S.Store tables.old tables.new result }
{
    let version = version_of(tables)?;
    if version == VERSION {
        return Ok(version);
    }
    raise(tables, version)?;
    Ok(version)
}

/// Raises the tables of a connection to this program's version, in one transaction. Returns the
/// version that they had; if that was this one, nothing is written. Fails with 50 if they are not a
/// bureau's or are of a later version, and with 1 or 2; then they are as they were, but after fault
/// 2 they may be raised.
pub fn migrate<S: Alter>(alloc: Global, conn: &mut Connection<S>) -> Result<u32, OpenFault>
    ensures raised { IfOk result (IsRaised S.Store conn.old conn.new) }
    ensures kept { IsErrOf result OpenFault.NoMemory → IsKeptOf S.Store conn.old conn.new }
    ensures crash { LeavesEitherVersion S.Store conn.old conn.new }
    ensures known { IfErr result (IsNoFaultOfVersion S.Store conn.old conn.new) }
    ensures version { IfOk result (HasVersion S.Store conn.old conn.new) }
    ensures answer { IsAnswerOf S.Store conn.old conn.new result }
    ensures told { IsToldOfVersion S.Store conn.old conn.new result }
    ensures untouched { LeavesUntouched S.Store conn.old conn.new result }
    ensures clean { StaysClean S.Store conn.old conn.new }
{
    if !conn.is_autocommit() {
        return Err(OpenFault::Store);
    }
    let mut tx = conn.transaction();
    let found = raise_found(&mut OpenTables { tx: &mut tx, alloc });
    match found {
        Ok(version) => {
            if version == VERSION {
                tx.rollback();
                return Ok(version);
            }
            match tx.commit() {
                Ok(()) => Ok(version),
                Err(_) => Err(OpenFault::Store),
            }
        }
        Err(fault) => {
            tx.rollback();
            Err(fault)
        }
    }
}
