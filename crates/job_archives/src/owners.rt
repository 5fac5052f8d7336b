//! Who has jobs in a bureau.

ghost use Rattle.std.specs.Prelude.{◌≡◌, IfOk, option_map, string_bytes};
ghost use Rattle.office.specs.Office.{Office};
ghost use Rattle.sqlite.specs.{Held.{state}, State.{HasCleanDisk}};
ghost use Rattle.office_tables.specs.Standing.{StandsIn};
ghost use Rattle.ledger_tables.specs.Disks.{StaysClean};
ghost use Rattle.job_checks.specs.Tables.{LeavesLess};
ghost use Rattle.job_archives.specs.Parts.{IsShared, IsSharedAmong, IsUnknown, IsUnknownAmong, begins_with, has_row, names_in};

use crate::customers::Customers;
use crate::names::{name_in, read_names};
use job_checks::value_at;
use ledger_tables::Fault;
use sqlite::types::ValueRef;
use sqlite::{Alter, Connection, Row};
use std::alloc::Global;

/// Whether a row begins with the name of a customer.
fn begins_with(row: &Row, customer: &[u8]) -> bool
    ensures { result ≡ begins_with customer.now row.now }
{
    match value_at(row, 0) {
        ValueRef::Text(name) => name == customer,
        _ => false,
    }
}

/// Whether one of these rows begins with the name of a customer.
fn has_row(rows: &[Row], customer: &[u8]) -> bool
    ensures { result ≡ has_row customer.now rows.now }
{
    rows.iter().any(|row| begins_with(row, customer))
}

/// The names by which customers are chosen.
fn names_in<'a>(customers: Customers<'a>) -> &'a [&'a str]
    ensures { result.now ≡ names_in customers.entry }
{
    match customers {
        Customers::All => &[],
        Customers::Named(names) | Customers::Others(names) => names,
    }
}

/// One of these names with which none of these rows begins, if there is one.
fn unknown_among<'a>(names: &'a [&'a str], rows: &[Row]) -> Option<&'a str>
    ensures { IsUnknownAmong names.entry.now rows.now result }
{
    for name in names {
        if !has_row(rows, name.as_bytes()) {
            return Some(*name);
        }
    }
    None
}

/// A name with which rows of both begin, if there is one. Fails with 2 if a row has no name.
fn shared_among<'a>(first: &'a [Row], second: &[Row]) -> Result<Option<&'a str>, Fault>
    ensures { IfOk result (IsSharedAmong first.entry.now second.now) }
{
    for row in first {
        let name = name_in(row)?;
        if has_row(second, name.customer.as_bytes()) {
            return Ok(Some(name.customer));
        }
    }
    Ok(None)
}

/// Returns a name by which customers are chosen and whose customer has no job in a bureau, if there
/// is one. Nothing is written. Fails with 1 if there is no memory, and with 2 if the store fails.
pub fn first_unknown<'a, S: Alter>(
    conn: &mut Connection<S>,
    customers: Customers<'a>,
) -> Result<Option<&'a str>, Fault>
    ensures found { HasCleanDisk (state S.Store conn.new) → IfOk result (λ found.
        (office : Office) → StandsIn (state S.Store conn.old) office
        → IsUnknown customers.entry office found) }
    ensures left { LeavesLess (state S.Store conn.old) (state S.Store conn.new) }
    ensures clean { StaysClean S.Store conn.old conn.new }
{
    let rows = read_names(conn)?;
    Ok(unknown_among(names_in(customers), &rows))
}

/// Returns a customer who has jobs in both bureaus, if there is one. Nothing is written. Fails with
/// 1 if there is no memory, and with 2 if a store fails, or a job has no name that a number and a
/// text can be.
pub fn first_shared<S: Alter, T: Alter>(
    alloc: Global,
    first: &mut Connection<S>,
    second: &mut Connection<T>,
) -> Result<Option<String>, Fault>
    ensures found { HasCleanDisk (state S.Store first.new) → HasCleanDisk (state T.Store second.new)
        → IfOk result (λ found. (office : Office) → (more : Office)
        → StandsIn (state S.Store first.old) office → StandsIn (state T.Store second.old) more
        → IsShared office more (option_map string_bytes found)) }
    ensures left { LeavesLess (state S.Store first.old) (state S.Store first.new) }
    ensures other_left { LeavesLess (state T.Store second.old) (state T.Store second.new) }
    ensures clean { StaysClean S.Store first.old first.new }
    ensures other_clean { StaysClean T.Store second.old second.new }
{
    let rows = read_names(first)?;
    let more = read_names(second)?;
    match shared_among(&rows, &more)? {
        Some(customer) => Ok(Some(String::from_str(alloc, customer)?)),
        None => Ok(None),
    }
}
