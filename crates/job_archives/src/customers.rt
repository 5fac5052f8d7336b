//! Some of a bureau's customers.

ghost use Rattle.std.specs.Prelude.{◌≡◌, ◌↔◌, IsTrue, filter};
ghost use Rattle.job_archives.specs.Parts.{is_named, is_theirs};

use crate::rows::is_same_row;
use job_checks::value_at;
use sqlite::Row;
use sqlite::types::ValueRef;

/// Customers of a bureau.
#[derive(Clone, Copy)]
pub enum Customers<'a> {
    /// All.
    All,
    /// Those that are named.
    Named(&'a [&'a str]),
    /// All but those that are named.
    Others(&'a [&'a str]),
}

/// Whether a customer has one of these names.
pub(crate) fn is_named(names: &[&str], customer: &[u8]) -> bool
    ensures { result ≡ is_named names.now customer.now }
{
    names.iter().any(|name| name.as_bytes() == customer)
}

/// Whether a row begins with the name of one of these customers. Of all customers each row does.
pub(crate) fn is_theirs(customers: Customers<'_>, row: &Row) -> bool
    ensures { result ≡ is_theirs customers.entry row.now }
{
    match customers {
        Customers::All => true,
        Customers::Named(names) => match value_at(row, 0) {
            ValueRef::Text(name) => is_named(names, name),
            _ => false,
        },
        Customers::Others(names) => match value_at(row, 0) {
            ValueRef::Text(name) => !is_named(names, name),
            _ => false,
        },
    }
}

/// Whether the second are the rows of the first that begin with the names of these customers, in
/// the same order.
pub(crate) fn are_theirs(customers: Customers<'_>, first: &[Row], second: &[Row]) -> bool
    ensures { IsTrue result ↔ (second.now ≡ filter (is_theirs customers.entry) first.now) }
{
    let mut at = 0usize;
    for place in 0..first.len() {
        if is_theirs(customers, &first[place]) {
            if at == second.len() || !is_same_row(&first[place], &second[at]) {
                return false;
            }
            at += 1;
        }
    }
    at == second.len()
}
