//! Whose a row is.

ghost use Rattle.std.specs.Prelude.{◌≡◌, ◌↔◌, IsTrue};
ghost use Rattle.sqlite.specs.Order.{column};
ghost use Rattle.ledger_tables.specs.Tables.{has_customer, has_number, is_row_of};

use sqlite::Row;
use sqlite::types::ValueRef;
use texts::JobName;

/// Whether the value in a column is this number.
fn has_number(row: &Row, at: usize, number: u32) -> bool
    ensures { result ≡ has_number number (column row.now at) }
{
    match row.get_ref(at) {
        Ok(ValueRef::Int(found)) => found == i64::from(number),
        _ => false,
    }
}

/// Whether the value in a column is this customer.
fn has_customer(row: &Row, at: usize, customer: &str) -> bool
    ensures { result ≡ has_customer customer.now (column row.now at) }
{
    match row.get_ref(at) {
        Ok(ValueRef::Text(found)) => found == customer.as_bytes(),
        _ => false,
    }
}

/// Whether a row is of the job of this name.
pub(crate) fn is_row_of(row: &Row, name: JobName<'_>) -> bool
    ensures { result ≡ is_row_of name.entry.customer.now name.entry.number row.now }
{
    has_customer(row, 0, name.customer) && has_number(row, 1, name.number)
}
