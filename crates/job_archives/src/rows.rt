//! Rows that are compared value by value.

ghost use Rattle.std.specs.Prelude.{◌≡◌, ◌↔◌, IsTrue};
ghost use Rattle.sqlite_value.specs.{Order.{column}, Value.{owned}};

use job_checks::value_at;
use sqlite::Row;
use sqlite_value::order::is_same;

/// Whether two rows have the same values.
pub(crate) fn is_same_row(first: &Row, second: &Row) -> bool
    ensures { IsTrue result ↔ (first.now ≡ second.now) }
{
    if first.column_count() != second.column_count() {
        return false;
    }
    for at in 0..first.column_count() {
        if !is_same(value_at(first, at), value_at(second, at)) {
            return false;
        }
    }
    true
}

/// Whether these are the same rows in the same order.
pub(crate) fn are_same(first: &[Row], second: &[Row]) -> bool
    ensures { IsTrue result ↔ (first.now ≡ second.now) }
{
    if first.len() != second.len() {
        return false;
    }
    for at in 0..first.len() {
        if !is_same_row(&first[at], &second[at]) {
            return false;
        }
    }
    true
}
