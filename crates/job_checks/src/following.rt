//! The rows of a job, one after the other.

ghost use Rattle.std.specs.Prelude.{◌≡◌, [], ◌∷◌, List, map, IfErr, IfOk, IfSome, IsNone, OnErr, OnOk};
ghost use Rattle.sqlite.specs.Order.{Row as Values};
ghost use Rattle.sqlite_value.specs.Value.{owned};
ghost use Rattle.job_checks.specs.Tables.{rows_of_job};

use crate::cells::first_other;
use crate::differences::{Difference, Found, Place, value_apart};
use crate::names::is_row_of;
use sqlite::Row;
use sqlite::types::ValueRef;
use texts::JobName;

/// The first row of a job, and the rows after it.
pub(crate) fn next_of<'a>(rows: &'a [Row], name: JobName<'_>) -> Option<(&'a Row, &'a [Row])>
    ensures found { IfSome result (λ found.
        rows_of_job name.entry rows.now
        ≡ found.0.now ∷ rows_of_job name.entry found.1.now) }
    ensures none { IsNone result → rows_of_job name.entry rows.now ≡ [] }
{
    for at in 0..rows.len() {
        if is_row_of(&rows[at], name) {
            return Some((&rows[at], &rows[at + 1..]));
        }
    }
    None
}

/// Passes the first row of a job, which is to be this one. Returns the rows after it.
pub(crate) fn pass<'a>(
    rows: &'a [Row],
    name: JobName<'_>,
    place: Place,
    wanted: &[ValueRef<'_>],
) -> Result<&'a [Row], Difference>
    ensures passed { IfOk result (λ rest. rows_of_job name.entry rows.now
        ≡ map owned wanted.now ∷ rows_of_job name.entry rest.now) }
    ensures other { IfErr result (λ difference. (rest : List Values)
        → ¬ (rows_of_job name.entry rows.now
        ≡ map owned wanted.now ∷ rest)) }
{
    let Some((row, rest)) = next_of(rows, name) else {
        return Err(Difference::Row(place, Found::Nothing));
    };
    match first_other(row, wanted) {
        None => Ok(rest),
        Some(column) => Err(Difference::Row(place, value_apart(place, row, wanted, column))),
    }
}

/// Tests that there are no more rows of a job.
pub(crate) fn pass_none(rows: &[Row], name: JobName<'_>, place: Place) -> Result<(), Difference>
    ensures none { OnOk result (rows_of_job name.entry rows.now ≡ []) }
    ensures some { OnErr result (¬ (rows_of_job name.entry rows.now
        ≡ [])) }
{
    match next_of(rows, name) {
        None => Ok(()),
        Some(_) => Err(Difference::Row(place, Found::OneTooMany)),
    }
}
