//! The names of a bureau's jobs.

ghost use Rattle.std.specs.{
  Prelude.{◌≡◌, ◌<◌, ◌^◌, ℕ, List, pos, map, true, IfErr, IfOk, IfSome, IsOk, IsSome, IsTrue, OnOk},
  Str.{IsUtf8},
};
ghost use Rattle.texts.specs.Names.{is_customer, is_number};
ghost use Rattle.office.specs.Office.{Entry, Office};
ghost use Rattle.sqlite.specs.{
  Held.{state},
  Order.{column},
  State.{HasCleanDisk},
  declared.types.Value.TheVariants.{Int, Text},
};
ghost use Rattle.office_tables.specs.Standing.{Stands, StandsIn, named};
ghost use Rattle.ledger_tables.specs.{Disks.{StaysClean}, Tables.{AreDistinct}};
ghost use Rattle.job_checks.specs.Tables.{LeavesLess};
ghost use Rattle.job_archives.specs.{Lists.{Leaves}, Names.{HasName, name_row}};

use job_checks::{number_at, text_at};
use ledger_tables::{Fault, fault_of};
use sqlite::{Alter, Connection, Row};
use texts::JobName;

/// Reads the customer and the number of each job, in the order in which the jobs were taken, in a
/// transaction that is rolled back.
pub(crate) fn read_names<S: Alter>(conn: &mut Connection<S>) -> Result<Vec<Row>, Fault>
    ensures names { HasCleanDisk (state S.Store conn.new) → IfOk result (λ rows. (office : Office)
        → StandsIn (state S.Store conn.old) office → AreDistinct (map named office)
        × Stands (state S.Store conn.new) office × (rows.items ≡ map name_row office)) }
    ensures left { (office : Office) → Leaves S.Store conn.old conn.new office }
    ensures less { LeavesLess (state S.Store conn.old) (state S.Store conn.new) }
    ensures opened { HasCleanDisk (state S.Store conn.new)
        → OnOk result (IsTrue (state S.Store conn.old).is_open) }
    ensures clean { StaysClean S.Store conn.old conn.new }
{
    if !conn.is_autocommit() {
        return Err(Fault::Store);
    }
    let mut tx = conn.transaction();
    let found = tx.query_all("SELECT customer, number FROM jobs ORDER BY rowid", &[]);
    tx.rollback();
    match found {
        Ok(rows) => Ok(rows),
        Err(error) => Err(fault_of(error)),
    }
}

/// The name of the job that a row names. Fails with 2 if the row has no name.
pub(crate) fn name_in(row: &Row) -> Result<JobName<'_>, Fault>
    ensures found { IfOk result (λ name. (e : Entry) → row.now ≡ name_row e
        → HasName name.customer.now name.number e) }
    ensures named { IfOk result (λ name. (column row.now 0 ≡ Text name.customer.now)
        × (column row.now 1 ≡ Int (pos name.number))) }
    ensures damaged { IfErr result (λ fault. fault ≡ Fault.Store) }
    ensures lawful { (e : Entry) → row.now ≡ name_row e → is_customer e.customer ≡ true
        → is_number e.number ≡ true → IsOk result }
{
    let Some(customer) = text_at(row, 0) else {
        return Err(Fault::Store);
    };
    let Some(number) = number_at(row, 1) else {
        return Err(Fault::Store);
    };
    Ok(JobName { customer, number })
}
