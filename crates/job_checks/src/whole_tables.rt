//! The tables that are read whole: `bureau` and `jobs`.

ghost use Rattle.std.specs.Prelude.{◌≡◌, [], IfOk, IsPermutation, map};
ghost use Rattle.sqlite.specs.{Held.{state}, State.{HasCleanDisk, Shown}};
ghost use Rattle.ledger_tables.specs.{Disks.{StaysClean}, Tables.{cells}};
ghost use Rattle.job_checks.specs.Tables.{LeavesLess, Reads, version_columns};

use ledger_tables::{Fault, fault_of};
use sqlite::{Alter, Row, Transaction};

/// The rows of a query without parameters, inside a transaction.
fn rows<S: Alter>(tx: &mut Transaction<'_, S>, sql: &str) -> Result<Vec<Row>, Fault>
    ensures shown { HasCleanDisk (state S.Store tx.new.conn.now) → IfOk result (λ rows.
        Shown sql.now [] (state S.Store tx.old.conn.now) (state S.Store tx.new.conn.now)
        rows.items) }
    ensures same_reference { tx.new.conn.ghost_name ≡ tx.old.conn.ghost_name }
    ensures left { LeavesLess (state S.Store tx.old.conn.now) (state S.Store tx.new.conn.now) }
    ensures clean { StaysClean S.Store tx.old.conn.now tx.new.conn.now }
{
    match tx.query_all(sql, &[]) {
        Ok(rows) => Ok(rows),
        Err(error) => Err(fault_of(error)),
    }
}

/// Reads the rows of `bureau`, inside a transaction: of each its number and the version. Fails with
/// 1 if there is no memory, and with 2 if the store fails.
pub fn read_version<S: Alter>(tx: &mut Transaction<'_, S>) -> Result<Vec<Row>, Fault>
    ensures read { Reads S.Store tx.old.conn.now tx.new.conn.now result
        (λ db rows. IsPermutation (map version_columns (db 0)) rows.items) }
    ensures same_reference { tx.new.conn.ghost_name ≡ tx.old.conn.ghost_name }
    ensures left { LeavesLess (state S.Store tx.old.conn.now) (state S.Store tx.new.conn.now) }
    ensures clean { StaysClean S.Store tx.old.conn.now tx.new.conn.now }
{
    rows(tx, "SELECT id, version FROM bureau")
}

/// Reads the rows of `jobs` in their order, inside a transaction. Fails with 1 if there is no
/// memory, and with 2 if the store fails.
pub fn read_jobs<S: Alter>(tx: &mut Transaction<'_, S>) -> Result<Vec<Row>, Fault>
    ensures read { Reads S.Store tx.old.conn.now tx.new.conn.now result
        (λ db rows. rows.items ≡ cells (db 1)) }
    ensures same_reference { tx.new.conn.ghost_name ≡ tx.old.conn.ghost_name }
    ensures left { LeavesLess (state S.Store tx.old.conn.now) (state S.Store tx.new.conn.now) }
    ensures clean { StaysClean S.Store tx.old.conn.now tx.new.conn.now }
{
    rows(
        tx,
        "SELECT customer, number, kind, size, deck, loaded, held, collected FROM jobs \
         ORDER BY rowid",
    )
}
