//! The rows of one job, read at once.

ghost use Rattle.std.specs.Prelude.{◌≡◌, [], ◌∷◌, pos, IfOk, IsPermutation};
ghost use Rattle.sqlite.specs.{
  Held.{state},
  State.{HasCleanDisk, Shown},
  declared.types.Value.TheVariants.{Int, Text},
};
ghost use Rattle.ledger_tables.specs.{Disks.{StaysClean}, Tables.{cells}};
ghost use Rattle.job_checks.specs.Tables.{AreRowsOfJob, LeavesLess, Reads, RiseByPlace, rows_of_job, tables_of};

use ledger_tables::{Fault, fault_of};
use sqlite::{Alter, Row, Transaction, params};
use texts::JobName;

/// The rows of one job in the tables other than `bureau` and `jobs`, each with its columns and
/// without its rowid.
#[derive(Drop)]
pub struct JobRows {
    pub stretches: Vec<Row>,
    pub states: Vec<Row>,
    /// In the order of their numbers.
    pub pages: Vec<Row>,
    pub cards: Vec<Row>,
    pub lines: Vec<Row>,
    pub profiles: Vec<Row>,
    /// In the order of their places.
    pub pockets: Vec<Row>,
}

/// The rows of a query for a job, inside a transaction.
fn rows<S: Alter>(
    tx: &mut Transaction<'_, S>,
    sql: &str,
    name: JobName<'_>,
) -> Result<Vec<Row>, Fault>
    ensures shown { HasCleanDisk (state S.Store tx.new.conn.now) → IfOk result (λ rows.
        Shown sql.now (Text name.entry.customer.now ∷ Int (pos name.entry.number) ∷ [])
        (state S.Store tx.old.conn.now) (state S.Store tx.new.conn.now) rows.items) }
    ensures same_reference { tx.new.conn.ghost_name ≡ tx.old.conn.ghost_name }
    ensures left { LeavesLess (state S.Store tx.old.conn.now) (state S.Store tx.new.conn.now) }
    ensures clean { StaysClean S.Store tx.old.conn.now tx.new.conn.now }
{
    match tx.query_all(sql, params![name.customer, name.number]) {
        Ok(rows) => Ok(rows),
        Err(error) => Err(fault_of(error)),
    }
}

fn stretch_rows<S: Alter>(tx: &mut Transaction<'_, S>, name: JobName<'_>) -> Result<Vec<Row>, Fault>
    ensures read { Reads S.Store tx.old.conn.now tx.new.conn.now result
        (λ db rows. rows.items ≡ rows_of_job name.entry (cells (db 3))) }
    ensures same_reference { tx.new.conn.ghost_name ≡ tx.old.conn.ghost_name }
    ensures left { LeavesLess (state S.Store tx.old.conn.now) (state S.Store tx.new.conn.now) }
    ensures clean { StaysClean S.Store tx.old.conn.now tx.new.conn.now }
{
    rows(
        tx,
        "SELECT customer, number, place, switches, granted \
         FROM stretches WHERE customer = ?1 AND number = ?2 ORDER BY rowid",
        name,
    )
}

fn state_rows<S: Alter>(tx: &mut Transaction<'_, S>, name: JobName<'_>) -> Result<Vec<Row>, Fault>
    ensures read { Reads S.Store tx.old.conn.now tx.new.conn.now result
        (λ db rows. rows.items ≡ rows_of_job name.entry (cells (db 11))) }
    ensures same_reference { tx.new.conn.ghost_name ≡ tx.old.conn.ghost_name }
    ensures left { LeavesLess (state S.Store tx.old.conn.now) (state S.Store tx.new.conn.now) }
    ensures clean { StaysClean S.Store tx.old.conn.now tx.new.conn.now }
{
    rows(
        tx,
        "SELECT customer, number, i, a, b, compare, overflow, channel, waiting, form, line, taken, \
         cards, lines, standing FROM states WHERE customer = ?1 AND number = ?2 ORDER BY rowid",
        name,
    )
}

fn page_rows<S: Alter>(tx: &mut Transaction<'_, S>, name: JobName<'_>) -> Result<Vec<Row>, Fault>
    ensures read { Reads S.Store tx.old.conn.now tx.new.conn.now result
        (λ db rows. IsPermutation (rows_of_job name.entry (cells (db 13))) rows.items
        × RiseByPlace rows.items) }
    ensures same_reference { tx.new.conn.ghost_name ≡ tx.old.conn.ghost_name }
    ensures left { LeavesLess (state S.Store tx.old.conn.now) (state S.Store tx.new.conn.now) }
    ensures clean { StaysClean S.Store tx.old.conn.now tx.new.conn.now }
{
    rows(
        tx,
        "SELECT customer, number, page, storage \
         FROM pages WHERE customer = ?1 AND number = ?2 ORDER BY page",
        name,
    )
}

fn card_rows<S: Alter>(tx: &mut Transaction<'_, S>, name: JobName<'_>) -> Result<Vec<Row>, Fault>
    ensures read { Reads S.Store tx.old.conn.now tx.new.conn.now result
        (λ db rows. rows.items ≡ rows_of_job name.entry (cells (db 7))) }
    ensures same_reference { tx.new.conn.ghost_name ≡ tx.old.conn.ghost_name }
    ensures left { LeavesLess (state S.Store tx.old.conn.now) (state S.Store tx.new.conn.now) }
    ensures clean { StaysClean S.Store tx.old.conn.now tx.new.conn.now }
{
    rows(
        tx,
        "SELECT customer, number, place, card \
         FROM cards WHERE customer = ?1 AND number = ?2 ORDER BY rowid",
        name,
    )
}

fn line_rows<S: Alter>(tx: &mut Transaction<'_, S>, name: JobName<'_>) -> Result<Vec<Row>, Fault>
    ensures read { Reads S.Store tx.old.conn.now tx.new.conn.now result
        (λ db rows. rows.items ≡ rows_of_job name.entry (cells (db 9))) }
    ensures same_reference { tx.new.conn.ghost_name ≡ tx.old.conn.ghost_name }
    ensures left { LeavesLess (state S.Store tx.old.conn.now) (state S.Store tx.new.conn.now) }
    ensures clean { StaysClean S.Store tx.old.conn.now tx.new.conn.now }
{
    rows(
        tx,
        "SELECT customer, number, place, form, line, image \
         FROM lines WHERE customer = ?1 AND number = ?2 ORDER BY rowid",
        name,
    )
}

fn profile_rows<S: Alter>(tx: &mut Transaction<'_, S>, name: JobName<'_>) -> Result<Vec<Row>, Fault>
    ensures read { Reads S.Store tx.old.conn.now tx.new.conn.now result
        (λ db rows. rows.items ≡ rows_of_job name.entry (cells (db 15))) }
    ensures same_reference { tx.new.conn.ghost_name ≡ tx.old.conn.ghost_name }
    ensures left { LeavesLess (state S.Store tx.old.conn.now) (state S.Store tx.new.conn.now) }
    ensures clean { StaysClean S.Store tx.old.conn.now tx.new.conn.now }
{
    rows(
        tx,
        "SELECT customer, number, profile, chosen \
         FROM profiles WHERE customer = ?1 AND number = ?2 ORDER BY rowid",
        name,
    )
}

fn pocket_rows<S: Alter>(tx: &mut Transaction<'_, S>, name: JobName<'_>) -> Result<Vec<Row>, Fault>
    ensures read { Reads S.Store tx.old.conn.now tx.new.conn.now result
        (λ db rows. IsPermutation (rows_of_job name.entry (cells (db 17))) rows.items
        × RiseByPlace rows.items) }
    ensures same_reference { tx.new.conn.ghost_name ≡ tx.old.conn.ghost_name }
    ensures left { LeavesLess (state S.Store tx.old.conn.now) (state S.Store tx.new.conn.now) }
    ensures clean { StaysClean S.Store tx.old.conn.now tx.new.conn.now }
{
    rows(
        tx,
        "SELECT customer, number, place, pocket \
         FROM pockets WHERE customer = ?1 AND number = ?2 ORDER BY place",
        name,
    )
}

impl JobRows {
    /// Reads the rows of a job, inside a transaction.
    pub fn read<S: Alter>(tx: &mut Transaction<'_, S>, name: JobName<'_>) -> Result<JobRows, Fault>
        ensures read { Reads S.Store tx.old.conn.now tx.new.conn.now result (λ db rows.
            AreRowsOfJob db name.entry.customer.now name.entry.number (tables_of rows)) }
        ensures same_reference { tx.new.conn.ghost_name ≡ tx.old.conn.ghost_name }
        ensures left { LeavesLess (state S.Store tx.old.conn.now) (state S.Store tx.new.conn.now) }
        ensures clean { StaysClean S.Store tx.old.conn.now tx.new.conn.now }
    {
        let stretches = stretch_rows(tx, name)?;
        let states = state_rows(tx, name)?;
        let pages = page_rows(tx, name)?;
        let cards = card_rows(tx, name)?;
        let lines = line_rows(tx, name)?;
        let profiles = profile_rows(tx, name)?;
        let pockets = pocket_rows(tx, name)?;
        Ok(JobRows {
            stretches,
            states,
            pages,
            cards,
            lines,
            profiles,
            pockets,
        })
    }
}
