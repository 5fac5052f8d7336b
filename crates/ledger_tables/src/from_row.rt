//! Rows of query results, read as values.

ghost use Rattle.std.specs.{
  Prelude.{◌≡◌, ◌≢◌, List, Option, map, IfOk, IfErr, IsErrOf},
  Option.{option_to_list},
};
ghost use Rattle.sqlite.specs.{
  Order.{Row as Values},
  declared.error.ErrorCode.TheVariants.{OutOfMemory},
};
ghost use Rattle.ledger_tables.specs.{
  Reading.{AreReadable, CanRead},
  Shown.{shown_job, shown_loaded, shown_name, shown_queued, shown_stretch, shown_state, shown_progress, shown_page, shown_storage, shown_card, shown_line, shown_profile, shown_pocket},
};

use crate::faults::{Fault, fault_of};
use crate::rows::{
    CardRow, JobRow, LineRow, LoadedRow, NameRow, PageRow, PocketRow, ProfileRow, ProgressRow,
    QueuedRow, StateRow, StorageRow, StretchRow,
};
use sqlite::{Error, Row};
use std::alloc::Global;

/// A value that is read from a row of a query's result.
pub trait FromRow: Drop {
    // The row of a value.
    ghost shown: { Self → Values };

    /// Reads the value of a row. If the row has one that can be read, it fails only if there is no
    /// memory.
    fn from_row(row: &Row) -> Result<Self, Error>
        ensures read { IfOk result (λ read. (it : Self) → row.now ≡ shown it → read ≡ it) }
        ensures none { IfErr result (λ error. error ≢ Error.SqliteFailure OutOfMemory
            → (it : Self) → AreReadable (shown it) → row.now ≢ shown it) };
}

impl FromRow for JobRow {
    ghost shown = { shown_job };

    fn from_row(row: &Row) -> Result<JobRow, Error> {
        Ok(JobRow {
            kind: row.get(0)?,
            size: row.get(1)?,
            deck: row.get(2)?,
            loaded: row.get(3)?,
            held: row.get(4)?,
            collected: row.get(5)?,
        })
    }
}

impl FromRow for LoadedRow {
    ghost shown = { shown_loaded };

    fn from_row(row: &Row) -> Result<LoadedRow, Error> {
        Ok(LoadedRow {
            size: row.get(0)?,
            loaded: row.get(1)?,
            held: row.get(2)?,
            collected: row.get(3)?,
        })
    }
}

impl FromRow for NameRow {
    ghost shown = { shown_name };

    fn from_row(row: &Row) -> Result<NameRow, Error> {
        Ok(NameRow {
            number: row.get(0)?,
            held: row.get(1)?,
            collected: row.get(2)?,
        })
    }
}

impl FromRow for QueuedRow {
    ghost shown = { shown_queued };

    fn from_row(row: &Row) -> Result<QueuedRow, Error> {
        Ok(QueuedRow {
            customer: row.get(0)?,
            number: row.get(1)?,
        })
    }
}

impl FromRow for StretchRow {
    ghost shown = { shown_stretch };

    fn from_row(row: &Row) -> Result<StretchRow, Error> {
        Ok(StretchRow {
            switches: row.get(0)?,
            granted: row.get(1)?,
        })
    }
}

impl FromRow for StateRow {
    ghost shown = { shown_state };

    fn from_row(row: &Row) -> Result<StateRow, Error> {
        Ok(StateRow {
            i: row.get(0)?,
            a: row.get(1)?,
            b: row.get(2)?,
            compare: row.get(3)?,
            overflow: row.get(4)?,
            channel: row.get(5)?,
            waiting: row.get(6)?,
            form: row.get(7)?,
            line: row.get(8)?,
            taken: row.get(9)?,
            cards: row.get(10)?,
            lines: row.get(11)?,
            standing: row.get(12)?,
        })
    }
}

impl FromRow for ProgressRow {
    ghost shown = { shown_progress };

    fn from_row(row: &Row) -> Result<ProgressRow, Error> {
        Ok(ProgressRow {
            i: row.get(0)?,
            cards: row.get(1)?,
            lines: row.get(2)?,
            standing: row.get(3)?,
        })
    }
}

impl FromRow for PageRow {
    ghost shown = { shown_page };

    fn from_row(row: &Row) -> Result<PageRow, Error> {
        Ok(PageRow {
            page: row.get(0)?,
            storage: row.get(1)?,
        })
    }
}

impl FromRow for StorageRow {
    ghost shown = { shown_storage };

    fn from_row(row: &Row) -> Result<StorageRow, Error> {
        Ok(StorageRow {
            storage: row.get(0)?,
        })
    }
}

impl FromRow for CardRow {
    ghost shown = { shown_card };

    fn from_row(row: &Row) -> Result<CardRow, Error> {
        Ok(CardRow { card: row.get(0)? })
    }
}

impl FromRow for LineRow {
    ghost shown = { shown_line };

    fn from_row(row: &Row) -> Result<LineRow, Error> {
        Ok(LineRow {
            form: row.get(0)?,
            line: row.get(1)?,
            image: row.get(2)?,
        })
    }
}

impl FromRow for ProfileRow {
    ghost shown = { shown_profile };

    fn from_row(row: &Row) -> Result<ProfileRow, Error> {
        Ok(ProfileRow {
            profile: row.get(0)?,
            chosen: row.get(1)?,
        })
    }
}

impl FromRow for PocketRow {
    ghost shown = { shown_pocket };

    fn from_row(row: &Row) -> Result<PocketRow, Error> {
        Ok(PocketRow {
            place: row.get(0)?,
            pocket: row.get(1)?,
        })
    }
}

/// Reads the values of the rows. If each row has one that can be read, it fails only if there is no
/// memory.
pub(crate) fn read_all<T: FromRow>(alloc: Global, rows: &[Row]) -> Result<Vec<T>, Fault>
    ensures read { IfOk result (λ read. (all : List T)
        → rows.now ≡ map T.shown all → read.items ≡ all) }
    ensures none { IsErrOf result Fault.Store → (all : List T) → CanRead T.shown all
        → rows.now ≢ map T.shown all }
{
    let mut read = Vec::with_capacity(alloc, rows.len())?;
    for row in rows {
        match T::from_row(row) {
            Ok(it) => read.push_reserved(it),
            Err(error) => return Err(fault_of(error)),
        }
    }
    Ok(read)
}

/// Reads the value of the first row, if there is a row. If it has one that can be read, this fails
/// only if there is no memory.
pub(crate) fn read_first<T: FromRow>(rows: &[Row]) -> Result<Option<T>, Fault>
    ensures read { IfOk result (λ found. (it : Option T)
        → rows.now ≡ map T.shown (option_to_list it) → found ≡ it) }
    ensures none { IsErrOf result Fault.Store → (all : List T) → CanRead T.shown all
        → rows.now ≢ map T.shown all }
{
    let Some(row) = rows.first() else {
        return Ok(None);
    };
    match T::from_row(row) {
        Ok(it) => Ok(Some(it)),
        Err(error) => Err(fault_of(error)),
    }
}
