//! The end of a reading by a connection.

ghost use Rattle.sqlite.specs.{Held.{state}, State.{HasCleanDisk}, View.{IsClean}};
ghost use Rattle.job_checks.specs.Tables.{HandsBack, LeavesNoMore};

use ledger_tables::Fault;
use sqlite::{Alter, Connection};
use sqlite_trees::store::Store;

/// Hands back the store of a connection by which something was read. Fails with 2 if it is broken:
/// then nothing that was read is told.
pub fn hand_back<S: Alter + Drop>(conn: Connection<S>) -> (Result<(), Fault>, S)
    ensures sound { HandsBack S.Store conn result.1 result.0 }
    ensures clean { IsClean (S.Store.view result.1) → HasCleanDisk (state S.Store conn) }
    ensures left { LeavesNoMore S.Store conn result.1 }
{
    let store = conn.into_store();
    if store.is_broken() {
        return (Err(Fault::Store), store);
    }
    (Ok(()), store)
}
