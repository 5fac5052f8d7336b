//! Looking into the bureau whose file is at a path, without changing it.

ghost use Rattle.std.specs.Prelude.{◌≡◌, OnErr, OnOk};
ghost use Rattle.sqlite.specs.{Held.{state}, Tree.{Trees}, View.{IsClean}};
ghost use Rattle.office.specs.Office.{Office};
ghost use Rattle.office_tables.specs.Standing.{LeftAs, Stands};

use ledger_files::Source;
use ledger_tables::OpenFault;
use sqlite::{Alter, Connection};
use std::alloc::Global;

/// A look into the tables of a bureau, whatever its store is. It keeps what it has seen.
pub trait Look {
    // What the look before it and after it tells of what it has seen.
    ghost looked: { Self → Self → Type 0 };

    /// Looks, and hands the store back. If the tables represent an office, whatever a crash leaves
    /// of the store represents it still.
    fn look<S: Alter + Drop>(&mut self, alloc: Global, conn: Connection<S>) -> S
        ensures looked { looked self.old self.new }
        ensures left { IsClean (S.Store.view result) → (office : Office)
            → Stands (state S.Store conn) office → (db : Trees) → S.Store.recovers result db
            → LeftAs db office };
}

/// Looks into the bureau whose file is at a path. The file and its log are after it what they were.
/// Fails with the fault if the file cannot be opened, and then nothing is looked at.
pub fn look_into<L: Look>(rt: &HostRuntime, path: &str, look_at: &mut L) -> Result<(), OpenFault>
    ensures looked { OnOk result (L.looked look_at.old look_at.new) }
    ensures idle { OnErr result (look_at.new ≡ look_at.old) }
{
    match Source::open(rt, path) {
        Ok((source, conn)) => {
            let store = look_at.look(rt.alloc(), conn);
            source.release(rt, store);
            Ok(())
        }
        Err(fault) => Err(fault),
    }
}
