//! Rounds of work on a bureau's files: they are opened, work is done, and then everything stops, or
//! the file is closed.

ghost use Rattle.std.specs.Prelude.{◌≡◌, ◌≤◌, List, Ok, IfOk, IfErr, IsErrAnd, IsTrue};
ghost use Rattle.sqlite.specs.{
  FileStore.{recovers, view},
  Files.{HoldsDatabase, file_state},
  Recovery.{Image},
  State.{HasCleanDisk},
  Tree.{Trees},
  View.{IsClean, doubt},
  WalFiles.{image_at, outcomes},
};
ghost use Rattle.sqlite.specs.FileStore as store;
ghost use Rattle.sqlite_wal.specs.Reads.{AreClean};
ghost use Rattle.office.specs.{
  Office.{Office},
  declared.commands.Command.{Command},
  declared.replies.Reply.{Reply},
};
ghost use Rattle.office_tables.specs.Standing.{Stands};
ghost use Rattle.ledger_files.specs.{
  Closing.{HindersEnding, StandsAlone},
  Migrating.{IsMidway, IsMigration},
  Opening.{AreRefused, IsAnswerFor, IsCleanKept},
  Rounds.{HasDone, HasWorkedFrom, HoldsOneOf, IsLink, MayLeave, MayLeaveClosed},
  Unfinished.{IsUnclosed},
};

use crate::closed::Closed;
use crate::closing::{close, connection_of};
use crate::kept::Kept;
use crate::opening::open_from;
use ledger::{Bureau, Work};
use ledger_tables::OpenFault;
use sqlite::{Connection, FileFrom, FileStore, Start};
use sqlite_disk::Disk;
use std::io::Write;

/// Opens the file at a path as a bureau, and does work with it. Fails as [`open_from`] does, and
/// then does no work.
pub fn open_and_work<S: Start, W: Work, O: Write>(
    rt: &HostRuntime,
    path: &str,
    start: S,
    work: &mut W,
    output: &mut O,
) -> Result<Bureau<FileStore<FileFrom<S>>>, (OpenFault, Kept<FileFrom<S>>)>
    ensures worked { IfOk result (λ bureau. HasWorkedFrom (image_at S.Start) bureau.conn
        bureau.broken (W.tells work.old work.new (O.contents output.old)
        (O.contents output.new))) }
    ensures version { IfOk result (λ bureau. HasCleanDisk (file_state bureau.conn)
        → IsAnswerFor (image_at S.Start) (Ok tt)) }
    ensures idle { IfErr result (λ e. (work.new ≡ work.old)
        × (O.contents output.new ≡ O.contents output.old)) }
    ensures refused { IfErr result (λ e. IsCleanKept e.1
        → AreRefused (image_at S.Start) e.0 e.1) }
{
    match open_from(rt, path, start) {
        Ok(mut bureau) => {
            work.carry_out(rt, &mut bureau, output);
            Ok(bureau)
        }
        Err((fault, kept)) => Err((fault, kept)),
    }
}

/// Returns the store of a connection as a crash at this moment finds it, whatever the tables
/// represent.
pub fn leave<D: Disk + Drop>(conn: Connection<FileStore<D>>) -> FileStore<D>
    ensures left { IsClean (view result) → (left : Image) → (store.state result).may_leave left
        → HoldsOneOf (view result).has_sums left (file_state conn).may_leave }
    ensures migration { (first : Image) → IsMidway first conn
        → IsMigration first (MayLeave result) }
    ensures kept { (db : Trees) → recovers result db → (file_state conn).may_leave db }
    ensures clean { doubt (file_state conn).is_clean ≤ doubt (view result).is_clean }
{
    conn.into_store()
}

/// Returns the store as a crash at this moment finds it, whatever the tables represent. Work that
/// was done with the bureau is then a link from the files that were opened to whatever the crash
/// leaves.
pub fn stop<D: Disk + Drop>(bureau: Bureau<FileStore<D>>) -> FileStore<D>
    ensures left { IsClean (view result) → (left : Image) → (store.state result).may_leave left
        → HoldsOneOf (view result).has_sums left (file_state bureau.conn).may_leave }
    ensures link { (first : Image) → (commands : List Command) → (replies : List Reply)
        → HasDone first bureau.conn bureau.broken commands replies
        → IsLink first (MayLeave result) commands replies }
    ensures kept { (db : Trees) → recovers result db → (file_state bureau.conn).may_leave db }
    ensures clean { doubt (file_state bureau.conn).is_clean ≤ doubt (view result).is_clean }
{
    leave(connection_of(bureau))
}

/// Ends the work with a bureau: its file is closed, so that it alone is the bureau. The file of a
/// broken bureau is not, since it has to be opened again: what a crash may leave of it now is kept,
/// as it is where the closing fails. Work that was done with the bureau is then a link from the
/// files that were opened to whatever a crash leaves of the closed ones, with their log or without
/// it, or of those of a broken bureau.
pub fn finish<D: Disk + Drop>(
    bureau: Bureau<FileStore<D>>,
) -> Result<Closed<D>, (OpenFault, FileStore<D>)>
    ensures alone { IfOk result (λ closed. AreClean D.Disk closed.files.log closed.files.db
        → (office : Office) → Stands (file_state bureau.conn) office → (left : Image)
        → outcomes D.Disk closed.files.log closed.files.db left → StandsAlone left office) }
    ensures link { IfOk result (λ closed. (first : Image) → (commands : List Command)
        → (replies : List Reply) → HasDone first bureau.conn bureau.broken commands replies
        → IsLink first (MayLeaveClosed closed) commands replies) }
    ensures stopped { IsTrue bureau.broken → IfErr result (λ e. (first : Image)
        → (commands : List Command) → (replies : List Reply)
        → HasDone first bureau.conn bureau.broken commands replies
        → IsLink first (MayLeave e.1) commands replies) }
    ensures kept { IfErr result (λ e. (db : Trees) → recovers e.1 db
        → (file_state bureau.conn).may_leave db) }
    ensures clean_still { IfErr result (λ e. doubt (file_state bureau.conn).is_clean
        ≤ doubt (view e.1).is_clean) }
    ensures unclosed { IfErr result (λ e. (first : Image) → (commands : List Command)
        → (replies : List Reply) → HasDone first bureau.conn bureau.broken commands replies
        → IsUnclosed first e.0 e.1 commands replies) }
    ensures cause { IfErr result (λ e. IsClean (view e.1)
        → HindersEnding bureau.broken bureau.conn e.1 e.0) }
    ensures broken { IsTrue bureau.broken → IsErrAnd result (λ e. e.0 ≡ OpenFault.Store) }
{
    if bureau.broken() {
        return Err((OpenFault::Store, stop(bureau)));
    }
    close(bureau)
}
