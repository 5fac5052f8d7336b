//! Work with the bureau whose file is at a path: the file is opened, and closed after it.

ghost use Rattle.std.specs.Prelude.{◌≡◌, ℕ, List, Option, IfOk, IfErr};
ghost use Rattle.sqlite.specs.{Recovery.{Image}, WalFiles.{image_at}};
ghost use Rattle.office.specs.{declared.commands.Command.{Command}, declared.replies.Reply.{Reply}};
ghost use Rattle.ledger_files.specs.{
  Migrating.{AreNotMigrated, IsMigration},
  Opening.{AreRefused, IsCleanKept},
  Rounds.{HasDone, IsLink, IsRound, MayLeaveClosed},
  Unfinished.{IsCleanRest, IsLeftBy, IsRefusal, IsUnfinished, MayLeaveRest},
};

use crate::closed::Closed;
use crate::kept::Kept;
use crate::places::Place;
use crate::rounds::{finish, open_and_work};
use crate::unfinished::Unfinished;
use ledger::{Bureau, Work};
use ledger_tables::OpenFault;
use sqlite::{FileFrom, FileStore, Leftover, Start};
use sqlite_disk::Disk;
use std::io::Write;

/// Returns what is left of the files of an open that failed. The log, which had this length before,
/// becomes what it was, while the files are locked. Where they were not reached, nothing is touched:
/// the log is another program's.
pub(crate) fn let_go<D: Disk + Drop>(
    rt: &HostRuntime,
    kept: Kept<D>,
    place: &Place,
    log: Option<u64>,
) -> Option<Leftover<D>>
    ensures refusal { (files : Image) → (fault : OpenFault)
        → (IsCleanKept kept → AreRefused files fault kept)
        → IsRefusal files (MayLeaveRest files result) }
    ensures migration { (files : Image) → (fault : OpenFault)
        → (IsCleanKept kept → AreNotMigrated files fault kept)
        → IsMigration files (MayLeaveRest files result) }
    ensures clean { IsCleanRest result → IsCleanKept kept }
{
    match &kept {
        Kept::Nothing => {}
        Kept::Connection(_) | Kept::Left(_) => place.restore_log(rt, &kept, log),
    }
    kept.leave()
}

/// Ends the work with a bureau whose file is at a place. Its log is removed while its file is still
/// locked, so that no other program has begun to write to that log. If the file is not closed, the
/// log stays.
fn end<D: Disk + Drop>(
    rt: &HostRuntime,
    bureau: Bureau<FileStore<D>>,
    place: &Place,
) -> Result<Closed<D>, Unfinished<D>>
    ensures link { IfOk result (λ closed. (first : Image) → (commands : List Command)
        → (replies : List Reply) → HasDone first bureau.conn bureau.broken commands replies
        → IsLink first (MayLeaveClosed closed) commands replies) }
    ensures unclosed { IfErr result (λ left. (first : Image) → (commands : List Command)
        → (replies : List Reply) → HasDone first bureau.conn bureau.broken commands replies
        → IsLeftBy first left commands replies) }
{
    match finish(bureau) {
        Ok(closed) => {
            place.remove_log(rt, &closed);
            Ok(closed)
        }
        Err((fault, store)) => Err(Unfinished::Unclosed(fault, store)),
    }
}

/// Does work with the bureau whose file is at a path. After it the file alone is the bureau: it was
/// closed, and its log is gone; it stays locked as long as what is returned is kept. It fails if the
/// file cannot be opened, and then no work is done; or if it cannot be closed after the work, and
/// then its log stays. Either way the work is a round, from the files that were found to whatever a
/// crash leaves.
pub fn with_bureau<S: Start, W: Work, O: Write>(
    rt: &HostRuntime,
    path: &str,
    start: S,
    work: &mut W,
    output: &mut O,
) -> Result<Closed<FileFrom<S>>, Unfinished<FileFrom<S>>>
    ensures round { IfOk result (λ closed. IsRound (image_at S.Start)
        (MayLeaveClosed closed)
        (W.tells work.old work.new (O.contents output.old) (O.contents output.new))) }
    ensures unfinished { IfErr result (λ left. IsUnfinished (image_at S.Start)
        ((work.new ≡ work.old) × (O.contents output.new ≡ O.contents output.old))
        (W.tells work.old work.new (O.contents output.old) (O.contents output.new)) left) }
{
    let place = match Place::find(rt, path) {
        Ok(place) => place,
        Err(fault) => return Err(Unfinished::Unfound(fault)),
    };
    let log = place.log_length(rt);
    match open_and_work(rt, &place.file, start, work, output) {
        Ok(bureau) => end(rt, bureau, &place),
        Err((fault, kept)) => Err(Unfinished::Refused(fault, let_go(rt, kept, &place, log))),
    }
}
