//! Serving requests over HTTP from the bureau in a file.

ghost use Rattle.std.specs.Prelude.{◌≡◌};
ghost use Rattle.sqlite.specs.WalFiles.{image_at};
ghost use Rattle.bureau.specs.Work.{HasEndedFrom, TellsPort};

use crate::ended::Ended;
use bureau_work::{Outcome, Port, ServeWork};
use ledger_files::with_bureau;
use sqlite::{FileFrom, Start};
use std::io;

/// Serves this number of connections from the bureau's file at a path, on a port of 127.0.0.1, one
/// after the other, with one request each. The port is bound before the file is opened, which takes
/// seconds for a large one: so customers wait, and are not refused. Where both fail, the file's
/// fault is told.
pub fn serve<S: Start>(
    rt: &HostRuntime,
    path: &str,
    start: S,
    port: u16,
    count: u32,
) -> Ended<FileFrom<S>>
    ensures { HasEndedFrom (image_at S.Start) result (result.work ≡ Outcome.Done)
        (TellsPort count result.work) }
{
    let mut work = ServeWork {
        clients: Port::bind(rt, port).ok(),
        count,
        outcome: Outcome::Done,
    };
    let file = with_bureau(rt, path, start, &mut work, &mut io::sink());
    Ended::new(work.outcome, file)
}
