//! Writing to files what a job of the bureau in a file has punched and printed.

ghost use Rattle.std.specs.Prelude.{◌≡◌};
ghost use Rattle.sqlite.specs.WalFiles.{image_at};
ghost use Rattle.bureau_work.specs.Work.{TellsExport};
ghost use Rattle.bureau.specs.Work.{HasEndedFrom};

use crate::ended::Ended;
use bureau_work::{ExportWork, Outcome};
use ledger_files::with_bureau;
use sqlite::{FileFrom, Start};
use std::io;

/// Writes what a job has punched and printed to files in the folder where the program runs:
/// `CUSTOMER-NUMBER.cards` has all its cards, `.cards0`, `.cards4` and `.cards8` those of each
/// pocket, and `.lines` its lines. Files of these names are replaced, each whole or not at all; if
/// the job is refused, none is touched.
pub fn export<S: Start>(
    rt: &HostRuntime,
    path: &str,
    start: S,
    customer: &str,
    number: u32,
) -> Ended<FileFrom<S>>
    ensures { HasEndedFrom (image_at S.Start) result (result.work ≡ Outcome.Done)
        (TellsExport customer.now number) }
{
    let mut work = ExportWork {
        customer,
        number,
        outcome: Outcome::Done,
    };
    let file = with_bureau(rt, path, start, &mut work, &mut io::sink());
    Ended::new(work.outcome, file)
}
