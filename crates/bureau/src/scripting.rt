//! Applying a script to the bureau in a file.

ghost use Rattle.std.specs.Prelude.{◌≡◌};
ghost use Rattle.sqlite.specs.WalFiles.{image_at};
ghost use Rattle.bureau_work.specs.Work.{TellsApply};
ghost use Rattle.bureau.specs.Work.{HasEndedFrom, HasNotApplied};

use crate::ended::Ended;
use bureau_work::{ApplyWork, Outcome};
use ledger_files::with_bureau;
use sqlite::{FileFrom, Start};
use std::io::Write;

/// Carries out the commands of the script at `script_path`, in order, by the bureau whose file is
/// at `path`. The line of each reply is written after its command is in the file.
pub fn apply<S: Start, W: Write>(
    rt: &HostRuntime,
    path: &str,
    start: S,
    script_path: &str,
    output: &mut W,
) -> Ended<FileFrom<S>>
    ensures { HasEndedFrom (image_at S.Start) result
        (HasNotApplied result.work (W.contents output.old) (W.contents output.new))
        (TellsApply (W.contents output.old) (W.contents output.new) result.work) }
{
    let mut work = ApplyWork {
        script_path,
        outcome: Outcome::Done,
    };
    let file = with_bureau(rt, path, start, &mut work, output);
    Ended::new(work.outcome, file)
}
