//! The headline, applied to two rounds of the code.

ghost use Rattle.std.specs.Prelude.{IfOk};
ghost use Rattle.sqlite.specs.{Recovery.{Image}, WalFiles.{image_at}};
ghost use Rattle.office.specs.Office.{Office};
ghost use Rattle.ledger_files.specs.{Opening.{AreOf}, Rounds.{MayLeaveClosed}};
ghost use Rattle.bureau_laws.specs.TwoRounds.{AreOneHistory};

use crate::headline::one_history;
use ledger::Work;
use ledger_files::{Closed, Unfinished, with_bureau};
use sqlite::{FileFrom, Start};
use std::io::Write;

/// Two works, one after the other, with the bureau whose file is at a path. If the files of the
/// second round are any that a stop may have left after the first, and the first files represent an
/// office, then the commands and replies of both are one history from that office on.
///
/// Nothing calls this: it is here so that the prover, and not a reader, joins the contract of
/// [`with_bureau`] to the theorem.
pub fn two_rounds<S: Start, T: Start, V: Work, W: Work, O: Write>(
    rt: &HostRuntime,
    path: &str,
    starts: (S, T),
    first: &mut V,
    second: &mut W,
    first_output: &mut O,
    second_output: &mut O,
) -> (
    Result<Closed<FileFrom<S>>, Unfinished<FileFrom<S>>>,
    Result<Closed<FileFrom<T>>, Unfinished<FileFrom<T>>>,
)
    ensures { IfOk result.0 (λ one. IfOk result.1 (λ two. (office : Office)
        → AreOf (image_at S.Start) office → MayLeaveClosed one (image_at T.Start)
        → (last : Image) → MayLeaveClosed two last
        → AreOneHistory office (image_at T.Start) last
        (V.tells first.old first.new (O.contents first_output.old) (O.contents first_output.new))
        (W.tells second.old second.new (O.contents second_output.old)
        (O.contents second_output.new)))) }
{
    // A law, for the proof: it does nothing.
    one_history();
    let one = with_bureau(rt, path, starts.0, first, first_output);
    let two = with_bureau(rt, path, starts.1, second, second_output);
    (one, two)
}
