//! Applying the commands of a script, one after the other.

ghost use Rattle.std.specs.Prelude.{◌≡◌, ◌⊎◌, ◌||◌, IsTrue, length};
ghost use Rattle.exchanges.specs.{
  Ending.{StopsAtFirst},
  Running.{IsCount, RunLeaves, RunStands, RunTicks, Runs},
};
ghost use Rattle.ledger_tables.specs.{
  Disks.{StaysClean},
  declared.faults.Fault.TheVariants.{Store},
};

use crate::script_ends::{ScriptEnd, Scripted};
use crate::steps::{Step, carry_out};
use ledger::{Bureau, kept_offices_run_whole};
use machine::Meter;
use office::Command;
use sqlite::Alter;
use std::io::Write;

/// Whether a command has been refused: one before, or the one that was just carried out.
fn any_refused(before: bool, now: bool) -> bool
    ensures { result ≡ (before || now) }
{
    before || now
}

/// Applies the commands in order and writes the line of each, up to the first that met a fault or
/// whose line could not be written.
pub(crate) fn apply_all<S: Alter, W: Write>(
    writer: &mut W,
    bureau: &mut Bureau<S>,
    commands: &[Command],
    meter: &mut Meter,
) -> Scripted
    ensures count { IsCount result.ended result.acknowledged (length commands.now) }
    ensures runs { Runs S.Store bureau.old.conn bureau.new.conn commands.now result
        (W.contents writer.old) (W.contents writer.new) }
    ensures stands { RunStands S.Store bureau.old.conn bureau.new.conn commands.now result }
    ensures crash { RunLeaves S.Store bureau.old.conn bureau.new.conn commands.now result }
    ensures meter { RunTicks S.Store bureau.old.conn bureau.new.conn commands.now result
        meter.old meter.new }
    ensures broken { result.ended ≡ ScriptEnd.Fault Store → IsTrue bureau.new.broken }
    ensures kept { (bureau.new.broken ≡ bureau.old.broken)
        ⊎ (result.ended ≡ ScriptEnd.Fault Store) }
    ensures ended { IsTrue bureau.old.broken → (bureau.new ≡ bureau.old) × (meter.new ≡ meter.old)
        × StopsAtFirst commands.now result (W.contents writer.old) (W.contents writer.new) }
    ensures clean { StaysClean S.Store bureau.old.conn bureau.new.conn }
{
    // A law, for the proof: it does nothing.
    kept_offices_run_whole();
    let mut sent = 0usize;
    let mut acknowledged = 0usize;
    let mut refused = false;
    for command in commands {
        match carry_out(writer, &mut sent, bureau, command, meter) {
            Step::Replied(now) => {
                acknowledged += 1;
                refused = any_refused(refused, now);
            }
            Step::Unwritten(now) => {
                return Scripted {
                    acknowledged: acknowledged + 1,
                    sent,
                    refused: any_refused(refused, now),
                    ended: ScriptEnd::WriteFailed,
                };
            }
            Step::Faulted(fault) => {
                return Scripted {
                    acknowledged,
                    sent,
                    refused,
                    ended: ScriptEnd::Fault(fault),
                };
            }
        }
    }
    Scripted {
        acknowledged,
        sent,
        refused,
        ended: ScriptEnd::Whole,
    }
}
