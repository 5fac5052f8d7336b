//! Running a script, from its first byte.

ghost use Rattle.std.specs.Prelude.{◌≡◌, ◌⊎◌, IsTrue};
ghost use Rattle.ledger.specs.Working.{HasWorked};
ghost use Rattle.exchanges.specs.{
  Ending.{Ends, GivesUp, HasNoReply, IsEndOfBroken, TurnsDown},
  Work.{TellsScript},
};
ghost use Rattle.ledger_tables.specs.{
  Disks.{StaysClean},
  declared.faults.Fault.TheVariants.{Store},
};

use crate::applying::apply_all;
use crate::script_ends::{ScriptEnd, Scripted};
use crate::steps::report;
use ledger::{Bureau, Fault, kept_offices_run_whole};
use machine::Meter;
use scripts::{ReadFault, ScriptFault, parse, read_script, write_bad};
use sqlite::Alter;
use std::alloc::Global;
use std::io::{Read, Write};

/// Ends a script for which there is no memory.
fn give_up<W: Write>(writer: &mut W) -> Scripted
    ensures end { GivesUp result (W.contents writer.old) (W.contents writer.new) }
    ensures none { HasNoReply result }
{
    let mut sent = 0usize;
    report(writer, &mut sent, Fault::NoMemory);
    Scripted {
        acknowledged: 0,
        sent,
        refused: false,
        ended: ScriptEnd::Fault(Fault::NoMemory),
    }
}

/// Ends the run of bytes that are not a script.
fn turn_down<W: Write>(writer: &mut W, fault: ScriptFault) -> Scripted
    ensures end { TurnsDown fault result (W.contents writer.old) (W.contents writer.new) }
    ensures none { HasNoReply result }
{
    let mut sent = 0usize;
    match write_bad(writer, &mut sent, fault) {
        Ok(()) => Scripted {
            acknowledged: 0,
            sent,
            refused: false,
            ended: ScriptEnd::Bad,
        },
        Err(_) => Scripted {
            acknowledged: 0,
            sent,
            refused: false,
            ended: ScriptEnd::WriteFailed,
        },
    }
}

/// Reads a script to its end, and then applies its commands in order; the line of each reply is
/// written before the next command is applied. The first fault ends it with a line. For bytes that
/// are not a script a line with the reason is written, and no command is applied.
pub fn script<R: Read, W: Write, S: Alter>(
    alloc: Global,
    reader: &mut R,
    writer: &mut W,
    bureau: &mut Bureau<S>,
    meter: &mut Meter,
) -> Scripted
    ensures end { Ends S.Store bureau.old.conn bureau.new.conn meter.old meter.new result
        (R.remaining reader.old) (W.contents writer.old) (W.contents writer.new) }
    ensures works { HasWorked S.Store bureau.old.conn bureau.new.conn bureau.new.broken
        (TellsScript (R.remaining reader.old) (W.contents writer.old) (W.contents writer.new)
        result) }
    ensures ended { IsTrue bureau.old.broken → (bureau.new ≡ bureau.old) × (meter.new ≡ meter.old)
        × IsEndOfBroken result (R.remaining reader.old) (W.contents writer.old)
        (W.contents writer.new) }
    ensures broken { result.ended ≡ ScriptEnd.Fault Store → IsTrue bureau.new.broken }
    ensures kept { (bureau.new.broken ≡ bureau.old.broken)
        ⊎ (result.ended ≡ ScriptEnd.Fault Store) }
    ensures clean { StaysClean S.Store bureau.old.conn bureau.new.conn }
{
    // A law, for the proof: it does nothing.
    kept_offices_run_whole();
    let bytes = match read_script(alloc, reader) {
        Ok(bytes) => bytes,
        Err(ReadFault::NoMemory) => return give_up(writer),
        Err(ReadFault::ReadFailed) => {
            return Scripted {
                acknowledged: 0,
                sent: 0,
                refused: false,
                ended: ScriptEnd::ReadFailed,
            };
        }
    };
    match parse(alloc, &bytes) {
        Ok(commands) => apply_all(writer, bureau, &commands, meter),
        Err(ScriptFault::NoMemory) => give_up(writer),
        Err(ScriptFault::TooLong) => turn_down(writer, ScriptFault::TooLong),
        Err(ScriptFault::BadLine(number)) => turn_down(writer, ScriptFault::BadLine(number)),
    }
}
