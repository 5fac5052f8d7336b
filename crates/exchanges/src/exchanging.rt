//! One exchange.

ghost use Rattle.std.specs.Prelude.{◌≡◌, ◌⊎◌, IsTrue};
ghost use Rattle.ledger_tables.specs.Disks.{StaysClean};
ghost use Rattle.exchanges.specs.{
  Exchanges.{Ends, EndsBroken, MayEndWith, TicksForRead},
  Work.{TellsExchange},
};
ghost use Rattle.ledger.specs.Working.{HasWorked};
ghost use Rattle.http_messages.specs.declared.fixed.Fault.TheVariants as fault;

use crate::answering::answer_next;
use crate::exchange_ends::Exchange;
use http_messages::Routes;
use ledger::{Bureau, kept_offices_run_whole};
use machine::Meter;
use sqlite::Alter;
use std::alloc::Global;
use std::io::{Read, Write};
use texts::{Sent, send};

/// Reads one request, carries it out, and writes the answer.
///
/// No byte of the answer is written before the bureau has finished the command. If the writer
/// fails, what was carried out is kept. The meter rises by the number of instructions that a slice
/// attempted.
pub fn exchange<R: Read, W: Write, S: Alter>(
    alloc: Global,
    routes: &Routes,
    reader: &mut R,
    writer: &mut W,
    bureau: &mut Bureau<S>,
    meter: &mut Meter,
) -> Exchange
    ensures exchanged { Ends S.Store bureau.old.conn bureau.new.conn bureau.old.broken
        bureau.new.broken meter.old meter.new (R.remaining reader.old) (W.contents writer.old)
        (W.contents writer.new) result }
    ensures works { HasWorked S.Store bureau.old.conn bureau.new.conn bureau.new.broken
        (TellsExchange (R.remaining reader.old) (W.contents writer.old) (W.contents writer.new)
        result) }
    ensures ended { IsTrue bureau.old.broken → (bureau.new ≡ bureau.old) × (meter.new ≡ meter.old)
        × EndsBroken (R.remaining reader.old) (W.contents writer.old) (W.contents writer.new)
        result }
    ensures broken { (bureau.new.broken ≡ bureau.old.broken) ⊎ MayEndWith fault.Store result }
    ensures meter { TicksForRead (R.remaining reader.old) meter.old meter.new }
    ensures clean { StaysClean S.Store bureau.old.conn bureau.new.conn }
{
    // A law, for the proof: it does nothing.
    kept_offices_run_whole();
    let Some(message) = answer_next(alloc, routes, reader, bureau, meter) else {
        return Exchange::ReadFailed;
    };
    let bytes = message.bytes.as_slice();
    match send(writer, bytes) {
        Sent::Whole => Exchange::Answered {
            status: message.status,
            sent: bytes.len(),
        },
        Sent::Failed(sent) => Exchange::WriteFailed { sent },
    }
}
