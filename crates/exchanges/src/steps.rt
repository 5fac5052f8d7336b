//! One command of a script: it is applied, and then its line is written.

ghost use Rattle.std.specs.Prelude.{◌≡◌, ◌⊎◌, IsTrue};
ghost use Rattle.office.specs.Office.{attempted, take};
ghost use Rattle.ledger.specs.Replying.{LeavesEither};
ghost use Rattle.exchanges.specs.Steps.{IsStep, SendsSome, TicksTo, is_refusal};
ghost use Rattle.scripts.specs.Replies.{fault_line};
ghost use Rattle.ledger_tables.specs.{Disks.{StaysClean}, Faults.{fault_number}};

use ledger::{Bureau, Fault};
use machine::Meter;
use office::{Command, Reply};
use scripts::{write_fault, write_reply};
use sqlite::Alter;
use std::io::Write;

/// The result of a command.
#[derive(Clone, Copy)]
pub(crate) enum Step {
    /// The bureau replied, and the line was written. The value is whether it was a refusal.
    Replied(bool),
    /// The bureau replied, and the line was not written whole. The value is whether it was a
    /// refusal.
    Unwritten(bool),
    /// The command met a fault.
    Faulted(Fault),
}

/// Whether a reply is a refusal.
fn is_refusal(reply: &Reply) -> bool
    ensures { result ≡ is_refusal reply.now }
{
    matches!(reply, Reply::Refused(_))
}

/// Writes the line of a fault. If the writer fails, a beginning of the line has been written.
pub(crate) fn report<W: Write>(writer: &mut W, sent: &mut usize, fault: Fault)
    ensures { SendsSome (fault_line (fault_number fault)) (W.contents writer.old)
        (W.contents writer.new) sent.old sent.new }
{
    let _ = write_fault(writer, sent, fault.number());
}

/// Applies a command, and writes the line of its reply or of its fault.
pub(crate) fn carry_out<S: Alter, W: Write>(
    writer: &mut W,
    sent: &mut usize,
    bureau: &mut Bureau<S>,
    command: &Command,
    meter: &mut Meter,
) -> Step
    ensures step { IsStep S.Store bureau.old.conn bureau.new.conn result (take command.now)
        (W.contents writer.old) (W.contents writer.new) sent.old sent.new }
    ensures crash { LeavesEither S.Store bureau.old.conn bureau.new.conn (take command.now) }
    ensures meter { TicksTo S.Store bureau.old.conn bureau.new.conn result
        (attempted command.now) meter.old meter.new }
    ensures broken { result ≡ Step.Faulted Fault.Store → IsTrue bureau.new.broken }
    ensures kept { (bureau.new.broken ≡ bureau.old.broken) ⊎ (result ≡ Step.Faulted Fault.Store) }
    ensures ended { IsTrue bureau.old.broken → (result ≡ Step.Faulted Fault.Store)
        × (bureau.new ≡ bureau.old) × (meter.new ≡ meter.old) }
    ensures clean { StaysClean S.Store bureau.old.conn bureau.new.conn }
{
    match bureau.apply(command, meter) {
        Ok(reply) => {
            let refused = is_refusal(&reply);
            match write_reply(writer, sent, &reply) {
                Ok(()) => Step::Replied(refused),
                Err(_) => Step::Unwritten(refused),
            }
        }
        Err(fault) => {
            report(writer, sent, fault);
            Step::Faulted(fault)
        }
    }
}
