//! Applying a list of commands.

ghost use Rattle.std.specs.{
  Prelude.{◌≡◌, ◌<◌, ◌+◌, ◌⊎◌, Err, Some, None, IsTrue, OnOk, IsErrOf, length, vec_len},
  Vec.{vec_capacity},
};
ghost use Rattle.ledger_tables.specs.Disks.{StaysClean};
ghost use Rattle.office.specs.{Meters.{RisenAtMost}, Office.{take, attempted, limit_of}};
ghost use Rattle.ledger.specs.{
  Replying.{Replies, Rises, RisesAtMost, KeepsOffice, LeavesEither},
  Shifting.{Acknowledges, StandsAfter, LeavesBeginning, TicksWithin, given, limit_of_all},
};

use crate::bureau::Bureau;
use crate::laws::kept_offices_run_whole;
use crate::outcomes::Shift;
use ledger_tables::Fault;
use machine::Meter;
use office::{Command, Reply};
use sqlite::Alter;
use std::alloc::Global;

/// Applies a command, after making room for its reply.
fn apply_with_room<S: Alter>(
    bureau: &mut Bureau<S>,
    command: &Command,
    meter: &mut Meter,
    replies: &mut Vec<Reply>,
) -> Result<Reply, Fault>
    ensures reply { Replies S.Store bureau.old.conn bureau.new.conn result (take command.now) }
    ensures meter { Rises S.Store bureau.old.conn bureau.new.conn result
        meter.old meter.new (attempted command.now) }
    ensures given_up { RisesAtMost S.Store bureau.old.conn bureau.new.conn result
        meter.old meter.new (attempted command.now) }
    ensures most { RisenAtMost (limit_of command.now) meter.old meter.new }
    ensures no_memory { KeepsOffice S.Store bureau.old.conn bureau.new.conn result }
    ensures crash { LeavesEither S.Store bureau.old.conn bureau.new.conn (take command.now) }
    ensures broken { IsErrOf result Fault.Store → IsTrue bureau.new.broken }
    ensures kept { (bureau.new.broken ≡ bureau.old.broken) ⊎ IsErrOf result Fault.Store }
    ensures ended { IsTrue bureau.old.broken → (result ≡ Err Fault.Store)
        × (bureau.new ≡ bureau.old) × (meter.new ≡ meter.old) }
    ensures clean { StaysClean S.Store bureau.old.conn bureau.new.conn }
    ensures replies { replies.new.items ≡ replies.old.items }
    ensures room { OnOk result (vec_len replies.new < vec_capacity replies.new) }
{
    if bureau.broken() {
        return Err(Fault::Store);
    }
    if replies.try_reserve(1).is_err() {
        return Err(Fault::NoMemory);
    }
    bureau.apply(command, meter)
}

/// Applies the commands in order, up to the first fault. Room for each reply is made before its
/// command is applied; if there is no memory for it, the shift ends with fault 1 and the command is
/// not applied. After fault 2 the file has to be opened again.
pub fn shift<S: Alter>(
    alloc: Global,
    bureau: &mut Bureau<S>,
    commands: &[Command],
    meter: &mut Meter,
) -> Shift
    ensures replies { Acknowledges S.Store bureau.old.conn bureau.new.conn commands.now result }
    ensures stands { StandsAfter S.Store bureau.old.conn bureau.new.conn commands.now
        result.acknowledged result.fault }
    ensures left { LeavesBeginning S.Store bureau.old.conn bureau.new.conn commands.now
        result.acknowledged result.fault }
    ensures meter { TicksWithin S.Store bureau.old.conn bureau.new.conn commands.now
        result.acknowledged result.fault meter.old meter.new }
    ensures most { RisenAtMost
        (limit_of_all (given commands.now result.acknowledged result.fault)) meter.old meter.new }
    ensures count { length result.replies.items ≡ result.acknowledged }
    ensures all { result.fault ≡ None → result.acknowledged ≡ length commands.now }
    ensures faults { (fault : Fault) → result.fault ≡ Some fault
        → result.acknowledged < length commands.now }
    ensures broken { result.fault ≡ Some Fault.Store → IsTrue bureau.new.broken }
    ensures kept { (bureau.new.broken ≡ bureau.old.broken) ⊎ (result.fault ≡ Some Fault.Store) }
    ensures ended { IsTrue bureau.old.broken → (result.acknowledged ≡ 0)
        × (bureau.new ≡ bureau.old) × (meter.new ≡ meter.old)
        × (0 < length commands.now → result.fault ≡ Some Fault.Store) }
    ensures clean { StaysClean S.Store bureau.old.conn bureau.new.conn }
{
    // A law, for the proof: it does nothing.
    kept_offices_run_whole();
    let mut replies = Vec::new(alloc);
    for command in commands {
        match apply_with_room(bureau, command, meter, &mut replies) {
            Ok(reply) => replies.push_reserved(reply),
            Err(fault) => {
                return Shift {
                    acknowledged: replies.len(),
                    replies,
                    fault: Some(fault),
                };
            }
        }
    }
    Shift {
        acknowledged: replies.len(),
        replies,
        fault: None,
    }
}
