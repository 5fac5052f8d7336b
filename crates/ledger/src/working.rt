//! Work with an open bureau.

ghost use Rattle.std.specs.Prelude.{ℕ, List, Option};
ghost use Rattle.ledger_tables.specs.Disks.{StaysClean};
ghost use Rattle.office.specs.{declared.commands.Command.{Command}, declared.replies.Reply.{Reply}};
ghost use Rattle.ledger.specs.Working.{HasWorked};

use crate::bureau::Bureau;
use sqlite::Alter;
use std::io::Write;

/// Work with an open bureau, whatever its store is. It keeps its own outcome, and may write to an
/// output while it goes on.
// The proof of a function that names a store in files takes many times as long as that of one over
// any store. So the crates above name none.
pub trait Work {
    // What the work before and after it, and the bytes of the output before and after it, tell of
    // the commands that were carried out, and of the replies to them.
    ghost tells: { Self → Self → Option (List ℕ) → Option (List ℕ) → List Command → List Reply
        → Type 0 };

    /// Does the work.
    fn carry_out<S: Alter, O: Write>(
        &mut self,
        rt: &HostRuntime,
        bureau: &mut Bureau<S>,
        output: &mut O,
    )
        ensures works { HasWorked S.Store bureau.old.conn bureau.new.conn bureau.new.broken
            (tells self.old self.new (O.contents output.old) (O.contents output.new)) }
        ensures clean { StaysClean S.Store bureau.old.conn bureau.new.conn };
}
