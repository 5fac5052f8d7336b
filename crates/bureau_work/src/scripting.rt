//! Carrying out a script.

ghost use Rattle.std.specs.Prelude.{◌≡◌};
ghost use Rattle.ledger_tables.specs.Disks.{StaysClean};
ghost use Rattle.ledger.specs.Working.{HasWorked};
ghost use Rattle.bureau_work.specs.Work.{TellsApply, outcome_of};

use crate::outcomes::Outcome;
use counter::{ScriptEnd, Scripted, script};
use ledger::{Bureau, Fault, Work, kept_offices_run_whole};
use machine::Meter;
use sqlite::Alter;
use std::fs::File;
use std::io::Write;

/// The outcome after a script. The line of a fault is already on the output.
fn outcome_of(scripted: &Scripted) -> Outcome
    ensures { result ≡ outcome_of scripted.now }
{
    match scripted.ended {
        ScriptEnd::Whole if scripted.refused => Outcome::Shown,
        ScriptEnd::Whole => Outcome::Done,
        ScriptEnd::Bad | ScriptEnd::Fault(Fault::NoMemory) => Outcome::Shown,
        ScriptEnd::Fault(Fault::Store) => Outcome::Stopped(scripted.acknowledged),
        ScriptEnd::ReadFailed | ScriptEnd::WriteFailed => Outcome::Device,
    }
}

/// Carries out the commands of the script at a path, in order, by a bureau over any store.
fn run_script<S: Alter, O: Write>(
    rt: &HostRuntime,
    script_path: &str,
    bureau: &mut Bureau<S>,
    output: &mut O,
) -> Outcome
    ensures works { HasWorked S.Store bureau.old.conn bureau.new.conn bureau.new.broken
        (TellsApply (O.contents output.old) (O.contents output.new) result) }
    ensures clean { StaysClean S.Store bureau.old.conn bureau.new.conn }
{
    // A law, for the proof: it does nothing.
    kept_offices_run_whole();
    let Ok(mut file) = File::open(rt, script_path) else {
        return Outcome::Device;
    };
    let mut meter = Meter::new();
    let scripted = script(rt.alloc(), &mut file, output, bureau, &mut meter);
    match output.flush() {
        Ok(()) => outcome_of(&scripted),
        Err(_) => Outcome::Device,
    }
}

/// The work of carrying out the commands of the script at a path.
#[derive(Drop)]
pub struct ApplyWork<'a> {
    /// The path of the script.
    pub script_path: &'a str,
    /// How the work ended.
    pub outcome: Outcome,
}

impl Work for ApplyWork<'_> {
    ghost tells = { λ before after old new done replies.
        TellsApply old new after.outcome done replies };

    fn carry_out<S: Alter, O: Write>(
        &mut self,
        rt: &HostRuntime,
        bureau: &mut Bureau<S>,
        output: &mut O,
    ) {
        self.outcome = run_script(rt, self.script_path, bureau, output);
    }
}
