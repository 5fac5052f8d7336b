//! Commands on a job.

ghost use Rattle.std.specs.Prelude.{◌≡◌, true, Some, OnOk, OnErr};
ghost use Rattle.machine.specs.Run.{risen};
ghost use Rattle.office.specs.{
  Jobs.{Job as KnownJob},
  Kept.{attempted_on, drive_command, is_query, limit_of},
  Meters.{RisenAtMost},
};
ghost use Rattle.ledger_tables.specs.Steps.{IsStep, IsOpenStep};
ghost use Rattle.ledger.specs.{
  Earlier.{kept_alone},
  Saving.{job_in, IsEarlier},
  Serving.{with_commanded, attempted_as},
  Steps.{FindsNoJob, FailsAlone, Serves, ServesWhere, Ticks, TicksAtMost},
};

use crate::by_summary::command_flags;
use crate::earlier_machine::EarlierMachine;
use crate::outputs::{tell_cards, tell_lines};
use crate::reading::find_to_run;
use crate::saving::save;
use core_store::PlaneCore;
use ledger_tables::{Fault, OpenTables};
use machine::{Meter, runs_only_add};
use office::{
    Drive, FlagCommand, Job, JobCommand, Refusal, Reply, commands_act_on_pictures,
    commands_keep_jobs,
};
use sqlite::Alter;
use texts::JobName;

/// Carries out a slice or a start on a job that was found without its cards and lines, and whose
/// machine has what the earlier one has, and saves the result.
fn take_and_save<S: Alter>(
    tables: &mut OpenTables<'_, '_, S>,
    name: JobName<'_>,
    earlier: &EarlierMachine,
    job: &mut Job<PlaneCore>,
    drive: Drive,
    meter: &mut Meter,
) -> Result<Reply, Fault>
    requires { IsEarlier earlier.now job.old.machine }
    ensures step { IsStep S.Store tables.old tables.new result }
    ensures done { (old : KnownJob) → job.old ≡ kept_alone old
        → ServesWhere S.Store tables.old tables.new result
        (λ office. job_in name.entry office ≡ Some old)
        (with_commanded name.entry (drive_command drive)) }
    ensures meter { OnOk result
        (meter.new ≡ risen meter.old (attempted_on (drive_command drive) job.old)) }
    ensures given_up { OnErr result
        (RisenAtMost (attempted_on (drive_command drive) job.old) meter.old meter.new) }
    ensures most { RisenAtMost (limit_of (drive_command drive)) meter.old meter.new }
{
    // Laws, for the proof: they do nothing.
    commands_act_on_pictures();
    commands_keep_jobs();
    runs_only_add();
    match job.drive(drive, meter)? {
        Reply::Refused(reason) => Ok(Reply::Refused(reason)),
        reply => {
            save(tables, name, drive, earlier, job)?;
            Ok(reply)
        }
    }
}

/// Carries out a slice or a start on a job that was found without its cards and lines, and saves
/// the result.
fn carry_out<S: Alter>(
    tables: &mut OpenTables<'_, '_, S>,
    name: JobName<'_>,
    job: &mut Job<PlaneCore>,
    drive: Drive,
    meter: &mut Meter,
) -> Result<Reply, Fault>
    ensures step { IsStep S.Store tables.old tables.new result }
    ensures done { (old : KnownJob) → job.old ≡ kept_alone old
        → ServesWhere S.Store tables.old tables.new result
        (λ office. job_in name.entry office ≡ Some old)
        (with_commanded name.entry (drive_command drive)) }
    ensures meter { OnOk result
        (meter.new ≡ risen meter.old (attempted_on (drive_command drive) job.old)) }
    ensures given_up { OnErr result
        (RisenAtMost (attempted_on (drive_command drive) job.old) meter.old meter.new) }
    ensures most { RisenAtMost (limit_of (drive_command drive)) meter.old meter.new }
{
    let parts = job.parts();
    let earlier = EarlierMachine::of(tables.alloc, parts.machine)?;
    take_and_save(tables, name, &earlier, job, drive, meter)
}

/// Carries out a slice or a start on the job of this name.
#[tactic(auto, using(crate::proofs::EarlierLemmas::same_attempts))]
fn drive_machine<S: Alter>(
    tables: &mut OpenTables<'_, '_, S>,
    name: JobName<'_>,
    drive: Drive,
    meter: &mut Meter,
) -> Result<Reply, Fault>
    ensures step { IsOpenStep S.Store tables.old tables.new result }
    ensures done { Serves S.Store tables.old tables.new result
        (with_commanded name.entry (drive_command drive)) }
    ensures no_job { FindsNoJob S.Store tables.old tables.new result name.entry }
    ensures meter { Ticks S.Store tables.old tables.new result
        meter.old meter.new (attempted_as name.entry (drive_command drive)) }
    ensures given_up { TicksAtMost S.Store tables.old tables.new result
        meter.old meter.new (attempted_as name.entry (drive_command drive)) }
    ensures most { RisenAtMost (limit_of (drive_command drive)) meter.old meter.new }
{
    match find_to_run(tables, name)? {
        Some(mut job) => carry_out(tables, name, &mut job, drive, meter),
        None => Ok(Reply::Refused(Refusal::NoJob)),
    }
}

/// Carries out a command on the job of this name. Returns the reply, or fault 1 or 2.
pub fn command_job<S: Alter>(
    tables: &mut OpenTables<'_, '_, S>,
    name: JobName<'_>,
    command: JobCommand,
    meter: &mut Meter,
) -> Result<Reply, Fault>
    ensures step { IsOpenStep S.Store tables.old tables.new result }
    ensures done { Serves S.Store tables.old tables.new result
        (with_commanded name.entry command) }
    ensures no_job { FindsNoJob S.Store tables.old tables.new result name.entry }
    ensures meter { Ticks S.Store tables.old tables.new result
        meter.old meter.new (attempted_as name.entry command) }
    ensures given_up { TicksAtMost S.Store tables.old tables.new result
        meter.old meter.new (attempted_as name.entry command) }
    ensures most { RisenAtMost (limit_of command) meter.old meter.new }
    ensures failed { is_query command ≡ true
        → FailsAlone S.Store tables.old tables.new result }
{
    match command {
        JobCommand::Hold => command_flags(tables, name, FlagCommand::Hold),
        JobCommand::Release => command_flags(tables, name, FlagCommand::Release),
        JobCommand::Collect => command_flags(tables, name, FlagCommand::Collect),
        JobCommand::Standing => command_flags(tables, name, FlagCommand::Standing),
        JobCommand::Cards { from } => tell_cards(tables, name, from),
        JobCommand::Lines => tell_lines(tables, name),
        JobCommand::Slice { limit } => drive_machine(tables, name, Drive::Slice { limit }, meter),
        JobCommand::Start { switches } => {
            drive_machine(tables, name, Drive::Start { switches }, meter)
        }
    }
}
