//! Commands on a job that need its summary, and not its machine.

ghost use Rattle.std.specs.Prelude.{◌≡◌, true};
ghost use Rattle.office.specs.Kept.{flag_command, is_query};
ghost use Rattle.ledger_tables.specs.Steps.{IsOpenStep};
ghost use Rattle.ledger.specs.{
  Allowed.{IsAllowed},
  Serving.{with_commanded},
  Steps.{FindsIn, FindsNoJob, FailsAlone, Serves},
};

use crate::saving::note_flags;
use crate::summaries::find_summary;
use ledger_tables::{Fault, OpenTables};
use office::{FlagCommand, JobCommand, Refusal, Reply, Summary};
use sqlite::Alter;
use texts::JobName;

/// Finds the summary of the job of this name, or why the command on the job is refused.
fn find_allowed<S: Alter>(
    tables: &mut OpenTables<'_, '_, S>,
    name: JobName<'_>,
    command: JobCommand,
) -> Result<Result<Summary, Refusal>, Fault>
    ensures step { IsOpenStep S.Store tables.old tables.new result }
    ensures found { FindsIn S.Store tables.old tables.new result
        (λ office found. IsAllowed name.entry command office found) }
    ensures failed { FailsAlone S.Store tables.old tables.new result }
{
    match tables.find_job(name)? {
        Some(row) => {
            let job = find_summary(tables, name, &row)?;
            match command.refusal(&job) {
                Some(reason) => Ok(Err(reason)),
                None => Ok(Ok(job)),
            }
        }
        None => Ok(Err(Refusal::NoJob)),
    }
}

/// Carries out a command that needs no more than the summary of the job of this name. A query
/// writes nothing.
pub fn command_flags<S: Alter>(
    tables: &mut OpenTables<'_, '_, S>,
    name: JobName<'_>,
    command: FlagCommand,
) -> Result<Reply, Fault>
    ensures step { IsOpenStep S.Store tables.old tables.new result }
    ensures done { Serves S.Store tables.old tables.new result
        (with_commanded name.entry (flag_command command)) }
    ensures no_job { FindsNoJob S.Store tables.old tables.new result name.entry }
    ensures failed { is_query (flag_command command) ≡ true
        → FailsAlone S.Store tables.old tables.new result }
{
    let asked = command.command();
    match find_allowed(tables, name, asked)? {
        Ok(job) => {
            let new = command.on_flags(&job);
            if asked.is_query() {
                return Ok(new.reply);
            }
            note_flags(tables, name, new.held, new.collected)?;
            Ok(new.reply)
        }
        Err(reason) => Ok(Reply::Refused(reason)),
    }
}
