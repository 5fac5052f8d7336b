//! The summary of a job, read without its machine: its standing, its flags, and how much it was
//! granted and has made.

ghost use Rattle.std.specs.Prelude.{◌≡◌, ◌≢◌, []};
ghost use Rattle.office.specs.Jobs.{Job as KnownJob};
ghost use Rattle.ledger_tables.specs.{Named.{of_job}, Steps.{Finds, IsOpenStep}};
ghost use Rattle.ledger.specs.{
  Found.{HasProgress, HasStanding, HasGranted, HasSummary},
  Saving.{job_in},
  Standing.{job_cells},
  Steps.{FindsIn, FailsWith},
};

use crate::reading::{find_stretches, stored};
use ledger_rows::{Progress, read_progress, read_truth};
use ledger_tables::{Fault, JobRow, OpenTables};
use machine::StandingAt;
use office::{Summary, commands_keep_jobs, granted_in};
use sqlite::Alter;
use texts::JobName;

/// Finds the progress of the job of this name.
pub fn find_progress<S: Alter>(
    tables: &mut OpenTables<'_, '_, S>,
    name: JobName<'_>,
) -> Result<Progress, Fault>
    ensures step { IsOpenStep S.Store tables.old tables.new result }
    ensures found { FindsIn S.Store tables.old tables.new result
        (λ office found. HasProgress (job_in name.entry office) found) }
    ensures failed { (job : KnownJob)
        → FailsWith S.Store tables.old tables.new result name.entry job }
{
    // A law, for the proof: it does nothing.
    commands_keep_jobs();
    let found = tables.find_progress(name)?;
    let row = stored(found)?;
    stored(read_progress(&row))
}

/// Finds the standing of the job of this name.
pub fn find_standing<S: Alter>(
    tables: &mut OpenTables<'_, '_, S>,
    name: JobName<'_>,
) -> Result<StandingAt, Fault>
    ensures step { IsOpenStep S.Store tables.old tables.new result }
    ensures found { FindsIn S.Store tables.old tables.new result
        (λ office found. HasStanding (job_in name.entry office) found) }
    ensures failed { (job : KnownJob)
        → FailsWith S.Store tables.old tables.new result name.entry job }
{
    let progress = find_progress(tables, name)?;
    Ok(StandingAt::new(progress.standing, progress.i))
}

/// Finds the number of instructions granted to the job of this name.
fn find_granted<S: Alter>(
    tables: &mut OpenTables<'_, '_, S>,
    name: JobName<'_>,
) -> Result<u32, Fault>
    ensures step { IsOpenStep S.Store tables.old tables.new result }
    ensures found { FindsIn S.Store tables.old tables.new result
        (λ office found. HasGranted (job_in name.entry office) found) }
    ensures some { Finds S.Store tables.old tables.new result
        (λ t found. of_job name.entry t.stretches ≢ []) }
    ensures failed { (job : KnownJob)
        → FailsWith S.Store tables.old tables.new result name.entry job }
{
    let stretches = find_stretches(tables, name)?;
    if stretches.is_empty() {
        return Err(Fault::Store);
    }
    Ok(granted_in(&stretches))
}

/// Finds the summary of the job of this row.
pub fn find_summary<S: Alter>(
    tables: &mut OpenTables<'_, '_, S>,
    name: JobName<'_>,
    row: &JobRow,
) -> Result<Summary, Fault>
    ensures step { IsOpenStep S.Store tables.old tables.new result }
    ensures found { FindsIn S.Store tables.old tables.new result
        (λ office found. HasSummary (job_in name.entry office) row.now found) }
    ensures failed { (job : KnownJob) → row.now ≡ job_cells job
        → FailsWith S.Store tables.old tables.new result name.entry job }
{
    let (Some(held), Some(collected)) = (read_truth(row.held), read_truth(row.collected)) else {
        return Err(Fault::Store);
    };
    let granted = find_granted(tables, name)?;
    let progress = find_progress(tables, name)?;
    Ok(Summary {
        standing: StandingAt::new(progress.standing, progress.i),
        held,
        collected,
        granted,
        cards: progress.cards,
        lines: progress.lines,
    })
}
