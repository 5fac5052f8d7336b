//! The check of all tables.

ghost use Rattle.std.specs.Prelude.{◌≡◌, ◌++◌, ◌∷◌, ◌↔◌, [], Result, IfErr, IfOk, IsOkAnd};
ghost use Rattle.ledger_tables.specs.Schema.{bureau_schema};
ghost use Rattle.job_checks.specs.{
  Checks.{FindsAlone, HasReported},
  Kept.{version_row},
  Tables.{LeavesNoMore},
};

use crate::reports::{JobReport, Report};
use crate::runs::JobRun;
use crate::schemas::{SchemaDifference, compare_schema};
use crate::walks::{EachJob, Walked, each_job};
use ledger_tables::Fault;
use sqlite::{Alter, Connection};
use sqlite_schema::schema::Schema;
use std::alloc::{AllocError, Global};

/// What is told of the jobs that were taken.
#[derive(Drop)]
struct Reports {
    alloc: Global,
    reports: Vec<JobReport>,
}

/// What is told of a job, or of one that differs.
fn report_of(alloc: Global, found: Result<JobRun, JobReport>) -> Result<JobReport, AllocError>
    ensures { IfOk result (HasReported found) }
{
    match found {
        Ok(run) => run.report(alloc),
        Err(report) => Ok(report),
    }
}

impl EachJob for Reports {
    ghost use Rattle.std.specs.Prelude.{◌≡◌, ◌++◌, ◌∷◌, []};
    ghost use Rattle.job_checks.specs.Checks.{HasReported};
    ghost use Rattle.job_checks.specs.declared.reports.JobReport.{JobReport};

    ghost takes = { λ old new found. (report : JobReport) × HasReported found report
        × (new.reports.items ≡ old.reports.items ++ report ∷ []) };

    fn take(&mut self, found: Result<JobRun, JobReport>) -> Result<(), Fault> {
        let report = report_of(self.alloc, found)?;
        self.reports.try_reserve(1)?;
        self.reports.push_reserved(report);
        Ok(())
    }
}

/// What is told of a file whose jobs these reports tell of, unless a fault hindered the walk or the
/// look at the schema.
fn report_walked(
    alloc: Global,
    walked: Result<Walked, Fault>,
    schema: Result<Option<SchemaDifference>, Fault>,
    jobs: Vec<JobReport>,
) -> Result<Report, Fault>
    ensures orphans { IfOk result (λ report. IsOkAnd walked (λ it. (report.orphans.items ≡ [])
        ↔ (it.version.items ≡ version_row))) }
    ensures schema { IfOk result (λ report. IsOkAnd schema (λ it. report.schema ≡ it)) }
    ensures jobs { IfOk result (λ report. report.jobs.items ≡ jobs.items) }
{
    let walked = walked?;
    let schema = schema?;
    let orphans = walked.orphans(alloc)?;
    Ok(Report {
        schema,
        jobs,
        orphans,
    })
}

/// Compares a file's schema with a bureau's, runs each job again, and compares the rows of all
/// tables with what it makes, those of one job at a time. Nothing is written, and the store is
/// handed back. No difference is told exactly where the file holds an office whose jobs have names
/// that jobs may have, and then the report tells of each of its jobs. Fails with 1 if there is no
/// memory, and with 2 if the store fails, or cannot be read since its schema is not a bureau's.
pub fn check<S: Alter + Drop>(
    alloc: Global,
    conn: Connection<S>,
    own: &Schema,
) -> (Result<Report, Fault>, S)
    requires { own.now ≡ bureau_schema }
    ensures exact { FindsAlone S.Store conn result.1 result.0 }
    ensures left { LeavesNoMore S.Store conn result.1 }
{
    let schema = compare_schema(alloc, conn.schema(), own);
    let mut reports = Reports {
        alloc,
        reports: Vec::new(alloc),
    };
    let (walked, store) = each_job(alloc, conn, &mut reports);
    let Reports { reports, .. } = reports;
    (report_walked(alloc, walked, schema, reports), store)
}
