//! A walk through the jobs of a bureau's file, each run again.

ghost use Rattle.std.specs.Prelude.{⊤};

use crate::faults::found;
use file_copies::{Look, look_into};
use job_checks::{EachJob, JobReport, JobRun, Walked, each_job};
use ledger_tables::{Fault, OpenFault};
use sqlite::{Alter, Connection};
use std::alloc::Global;
use std::io;

/// What is done with each job.
pub(crate) trait OnJob {
    /// Begins, once the file is open.
    fn begin(&mut self) -> io::Result<()>;

    /// Takes a job that is as it ran, or what is told of one that differs.
    fn take_job(&mut self, found: Result<JobRun, JobReport>) -> io::Result<()>;
}

/// A walk through the jobs.
#[derive(Drop)]
struct JobWalk<'a, T: OnJob> {
    on_job: &'a mut T,
    /// What came of it.
    walked: Option<Result<Walked, OpenFault>>,
    /// Why it was ended, if it was not the bureau's store.
    failed: Option<io::Error>,
}

impl<T: OnJob> EachJob for JobWalk<'_, T> {
    ghost takes = { λ old new found. ⊤ };

    fn take(&mut self, found: Result<JobRun, JobReport>) -> Result<(), Fault> {
        match self.on_job.take_job(found) {
            Ok(()) => Ok(()),
            Err(error) => {
                self.failed = Some(error);
                Err(Fault::Store)
            }
        }
    }
}

impl<T: OnJob> Look for JobWalk<'_, T> {
    ghost looked = { λ old new. ⊤ };

    fn look<S: Alter + Drop>(&mut self, alloc: Global, conn: Connection<S>) -> S {
        if let Err(error) = self.on_job.begin() {
            self.failed = Some(error);
            return conn.into_store();
        }
        let (walked, store) = each_job(alloc, conn, self);
        self.walked = Some(walked.map_err(OpenFault::from));
        store
    }
}

/// Runs each job of the bureau's file at a path again, and has it taken. The error is one that is
/// not the file's.
pub(crate) fn walk_jobs<T: OnJob>(
    rt: &HostRuntime,
    file: &str,
    on_job: &mut T,
) -> io::Result<Result<Walked, OpenFault>> {
    let mut walk = JobWalk {
        on_job,
        walked: None,
        failed: None,
    };
    let looked = look_into(rt, file, &mut walk);
    let JobWalk { walked, failed, .. } = walk;
    match failed {
        Some(error) => Err(error),
        None => Ok(found(looked, walked)),
    }
}
