//! How many instructions each job has done.

use queue_rounds::JobName;
use std::alloc::{AllocError, Global};

/// The same name of a job.
pub(crate) fn same_name(alloc: Global, job: &JobName) -> Result<JobName, AllocError> {
    let customer = String::from_str(alloc, job.customer.as_str())?;
    Ok(JobName {
        customer,
        number: job.number,
    })
}

/// The instructions of a job.
#[derive(Drop)]
struct Count {
    job: JobName,
    executed: u64,
}

/// The instructions that each job did, by its name.
#[derive(Drop)]
pub(crate) struct Tally {
    counts: Vec<Count>,
}

impl Tally {
    /// No job has done any.
    pub(crate) fn new(alloc: Global) -> Tally {
        Tally {
            counts: Vec::new(alloc),
        }
    }

    /// Adds instructions that a job did. Returns how many it has done.
    pub(crate) fn add(
        &mut self,
        alloc: Global,
        job: &JobName,
        executed: u32,
    ) -> Result<u64, AllocError> {
        for count in self.counts.iter_mut() {
            if count.job == *job {
                count.executed = count.executed.saturating_add(u64::from(executed));
                return Ok(count.executed);
            }
        }
        self.counts.push(Count {
            job: same_name(alloc, job)?,
            executed: u64::from(executed),
        })?;
        Ok(u64::from(executed))
    }
}
