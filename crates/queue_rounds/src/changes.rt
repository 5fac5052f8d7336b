//! What came into a queue, and what left it.

ghost use Rattle.std.specs.Prelude.{◌≡◌, IfOk, map};
ghost use Rattle.queue_rounds.specs.Names.{is_among, is_same, missing, name_of};

use crate::jobs::JobName;
use std::alloc::{AllocError, Global};

/// The changes from one queue to a later one.
#[derive(Drop)]
pub struct Changes {
    /// The jobs that left, in the order of the earlier queue.
    pub left: Vec<JobName>,
    /// The jobs that came, in the order of the later queue.
    pub came: Vec<JobName>,
}

/// Whether two names are of one job.
fn is_same(one: &JobName, other: &JobName) -> bool
    ensures { result ≡ is_same (name_of one.now) (name_of other.now) }
{
    one.customer.as_str() == other.customer.as_str() && one.number == other.number
}

/// Whether a job is among these.
#[tactic(auto, unfolding(crate::specs::Names::is_among))]
fn is_among(jobs: &[JobName], job: &JobName) -> bool
    ensures { result ≡ is_among (map name_of jobs.now) (name_of job.now) }
{
    for other in jobs {
        if is_same(other, job) {
            return true;
        }
    }
    false
}

/// The name of a job once more.
fn copy_name(alloc: Global, job: &JobName) -> Result<JobName, AllocError>
    ensures { IfOk result (λ copy. name_of copy ≡ name_of job.now) }
{
    let customer = String::from_str(alloc, job.customer.as_str())?;
    Ok(JobName {
        customer,
        number: job.number,
    })
}

/// Those of these jobs that are not among the others.
fn missing(alloc: Global, jobs: &[JobName], others: &[JobName]) -> Result<Vec<JobName>, AllocError>
    ensures { IfOk result (λ gone. map name_of gone.items
        ≡ missing (map name_of jobs.now) (map name_of others.now)) }
{
    let mut gone = Vec::new(alloc);
    for job in jobs {
        if !is_among(others, job) {
            gone.push(copy_name(alloc, job)?)?;
        }
    }
    Ok(gone)
}

/// Returns the changes from one queue to a later one: who was in it and is no longer, and who is in
/// it and was not. Fails only if there is no memory.
pub fn changes_between(
    alloc: Global,
    before: &[JobName],
    now: &[JobName],
) -> Result<Changes, AllocError>
    ensures left { IfOk result (λ it. map name_of it.left.items
        ≡ missing (map name_of before.now) (map name_of now.now)) }
    ensures came { IfOk result (λ it. map name_of it.came.items
        ≡ missing (map name_of now.now) (map name_of before.now)) }
{
    let left = missing(alloc, before, now)?;
    let came = missing(alloc, now, before)?;
    Ok(Changes { left, came })
}
