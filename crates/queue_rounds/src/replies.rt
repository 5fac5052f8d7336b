//! What a bureau answers to the requests of the work on its queue.

ghost use Rattle.std.specs.Prelude.{◌≡◌, IfOk, option_map};
ghost use Rattle.queue_rounds.specs.Replies.{AreJobsRead, AreJobsReplied, IsQueueRead, IsQueueReplied, IsSliceRead, IsSlicePassed, IsSliceReplied, IsStandingRead, IsStandingReplied, is_failure};

use crate::answers::{Ran, read_jobs, read_queue, read_ran, read_refusal};
use crate::jobs::JobName;
use crate::standings::{Standing, read_standing};
use std::alloc::{AllocError, Global};

/// What came of a request.
#[derive(Drop)]
pub enum Reply {
    /// No bureau could be reached: the request was not sent.
    Unsent,
    /// It was sent, at least in part, and not answered.
    Lost,
    /// It was answered with this status and this body.
    Replied {
        /// The status.
        status: u16,
        /// The body.
        body: Vec<u8>,
    },
}

/// Why a slice did not run, as far as is known.
#[derive(Clone, Copy)]
pub enum Passed {
    /// It was refused, with this number.
    Refused(u32),
    /// The bureau failed, with this status.
    Failed(u16),
    /// It was sent and not answered.
    Lost,
}

/// What a reply says.
#[derive(Drop)]
pub enum Outcome {
    /// The queue has these jobs.
    Listed(Vec<JobName>),
    /// A job had its slice.
    Ran(Ran),
    /// A job's slice did not run.
    Passed(Passed),
    /// Nothing: the request may be made again.
    Nothing,
    /// Nothing that a bureau says.
    Foreign,
}

/// Whether a status says that the server failed.
fn is_failure(status: u16) -> bool
    ensures { result ≡ is_failure status }
{
    500 <= status && status <= 599
}

/// What the body of a queue says.
fn outcome_of_queue_body(alloc: Global, status: u16, body: &[u8]) -> Result<Outcome, AllocError>
    ensures { IfOk result (IsQueueReplied status body.now) }
{
    if status == 200 {
        return match read_queue(alloc, body)? {
            Some(jobs) => Ok(Outcome::Listed(jobs)),
            None => Ok(Outcome::Foreign),
        };
    }
    if is_failure(status) {
        return Ok(Outcome::Nothing);
    }
    Ok(Outcome::Foreign)
}

/// Returns what the reply to the request for the queue says. Fails only if there is no memory.
pub fn outcome_of_queue(alloc: Global, reply: &Reply) -> Result<Outcome, AllocError>
    ensures { IfOk result (IsQueueRead reply.now) }
{
    match reply {
        Reply::Replied { status, body } => outcome_of_queue_body(alloc, *status, body),
        _ => Ok(Outcome::Nothing),
    }
}

/// What the reply to a slice with another status than 200 says.
fn outcome_of_refusal(alloc: Global, status: u16, body: &[u8]) -> Result<Outcome, AllocError>
    ensures { IfOk result (IsSlicePassed status body.now) }
{
    if is_failure(status) {
        return Ok(Outcome::Passed(Passed::Failed(status)));
    }
    match read_refusal(alloc, body)? {
        Some(number) => Ok(Outcome::Passed(Passed::Refused(number))),
        None => Ok(Outcome::Foreign),
    }
}

/// What the reply to a slice says.
fn outcome_of_slice_body(alloc: Global, status: u16, body: &[u8]) -> Result<Outcome, AllocError>
    ensures { IfOk result (IsSliceReplied status body.now) }
{
    if status != 200 {
        return outcome_of_refusal(alloc, status, body);
    }
    match read_ran(alloc, body)? {
        Some(ran) => Ok(Outcome::Ran(ran)),
        None => Ok(Outcome::Foreign),
    }
}

/// Returns what the reply to the request for a slice says. Fails only if there is no memory.
pub fn outcome_of_slice(alloc: Global, reply: &Reply) -> Result<Outcome, AllocError>
    ensures { IfOk result (IsSliceRead reply.now) }
{
    match reply {
        Reply::Unsent => Ok(Outcome::Nothing),
        Reply::Lost => Ok(Outcome::Passed(Passed::Lost)),
        Reply::Replied { status, body } => outcome_of_slice_body(alloc, *status, body),
    }
}

/// The numbers of a customer's jobs, as a status and a body say.
fn jobs_of_body(alloc: Global, status: u16, body: &[u8]) -> Result<Option<Vec<u32>>, AllocError>
    ensures { IfOk result (λ found.
        AreJobsReplied status body.now (option_map (λ numbers. numbers.items) found)) }
{
    if status == 200 {
        return read_jobs(alloc, body);
    }
    Ok(None)
}

/// Returns the numbers of a customer's jobs by the reply to the request for them; none if that does
/// not say them. Fails only if there is no memory.
pub fn jobs_of(alloc: Global, reply: &Reply) -> Result<Option<Vec<u32>>, AllocError>
    ensures { IfOk result (λ found.
        AreJobsRead reply.now (option_map (λ numbers. numbers.items) found)) }
{
    match reply {
        Reply::Replied { status, body } => jobs_of_body(alloc, *status, body),
        _ => Ok(None),
    }
}

/// How a job stands, as a status and a body say.
fn standing_of_body(alloc: Global, status: u16, body: &[u8]) -> Result<Option<Standing>, AllocError>
    ensures { IfOk result (IsStandingReplied status body.now) }
{
    if status == 200 {
        return read_standing(alloc, body);
    }
    Ok(None)
}

/// Returns how a job stands by the reply to the request for its standing; none if that does not say
/// it. Fails only if there is no memory.
pub fn standing_of(alloc: Global, reply: &Reply) -> Result<Option<Standing>, AllocError>
    ensures { IfOk result (IsStandingRead reply.now) }
{
    match reply {
        Reply::Replied { status, body } => standing_of_body(alloc, *status, body),
        _ => Ok(None),
    }
}
