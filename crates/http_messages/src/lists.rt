//! The bodies of replies that hold lists, as JSON.

ghost use Rattle.std.specs.Prelude.{◌≡◌, IfOk, map};
ghost use Rattle.serde_json.specs.View.{view};
ghost use Rattle.http_messages.specs.Values.{fault_data, faults_data, job_data, jobs_data, queue_data, queued_data};

use autocoder_layout::CardFault;
use office::{JobLine, JobList, QueueLine, QueueList, SourceFaults};
use serde_json::{Value, json};
use std::alloc::{AllocError, Global};

/// The value of a job in the list of a customer's jobs.
fn job(alloc: Global, job: &JobLine) -> Result<Value, AllocError>
    ensures { IfOk result (λ value. view value ≡ job_data job.now) }
{
    let standing = job.standing;
    let words = format!(in alloc; "{standing}")?;
    json!(in alloc; {
        "collected": job.collected,
        "held": job.held,
        "number": job.number,
        "standing": words
    })
}

/// The values of a customer's jobs, in order.
fn job_rows(alloc: Global, jobs: &[JobLine]) -> Result<Vec<Value>, AllocError>
    ensures { IfOk result (λ rows. map view rows.items ≡ map job_data jobs.now) }
{
    let mut rows = Vec::new(alloc);
    for line in jobs {
        rows.push(job(alloc, line)?)?;
    }
    Ok(rows)
}

/// The value for a customer's jobs.
pub(crate) fn jobs(alloc: Global, jobs: &JobList) -> Result<Value, AllocError>
    ensures { IfOk result (λ value. view value ≡ jobs_data (map job_data jobs.now)) }
{
    let rows = Value::Array(job_rows(alloc, &jobs.0)?);
    json!(in alloc; {"jobs": rows, "reply": "jobs"})
}

/// The value of a job in the queue.
fn queue_row(alloc: Global, job: &QueueLine) -> Result<Value, AllocError>
    ensures { IfOk result (λ value. view value ≡ queued_data job.now) }
{
    json!(in alloc; {"customer": job.customer.as_str(), "number": job.number})
}

/// The values of the jobs in the queue, in order.
fn queue_rows(alloc: Global, jobs: &[QueueLine]) -> Result<Vec<Value>, AllocError>
    ensures { IfOk result (λ rows. map view rows.items ≡ map queued_data jobs.now) }
{
    let mut rows = Vec::new(alloc);
    for job in jobs {
        rows.push(queue_row(alloc, job)?)?;
    }
    Ok(rows)
}

/// The value for the queue.
pub(crate) fn queue(alloc: Global, jobs: &QueueList) -> Result<Value, AllocError>
    ensures { IfOk result (λ value. view value ≡ queue_data (map queued_data jobs.now)) }
{
    let rows = Value::Array(queue_rows(alloc, &jobs.0)?);
    json!(in alloc; {"queue": rows, "reply": "queue"})
}

/// The value of a card's fault.
fn fault(alloc: Global, told: CardFault) -> Result<Value, AllocError>
    ensures { IfOk result (λ value. view value ≡ fault_data told) }
{
    let number = told.fault.number();
    json!(in alloc; {"card": told.card, "fault": number})
}

/// The values of the faults of a source, in order.
fn fault_rows(alloc: Global, faults: &[CardFault]) -> Result<Vec<Value>, AllocError>
    ensures { IfOk result (λ rows. map view rows.items ≡ map fault_data faults.now) }
{
    let mut rows = Vec::new(alloc);
    for told in faults {
        rows.push(fault(alloc, *told)?)?;
    }
    Ok(rows)
}

/// The value for the faults of a source.
pub(crate) fn faults(alloc: Global, faults: &SourceFaults) -> Result<Value, AllocError>
    ensures { IfOk result (λ value. view value ≡ faults_data (map fault_data faults.now)) }
{
    let rows = Value::Array(fault_rows(alloc, &faults.0)?);
    json!(in alloc; {"faults": rows, "refusal": 16})
}
