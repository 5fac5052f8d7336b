//! What the bureau's replies over HTTP say.

ghost use Rattle.std.specs.Prelude.{◌≡◌, Some, All, IfOk, IfSome, option_and_then, option_map, map, string_bytes};
ghost use Rattle.serde_json.specs.{Data.{Data}, Find.{as_array, get}, View.{items_view, view}};
ghost use Rattle.queue_rounds.specs.{
  Answers.{Tells, each_in, job_number_in, jobs_in, name_in, number_at, queue_in, ran_in, refusal_in, standing_at, text_at},
  Names.{IsName, name_of},
};

use crate::jobs::JobName;
use crate::standing_texts::is_standing;
use serde_json::Value;
use std::alloc::{AllocError, Global};
use texts::{is_customer, is_number};

/// That a job had its slice.
#[derive(Drop)]
pub struct Ran {
    /// How many instructions it executed.
    pub executed: u32,
    /// How its machine stands: `running`, or where it stopped. It is a text that a bureau prints.
    pub standing: String,
}

/// The JSON value that a body is, if it is one.
pub(crate) fn read(alloc: Global, body: &[u8]) -> Result<Option<Value>, AllocError>
    ensures { IfOk result (λ found. Tells Some body.now (option_map view found)) }
{
    match Value::from_slice(alloc, body) {
        Ok(value) => Ok(Some(value)),
        Err(error) => {
            if error.is_memory() {
                Err(AllocError)
            } else {
                Ok(None)
            }
        }
    }
}

/// The number of a member, if it has 32 bits.
pub(crate) fn number_at(value: &Value, name: &str) -> Option<u32>
    ensures { result ≡ number_at name.now (view value.now) }
{
    let Some(member) = value.get(name) else {
        return None;
    };
    let Some(number) = member.as_u64() else {
        return None;
    };
    if number <= u64::from(u32::MAX) {
        Some(number as u32)
    } else {
        None
    }
}

/// The text of a member.
pub(crate) fn text_at<'a>(value: &'a Value, name: &str) -> Option<&'a str>
    ensures { option_map (λ text. text.now) result ≡ text_at name.now (view value.now) }
{
    match value.get(name) {
        Some(member) => member.as_str(),
        None => None,
    }
}

/// The items of a member, if it is an array.
fn items_at<'a>(value: &'a Value, name: &str) -> Option<&'a Vec<Value>>
    ensures { option_map (λ items. items_view items.now.items) result
        ≡ option_and_then as_array (get name.now (view value.now)) }
{
    match value.get(name) {
        Some(member) => member.as_array(),
        None => None,
    }
}

/// The text of the standing that a value tells, if a bureau prints it of one.
pub(crate) fn standing_at(value: &Value) -> Option<&str>
    ensures { option_map (λ text. text.now) result ≡ standing_at (view value.now) }
{
    let Some(text) = text_at(value, "standing") else {
        return None;
    };
    if is_standing(text) { Some(text) } else { None }
}

/// The name of a job in an item of the queue, if it is one of a bureau's.
fn job_in(alloc: Global, item: &Value) -> Result<Option<JobName>, AllocError>
    ensures told { IfOk result (λ found. option_map name_of found ≡ name_in (view item.now)) }
    ensures is_name { IfOk result (λ found. IfSome found IsName) }
{
    let Some(customer) = text_at(item, "customer") else {
        return Ok(None);
    };
    let Some(number) = number_at(item, "number") else {
        return Ok(None);
    };
    if !is_customer(customer) {
        return Ok(None);
    }
    if !is_number(number) {
        return Ok(None);
    }
    let customer = String::from_str(alloc, customer)?;
    Ok(Some(JobName { customer, number }))
}

/// The jobs in the items of a queue, if each is one.
fn jobs_in(alloc: Global, items: &[Value]) -> Result<Option<Vec<JobName>>, AllocError>
    ensures told { IfOk result (λ found.
        option_map (λ jobs. map name_of jobs.items) found ≡ each_in name_in (items_view items.now)) }
    ensures are_names { IfOk result (λ found. IfSome found (λ jobs. All IsName jobs.items)) }
{
    let mut jobs = Vec::new(alloc);
    for item in items {
        match job_in(alloc, item)? {
            Some(job) => jobs.push(job)?,
            None => return Ok(None),
        }
    }
    Ok(Some(jobs))
}

/// The jobs of the queue that a value is, if it is one.
fn queue_in(alloc: Global, value: &Value) -> Result<Option<Vec<JobName>>, AllocError>
    ensures told { IfOk result (λ found.
        option_map (λ jobs. map name_of jobs.items) found ≡ queue_in (view value.now)) }
    ensures are_names { IfOk result (λ found. IfSome found (λ jobs. All IsName jobs.items)) }
{
    match items_at(value, "queue") {
        Some(items) => jobs_in(alloc, items),
        None => Ok(None),
    }
}

/// Returns the jobs of the queue that a body tells, in its order; none if it is no queue, as where
/// a name is none of a bureau's. Fails only if there is no memory.
pub fn read_queue(alloc: Global, body: &[u8]) -> Result<Option<Vec<JobName>>, AllocError>
    ensures told { IfOk result (λ found.
        Tells queue_in body.now (option_map (λ jobs. map name_of jobs.items) found)) }
    ensures are_names { IfOk result (λ found. IfSome found (λ jobs. All IsName jobs.items)) }
{
    match read(alloc, body)? {
        Some(value) => queue_in(alloc, &value),
        None => Ok(None),
    }
}

/// The number of the job in an item of a customer's jobs, if a bureau's job can have it.
fn job_number_in(item: &Value) -> Option<u32>
    ensures { result ≡ job_number_in (view item.now) }
{
    let Some(number) = number_at(item, "number") else {
        return None;
    };
    if is_number(number) {
        Some(number)
    } else {
        None
    }
}

/// The numbers in the items of a customer's jobs, if each has one.
fn job_numbers_in(alloc: Global, items: &[Value]) -> Result<Option<Vec<u32>>, AllocError>
    ensures { IfOk result (λ found.
        option_map (λ numbers. numbers.items) found ≡ each_in job_number_in (items_view items.now)) }
{
    let mut numbers = Vec::new(alloc);
    for item in items {
        match job_number_in(item) {
            Some(number) => numbers.push(number)?,
            None => return Ok(None),
        }
    }
    Ok(Some(numbers))
}

/// The numbers of the customer's jobs that a value is, if it is that.
fn jobs_of_customer_in(alloc: Global, value: &Value) -> Result<Option<Vec<u32>>, AllocError>
    ensures { IfOk result (λ found.
        option_map (λ numbers. numbers.items) found ≡ jobs_in (view value.now)) }
{
    match items_at(value, "jobs") {
        Some(items) => job_numbers_in(alloc, items),
        None => Ok(None),
    }
}

/// Returns the numbers of the customer's jobs that a body tells, in its order; none if it tells no
/// such jobs. Fails only if there is no memory.
pub fn read_jobs(alloc: Global, body: &[u8]) -> Result<Option<Vec<u32>>, AllocError>
    ensures { IfOk result (λ found.
        Tells jobs_in body.now (option_map (λ numbers. numbers.items) found)) }
{
    match read(alloc, body)? {
        Some(value) => jobs_of_customer_in(alloc, &value),
        None => Ok(None),
    }
}

/// What a slice did that a value tells.
fn ran_in(alloc: Global, value: &Value) -> Result<Option<Ran>, AllocError>
    ensures { IfOk result (λ found.
        option_map (λ ran. (ran.executed, string_bytes ran.standing)) found
        ≡ ran_in (view value.now)) }
{
    let Some(executed) = number_at(value, "executed") else {
        return Ok(None);
    };
    let Some(standing) = standing_at(value) else {
        return Ok(None);
    };
    let standing = String::from_str(alloc, standing)?;
    Ok(Some(Ran { executed, standing }))
}

/// Returns what a slice did that a body tells; none if it tells of no slice, as where no bureau
/// prints its standing. Fails only if there is no memory.
pub fn read_ran(alloc: Global, body: &[u8]) -> Result<Option<Ran>, AllocError>
    ensures { IfOk result (λ found. Tells ran_in body.now
        (option_map (λ ran. (ran.executed, string_bytes ran.standing)) found)) }
{
    match read(alloc, body)? {
        Some(value) => ran_in(alloc, &value),
        None => Ok(None),
    }
}

/// Returns the number of the refusal that a body tells; none if it tells none. Fails only if there
/// is no memory.
pub fn read_refusal(alloc: Global, body: &[u8]) -> Result<Option<u32>, AllocError>
    ensures { IfOk result (Tells refusal_in body.now) }
{
    match read(alloc, body)? {
        Some(value) => Ok(number_at(&value, "refusal")),
        None => Ok(None),
    }
}
