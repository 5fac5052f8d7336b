//! Requests, from what targets and bodies ask for.

ghost use Rattle.std.specs.Prelude.{◌≡◌, ◌≢◌, IfOk};
ghost use Rattle.cards.specs.Faults.{out_of_memory};
ghost use Rattle.http_messages.specs.Asking.{AsksOfJobs, IsAskedBy, IsBadDeck, IsOnJob};
ghost use Rattle.http_messages.specs.declared.targets.Target.TheVariants as target;

use crate::request::Request;
use crate::targets::Target;
use cards::{CardError, CardFault, read_text};
use office::{Command, Contents, JobCommand, Kind};
use std::alloc::{AllocError, Global};
use texts::JobName;
use units::Switches;

/// The request whose deck has this fault. Having no memory is not a fault of a deck.
fn bad_deck(fault: CardFault) -> Result<Request, AllocError>
    ensures { IfOk result (IsBadDeck fault) }
{
    match fault.error {
        CardError::NoMemory => Err(AllocError),
        _ => Ok(Request::BadDeck(fault)),
    }
}

/// The request to take in a job whose deck is this text.
fn submission(
    alloc: Global,
    job: JobName<'_>,
    kind: Kind,
    size: u32,
    switches: Switches,
    text: &[u8],
) -> Result<Request, AllocError>
    ensures { IfOk result (IsAskedBy (target.Submission job.entry kind size switches) text.now) }
{
    let deck = match read_text(alloc, text) {
        Ok(deck) => deck,
        Err(fault) => return bad_deck(fault),
    };
    let customer = String::from_str(alloc, job.customer)?;
    let contents = Contents {
        kind,
        size,
        switches,
        deck,
    };
    Ok(Request::Asks(Command::Submit {
        customer,
        number: job.number,
        contents,
    }))
}

/// The request of a command on a job.
fn on_job(alloc: Global, job: JobName<'_>, command: JobCommand) -> Result<Request, AllocError>
    ensures { IfOk result (IsOnJob job.entry command) }
{
    let customer = String::from_str(alloc, job.customer)?;
    Ok(Request::Asks(Command::Job {
        customer,
        number: job.number,
        command,
    }))
}

/// The request for a customer's jobs.
fn of_jobs(alloc: Global, customer: &str) -> Result<Request, AllocError>
    ensures { IfOk result (AsksOfJobs customer.now) }
{
    let customer = String::from_str(alloc, customer)?;
    Ok(Request::Asks(Command::Jobs { customer }))
}

/// The request that asks for this with this body.
pub(crate) fn request_for(
    alloc: Global,
    asked: Target<'_>,
    body: &[u8],
) -> Result<Request, AllocError>
    ensures { IfOk result (IsAskedBy asked.entry body.now) }
{
    match asked {
        Target::Submission {
            job,
            kind,
            size,
            switches,
        } => submission(alloc, job, kind, size, switches, body),
        Target::Job { job, command } => on_job(alloc, job, command),
        Target::Jobs(customer) => of_jobs(alloc, customer),
        Target::Queue => Ok(Request::Asks(Command::Queue)),
    }
}
