//! The bytes of each reply.

ghost use Rattle.std.specs.Prelude.{◌≡◌, IfOk};
ghost use Rattle.http_messages.specs.Replies.{HasLinesInOrder, HasPhrase, content_type_of, deck_fault_bytes, refusal_status, reply_bytes, status_of};

use crate::answers::answer;
use crate::reply_bodies::{body_of, deck_fault_body};
use cards::CardFault;
use http::StatusCode;
use office::{Refusal, Reply};
use std::alloc::{AllocError, Global};

/// The status of a refusal.
fn refusal_status(reason: &Refusal) -> StatusCode
    ensures status { result ≡ refusal_status reason.now }
    ensures phrase { HasPhrase result }
{
    match reason {
        Refusal::Customer
        | Refusal::Number
        | Refusal::Size
        | Refusal::Deck
        | Refusal::Assembly(_)
        | Refusal::Limit
        | Refusal::NoSuchPocket => StatusCode::BAD_REQUEST,
        Refusal::NoJob => StatusCode::NOT_FOUND,
        Refusal::OtherContents
        | Refusal::TooManyJobs
        | Refusal::Held
        | Refusal::NotRunning
        | Refusal::NotAtHalt
        | Refusal::AlreadyHeld
        | Refusal::NotHeld
        | Refusal::Collected
        | Refusal::TooMuch => StatusCode::CONFLICT,
    }
}

/// The status of a reply.
pub fn status_of(reply: &Reply) -> StatusCode
    ensures status { result ≡ status_of reply.now }
    ensures phrase { HasPhrase result }
{
    match reply {
        Reply::Refused(reason) => refusal_status(reason),
        _ => StatusCode::OK,
    }
}

/// The type of a reply's body.
fn content_type_of(reply: &Reply) -> &'static str
    ensures { result.now ≡ content_type_of reply.now }
{
    match reply {
        Reply::Cards(_) | Reply::Lines(_) => "text/plain",
        _ => "application/json",
    }
}

/// Returns the bytes of a reply, head and body. The reply's lines, if it has any, are in the order
/// of printing, as a job's lines are. Fails only if there is no memory.
pub fn reply_to(alloc: Global, reply: &Reply) -> Result<Vec<u8>, AllocError>
    ensures { HasLinesInOrder reply.now
        → IfOk result (λ bytes. bytes.items ≡ reply_bytes reply.now) }
{
    let body = body_of(alloc, reply)?;
    answer(alloc, status_of(reply), content_type_of(reply), &body)
}

/// Returns the bytes of the answer for the fault of a deck's text. Fails only if there is no
/// memory.
pub fn deck_fault(alloc: Global, fault: CardFault) -> Result<Vec<u8>, AllocError>
    ensures { IfOk result (λ bytes. bytes.items ≡ deck_fault_bytes fault) }
{
    let body = deck_fault_body(alloc, fault)?;
    answer(alloc, StatusCode::BAD_REQUEST, "application/json", &body)
}
