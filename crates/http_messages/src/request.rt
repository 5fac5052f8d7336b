//! Requests, and how one is read.

ghost use Rattle.std.specs.Prelude.{◌≡◌, ◌++◌, IfOk, IfSome};
ghost use Rattle.http_messages.specs.Requests.{HasRefusingStatus, IsAskedWith, IsRefusingStatus, IsRequestOf};

use crate::commands::request_for;
use crate::fault::RequestFault;
use crate::head::Head;
use crate::request_bodies::{Body, read_body};
use crate::routing::Routes;
use crate::targets::Target;
use crate::verdicts::Verdict;
use cards::CardFault;
use http::StatusCode;
use office::Command;
use std::alloc::Global;
use std::io::Read;

/// The request that the bytes of a reader are.
#[derive(Drop)]
pub enum Request {
    /// They are refused with this status alone: 400, 404, 405, 411, 413 or 431.
    Refused(StatusCode),
    /// They ask for a submission, and the text of its deck has this fault.
    BadDeck(CardFault),
    /// They ask for this command.
    Asks(Command),
}

/// The request that is refused with this status; with 400 if the status is not one of the six.
fn refusal(status: u16) -> Request
    ensures one { HasRefusingStatus result }
    ensures same { IsRefusingStatus status → result ≡ Request.Refused status }
{
    Request::Refused(match status {
        404 => StatusCode::NOT_FOUND,
        405 => StatusCode::METHOD_NOT_ALLOWED,
        411 => StatusCode::LENGTH_REQUIRED,
        413 => StatusCode::PAYLOAD_TOO_LARGE,
        431 => StatusCode::REQUEST_HEADER_FIELDS_TOO_LARGE,
        _ => StatusCode::BAD_REQUEST,
    })
}

/// The request that asks for this, with a body of `count` bytes. `begun` is the bytes after the
/// head that were already read; the others are read now.
fn read_with_body<R: Read>(
    alloc: Global,
    reader: &mut R,
    asked: Target<'_>,
    count: u32,
    begun: &[u8],
) -> Result<Request, RequestFault>
    ensures request { IfOk result (λ request. IfSome (R.remaining reader.old)
        (λ rest. IsAskedWith asked.entry count (begun.now ++ rest) request)) }
    ensures status { IfOk result HasRefusingStatus }
{
    match read_body(alloc, reader, begun, count)? {
        Body::Whole(bytes) => Ok(request_for(alloc, asked, &bytes)?),
        Body::Short => Ok(Request::Refused(StatusCode::BAD_REQUEST)),
    }
}

impl Request {
    /// Reads a request, its head and then its body. Bytes after it may be read with it; they change
    /// nothing. Fails if there is no memory or if the reader fails.
    pub fn read<R: Read>(
        alloc: Global,
        routes: &Routes,
        reader: &mut R,
    ) -> Result<Request, RequestFault>
        ensures request { IfOk result (λ request. IfSome (R.remaining reader.old)
            (λ input. IsRequestOf input request)) }
        ensures status { IfOk result HasRefusingStatus }
    {
        let head = Head::read(reader);
        match head.verdict(&routes.router) {
            Ok(Verdict::Refused(status)) => Ok(refusal(status)),
            Ok(
                Verdict::Asks {
                    asked,
                    count,
                    begun,
                },
            ) => read_with_body(alloc, reader, asked, count, begun),
            Err(fault) => Err(fault),
        }
    }
}
