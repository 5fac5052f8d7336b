//! The response that a bureau sends, read from its bytes.

ghost use Rattle.std.specs.{Prelude.{◌≡◌, ◌≤◌, All, IfOk, length, map}, Bool.{MatchBool}};
ghost use Rattle.httparse.specs.Spans.{IsHeaderWithin, header_bytes};
ghost use Rattle.queue_rounds.specs.Responses.{IsCut, IsNumberIn, IsReplyIn, IsWhole, StatesLength};

use crate::replies::Reply;
use httparse::Status;
use httparse::spans::{EMPTY_HEADER_SPAN, HeaderSpan, parse_response};
use std::alloc::{AllocError, Global};

/// The most header fields of a response that are read; a bureau sends three.
const MOST_FIELDS: usize = 64;

/// The number that a text is, if it is one.
fn number_in(text: &[u8]) -> Option<usize>
    ensures { IsNumberIn text.now result }
{
    let Ok(text) = str::from_utf8(text) else {
        return None;
    };
    match text.parse::<usize>() {
        Ok(number) => Some(number),
        Err(_) => None,
    }
}

/// The length that a head states for its body, if it states one.
fn stated_length(bytes: &[u8], fields: &[HeaderSpan]) -> Option<usize>
    requires { All (IsHeaderWithin (length bytes.now)) fields.now }
    ensures { StatesLength (map (header_bytes bytes.now) fields.now) result }
{
    for field in fields {
        if field.name.of(bytes).eq_ignore_ascii_case(b"content-length") {
            return number_in(field.value.of(bytes));
        }
    }
    None
}

/// Whether a body is shorter than its head states: it was cut off.
fn is_cut(bytes: &[u8], fields: &[HeaderSpan], body: &[u8]) -> bool
    requires { All (IsHeaderWithin (length bytes.now)) fields.now }
    ensures { MatchBool result (IsCut (map (header_bytes bytes.now) fields.now) body.now)
        (IsWhole (map (header_bytes bytes.now) fields.now) body.now) }
{
    match stated_length(bytes, fields) {
        Some(length) => body.len() < length,
        None => false,
    }
}

/// The reply that the bytes of a connection are: the status and the body of the response that they
/// begin with. Bytes that begin with no response of HTTP/1.1, with one of more than 64 header
/// fields, or with one that was cut off, answer nothing. Fails only if there is no memory.
pub fn read_reply(alloc: Global, bytes: &[u8]) -> Result<Reply, AllocError>
    ensures { IfOk result (IsReplyIn bytes.now) }
{
    let mut fields = [EMPTY_HEADER_SPAN; MOST_FIELDS];
    let Ok(Status::Complete(head)) = parse_response(bytes, &mut fields) else {
        return Ok(Reply::Lost);
    };
    if head.version != 1 {
        return Ok(Reply::Lost);
    }
    let body = &bytes[head.len..];
    if is_cut(bytes, &fields[..head.headers], body) {
        return Ok(Reply::Lost);
    }
    Ok(Reply::Replied {
        status: head.code,
        body: Vec::from_slice(alloc, body)?,
    })
}
