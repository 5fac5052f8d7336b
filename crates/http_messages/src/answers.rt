//! Answers over HTTP: the head, and then the body.

ghost use Rattle.std.specs.Prelude.{◌≡◌, ◌++◌, IfOk, OnOk, string_bytes, length};
ghost use Rattle.http_messages.specs.Replies.{HasPhrase, answer_bytes, head_bytes, phrase_of};

use http::StatusCode;
use std::alloc::{AllocError, Global};

/// The head of an answer. What `http` displays of a status is its number and its reason phrase.
fn head(
    alloc: Global,
    status: StatusCode,
    content_type: &str,
    length: usize,
) -> Result<String, AllocError>
    requires { HasPhrase status }
    ensures { IfOk result (λ head. string_bytes head
        ≡ head_bytes status (phrase_of status) content_type.now length) }
{
    format!(in alloc;
        "HTTP/1.1 {status}\r\n\
         Content-Type: {content_type}\r\n\
         Content-Length: {length}\r\n\
         Connection: close\r\n\
         \r\n"
    )
}

/// The bytes of an answer with this status, and with a body of this type.
pub(crate) fn answer(
    alloc: Global,
    status: StatusCode,
    content_type: &str,
    body: &[u8],
) -> Result<Vec<u8>, AllocError>
    requires { HasPhrase status }
    ensures { IfOk result (λ bytes. bytes.items ≡ answer_bytes status content_type.now body.now) }
{
    let head = head(alloc, status, content_type, body.len())?;
    let mut bytes = head.into_bytes();
    bytes.extend_from_slice(body)?;
    Ok(bytes)
}
