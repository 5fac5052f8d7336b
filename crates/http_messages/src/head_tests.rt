//! The tests of a head, in order.

ghost use Rattle.std.specs.Prelude.{◌≡◌, All, length, map, option_map};
ghost use Rattle.httparse.specs.Spans.{IsHeaderWithin, header_bytes};
ghost use Rattle.http_messages.specs.HeadTests.{first_failed, has_body, length_tests, status_on};

use crate::fields::{body_length, count_named};
use crate::lengths::BodyLength;
use crate::routes::Path;
use http::{Method, StatusCode};
use httparse::spans::HeaderSpan;

/// The greatest number of bytes of a body.
const MOST_BYTES: u32 = 200_000;

/// Whether requests with this method have a body.
fn has_body(method: &Method) -> bool
    ensures { result ≡ has_body method.now }
{
    *method == Method::PUT
}

/// The status of the first test that the length of a body fails.
fn refusal_of_length(method: &Method, said: BodyLength) -> Option<StatusCode>
    ensures { result ≡ first_failed (length_tests method.now said) }
{
    let has_body = has_body(method);
    match said {
        BodyLength::Bad => Some(StatusCode::BAD_REQUEST),
        BodyLength::Unsaid if has_body => Some(StatusCode::LENGTH_REQUIRED),
        BodyLength::Unsaid => None,
        BodyLength::Bytes(count) if count > MOST_BYTES => Some(StatusCode::PAYLOAD_TOO_LARGE),
        BodyLength::Bytes(count) if count > 0 && !has_body => Some(StatusCode::BAD_REQUEST),
        BodyLength::Bytes(_) => None,
    }
}

/// The status that refuses a head for its target's path, its method or its fields, if one does.
pub(crate) fn refusal(
    path: Option<&Path>,
    method: &[u8],
    bytes: &[u8],
    fields: &[HeaderSpan],
) -> Option<StatusCode>
    requires { All (IsHeaderWithin (length bytes.now)) fields.now }
    ensures { result ≡ status_on (option_map (λ path. path.now) path.entry) method.now
        (map (header_bytes bytes.now) fields.now) }
{
    let Some(path) = path else {
        return Some(StatusCode::NOT_FOUND);
    };
    if method != path.method.as_str().as_bytes() {
        return Some(StatusCode::METHOD_NOT_ALLOWED);
    }
    if count_named(bytes, fields, b"Transfer-Encoding") > 0 {
        return Some(StatusCode::BAD_REQUEST);
    }
    refusal_of_length(&path.method, body_length(bytes, fields))
}
