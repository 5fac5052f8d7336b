//! Heads of requests: how one is read, and its verdict.

ghost use Rattle.std.specs.Prelude.{◌≡◌, ◌≤◌, List, ℕ, IfOk, IfErr, drop, length, take};
ghost use Rattle.httparse.specs.{Grammar.{RequestHead}, Spans.{IsRequestAt, IsRequestWithin}};
ghost use Rattle.http_messages.specs.{
  Paths.{paths, routed},
  declared.fault.RequestFault.TheVariants.{ReadFailed},
  Judging.{IsReadOf, IsVerdictOn, Judges, ReadsHead},
};

use crate::asking::asked_at;
use crate::fault::RequestFault;
use crate::fields::body_length;
use crate::head::Head;
use crate::head_tests::refusal;
use crate::lengths::BodyLength;
use crate::paths::path_at;
use crate::reading::{Outcome, read_head};
use crate::routes::Path;
use crate::verdicts::Verdict;
use httparse::spans::{EMPTY_HEADER_SPAN, HeaderSpan, RequestSpans};
use matchit::Router;
use std::io::Read;

/// The verdict on a whole head.
fn verdict_on<'a>(
    router: &Router<Path>,
    bytes: &'a [u8],
    fields: &[HeaderSpan],
    spans: &RequestSpans,
) -> Verdict<'a>
    requires paths { router.now ≡ routed paths }
    requires within { IsRequestWithin bytes.now fields.now spans.now }
    ensures { (h : RequestHead) → IsRequestAt bytes.now fields.now spans.now h
        → IsVerdictOn h (drop spans.now.len bytes.now) result }
{
    let Ok(target) = str::from_utf8(spans.path.of(bytes)) else {
        return Verdict::Refused(400);
    };
    let fields = &fields[..spans.headers];
    let path = path_at(router, target);
    if let Some(status) = refusal(path, spans.method.of(bytes), bytes, fields) {
        return Verdict::Refused(status.as_u16());
    }
    let count = match body_length(bytes, fields) {
        BodyLength::Bytes(count) => count,
        BodyLength::Unsaid | BodyLength::Bad => 0,
    };
    match path.and_then(|path| asked_at(path.route, target)) {
        Some(asked) => Verdict::Asks {
            asked,
            count,
            begun: &bytes[spans.len..],
        },
        None => Verdict::Refused(400),
    }
}

impl Head {
    /// Reads until a head is whole or is refused, or the reader ends or fails.
    pub fn read<R: Read>(reader: &mut R) -> Head
        ensures { ReadsHead (R.remaining reader.old) (R.remaining reader.new) result }
    {
        let mut bytes = [0u8; 8192];
        let mut fields = [EMPTY_HEADER_SPAN; 64];
        let read = read_head(reader, &mut bytes, &mut fields);
        Head {
            bytes,
            fields,
            filled: read.filled,
            outcome: read.outcome,
        }
    }

    /// Returns what the request asks for, or the status that refuses it. Fails only if the reader
    /// failed.
    pub fn verdict<'a>(&'a self, router: &Router<Path>) -> Result<Verdict<'a>, RequestFault>
        requires { router.now ≡ routed paths }
        ensures verdict { IfOk result (λ verdict. (input : List ℕ) → (rest : List ℕ)
            → IsReadOf self.now input rest → Judges input rest verdict) }
        ensures failed { IfErr result (λ fault. (fault ≡ ReadFailed)
            × (self.now.outcome ≡ Outcome.Failed)) }
    {
        let bytes = &self.bytes[..self.filled];
        match &self.outcome {
            Outcome::Whole(spans) => Ok(verdict_on(router, bytes, &self.fields, spans)),
            Outcome::NoHead | Outcome::Ended => Ok(Verdict::Refused(400)),
            Outcome::TooManyFields | Outcome::TooLong => Ok(Verdict::Refused(431)),
            Outcome::Failed => Err(RequestFault::ReadFailed),
        }
    }
}
