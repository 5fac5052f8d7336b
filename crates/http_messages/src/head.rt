//! The head of a request.

ghost use Rattle.std.specs.Prelude.{◌≤◌, take};
ghost use Rattle.http_messages.specs.Reading.{SpansFit};

use crate::reading::Outcome;
use httparse::spans::HeaderSpan;

/// The first bytes of a request, up to the end of its head or to the point at which it is refused,
/// and how reading them ended. `Head::read` in `judging.rt` makes it.
#[derive(Drop)]
pub struct Head {
    pub(crate) bytes: [u8; 8192],
    pub(crate) fields: [HeaderSpan; 64],
    pub(crate) filled: usize,
    pub(crate) outcome: Outcome,
    ghost within: { filled ≤ 8192 },
    ghost fits: { SpansFit (take filled bytes) fields outcome },
}
