//! The body of each reply.

ghost use Rattle.std.specs.Prelude.{◌≡◌, IfOk};
ghost use Rattle.http_messages.specs.{
  ReplyBodies.{body_of, deck_fault_body, refusal_body},
  Replies.{HasLinesInOrder},
};

use crate::values::text_of;
use crate::{lists, values};
use cards::{CardFault, write_punched_cards};
use office::{Refusal, Reply};
use std::alloc::{AllocError, Global};
use units::render;

/// The body of a refusal.
fn refusal_body(alloc: Global, reason: &Refusal) -> Result<Vec<u8>, AllocError>
    ensures { IfOk result (λ body. body.items ≡ refusal_body reason.now) }
{
    match reason {
        Refusal::Assembly(faults) => text_of(alloc, lists::faults(alloc, faults)?),
        other => text_of(alloc, values::refusal(alloc, other.number())?),
    }
}

/// The body of a reply.
pub(crate) fn body_of(alloc: Global, reply: &Reply) -> Result<Vec<u8>, AllocError>
    ensures { HasLinesInOrder reply.now → IfOk result (λ body. body.items ≡ body_of reply.now) }
{
    match reply {
        Reply::Taken { cards } => text_of(alloc, values::taken_reply(alloc, *cards)?),
        Reply::Ran { executed, standing } => {
            text_of(alloc, values::ran_reply(alloc, *executed, *standing)?)
        }
        Reply::Started => text_of(alloc, values::named_reply(alloc, "started")?),
        Reply::Held => text_of(alloc, values::named_reply(alloc, "held")?),
        Reply::Released => text_of(alloc, values::named_reply(alloc, "released")?),
        Reply::Collected { cards, lines } => {
            text_of(alloc, values::collected_reply(alloc, *cards, *lines)?)
        }
        Reply::Standing(job) => text_of(alloc, values::summary(alloc, job)?),
        Reply::Cards(cards) => write_punched_cards(alloc, &cards.0),
        Reply::Lines(lines) => render(alloc, &lines.0),
        Reply::Jobs(jobs) => text_of(alloc, lists::jobs(alloc, jobs)?),
        Reply::Queue(jobs) => text_of(alloc, lists::queue(alloc, jobs)?),
        Reply::Refused(reason) => refusal_body(alloc, reason),
    }
}

/// The body of the answer for the fault of a deck's text.
pub(crate) fn deck_fault_body(alloc: Global, fault: CardFault) -> Result<Vec<u8>, AllocError>
    ensures { IfOk result (λ body. body.items ≡ deck_fault_body fault) }
{
    text_of(alloc, values::deck_fault(alloc, fault)?)
}
