//! The bodies of replies as JSON, and their text.

ghost use Rattle.std.specs.Prelude.{◌≡◌, false, IfOk, string_bytes};
ghost use Rattle.serde_json.specs.{View.{view}, Written.{compact_text, has_float}};
ghost use Rattle.http_messages.specs.Values.{collected_data, deck_fault_data, ran_data, refusal_data, reply_data, summary_data, taken_data};

use cards::CardFault;
use machine::StandingAt;
use office::Summary;
use serde_json::{Value, json};
use std::alloc::{AllocError, Global};

/// The text of a value, without a blank.
pub(crate) fn text_of(alloc: Global, value: Value) -> Result<Vec<u8>, AllocError>
    ensures { IfOk result (λ text. has_float (view value) ≡ false
        → text.items ≡ compact_text (view value)) }
{
    Ok(value.to_string(alloc)?.into_bytes())
}

/// The value of a reply that has only its name.
pub(crate) fn named_reply(alloc: Global, name: &str) -> Result<Value, AllocError>
    ensures { IfOk result (λ value. view value ≡ reply_data name.now) }
{
    json!(in alloc; {"reply": name})
}

/// The value for a job that was taken.
pub(crate) fn taken_reply(alloc: Global, cards: u32) -> Result<Value, AllocError>
    ensures { IfOk result (λ value. view value ≡ taken_data cards) }
{
    json!(in alloc; {"cards": cards, "reply": "taken"})
}

/// The value for a job that ran.
pub(crate) fn ran_reply(
    alloc: Global,
    executed: u32,
    standing: StandingAt,
) -> Result<Value, AllocError>
    ensures { IfOk result (λ value. view value ≡ ran_data executed standing) }
{
    let words = format!(in alloc; "{standing}")?;
    json!(in alloc; {"executed": executed, "reply": "ran", "standing": words})
}

/// The value for a job that was collected.
pub(crate) fn collected_reply(alloc: Global, cards: u32, lines: u32) -> Result<Value, AllocError>
    ensures { IfOk result (λ value. view value ≡ collected_data cards lines) }
{
    json!(in alloc; {"cards": cards, "lines": lines, "reply": "collected"})
}

/// The value for the summary of a job.
pub(crate) fn summary(alloc: Global, job: &Summary) -> Result<Value, AllocError>
    ensures { IfOk result (λ value. view value ≡ summary_data job.now) }
{
    let standing = job.standing;
    let words = format!(in alloc; "{standing}")?;
    json!(in alloc; {
        "cards": job.cards,
        "collected": job.collected,
        "granted": job.granted,
        "held": job.held,
        "lines": job.lines,
        "reply": "standing",
        "standing": words
    })
}

/// The value for a refusal that has only its number.
pub(crate) fn refusal(alloc: Global, number: u8) -> Result<Value, AllocError>
    ensures { IfOk result (λ value. view value ≡ refusal_data number) }
{
    json!(in alloc; {"refusal": number})
}

/// The value for a fault of a deck's text.
pub(crate) fn deck_fault(alloc: Global, fault: CardFault) -> Result<Value, AllocError>
    ensures { IfOk result (λ value. view value ≡ deck_fault_data fault) }
{
    let number = fault.error.number();
    json!(in alloc; {"card": fault.card, "column": fault.column, "deck": number})
}
