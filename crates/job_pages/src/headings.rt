//! The heading that a source gives itself.

ghost use Rattle.std.specs.Prelude.{◌≡◌, option_copied, option_map, IfOk};
ghost use Rattle.job_pages.specs.Headings.{HasHeading, is_job, job_card};

use autocoder::push_glyphs;
use autocoder_statements::{Operation, operand_field, operation_of};
use cards::Card;
use std::alloc::{AllocError, Global};

/// Whether a card is a JOB card.
#[tactic(auto, unfolding(crate::specs::Headings::is_job))]
fn is_job(card: &Card) -> bool
    ensures { result ≡ is_job card.now }
{
    matches!(operation_of(card), Some(Operation::Job))
}

/// The first JOB card of some cards.
fn job_card(cards: &[Card]) -> Option<&Card>
    ensures { option_copied result ≡ job_card cards.now }
{
    cards.iter().find(|card| is_job(card))
}

/// Returns what the cards of a source give as its heading: the text of the first JOB card, without
/// the blanks at its end; none if there is no such card.
///
/// Fails only if there is no memory.
pub fn heading_of(alloc: Global, source: &[Card]) -> Result<Option<Vec<u8>>, AllocError>
    ensures { IfOk result (λ heading.
        HasHeading source.now (option_map (λ text. text.items) heading)) }
{
    let Some(card) = job_card(source) else {
        return Ok(None);
    };
    let mut text = Vec::new(alloc);
    push_glyphs(&mut text, operand_field(card))?;
    let length = text.trim_ascii_end().len();
    text.truncate(length);
    Ok(Some(text))
}
