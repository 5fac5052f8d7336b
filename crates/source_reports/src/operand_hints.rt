//! Of an operand that is wrong: what stands there, what the operation takes, and the caret.

ghost use Rattle.std.specs.Prelude.{◌≡◌, ◌++◌, OnOk};
ghost use Rattle.autocoder_statements.specs.Statements.{operand_field};
ghost use Rattle.source_reports.specs.OperandHints.{operation_text, takes_text, whole_text, wrong_text, card_cause, operand_hint, count_by_cause, wrong_column};

use crate::expected_operands::push_expected;
use crate::operand_causes::{Cause, cause_of, cause_text};
use crate::operand_stops::stop_of;
use crate::pieces::push_text;
use autocoder::push_glyphs;
use autocoder_statements::{Class, Operation, operand_field, operation_field, operation_of};
use cards::Card;
use std::alloc::AllocError;

/// The first column of the operand field.
const FIRST: usize = 21;

/// How many columns of the operand field come before its last one.
const BEFORE_LAST: usize = 51;

/// Adds the operation as it stands on a card.
pub(crate) fn push_operation(text: &mut Vec<u8>, card: &Card) -> Result<(), AllocError>
    ensures { OnOk result (text.new.items ≡ text.old.items ++ operation_text card.now) }
{
    let field = operation_field(card);
    push_glyphs(text, &field[..Class::Filled.run(field)])
}

/// Adds what the operand of a card's operation should be.
fn push_takes(text: &mut Vec<u8>, card: &Card, known: &Operation) -> Result<(), AllocError>
    ensures { OnOk result (text.new.items ≡ text.old.items ++ takes_text card.now known.now) }
{
    push_text(text, "; ")?;
    push_operation(text, card)?;
    push_text(text, " takes ")?;
    push_expected(text, known)
}

/// Adds what is wrong with a card in whose operand nothing is wrong.
fn push_whole(text: &mut Vec<u8>, card: &Card, known: &Operation) -> Result<(), AllocError>
    ensures { OnOk result (text.new.items ≡ text.old.items ++ whole_text card.now known.now) }
{
    match known {
        Operation::Control => {
            push_text(text, "; only the first CTL counts, so leave this one out")
        }
        Operation::End => {
            push_text(
                text,
                "; there is no instruction to start at, so write an address",
            )
        }
        _ => push_takes(text, card, known),
    }
}

/// Adds what is wrong with an operand field, if anything is, and what the operation takes.
fn push_wrong(
    text: &mut Vec<u8>,
    card: &Card,
    known: &Operation,
    cause: Option<Cause>,
) -> Result<(), AllocError>
    ensures { OnOk result (text.new.items
        ≡ text.old.items ++ wrong_text card.now known.now cause) }
{
    let Some(cause) = cause else {
        return push_whole(text, card, known);
    };
    push_text(text, cause_text(cause))?;
    push_takes(text, card, known)
}

/// What is wrong with the operand field of a card that has this operation, if it is not right.
fn card_cause(card: &Card, known: &Operation) -> Option<Cause>
    ensures { result ≡ card_cause card.now known.now }
{
    let field = operand_field(card);
    cause_of(stop_of(known, field), field)
}

/// Adds what stands in the operand field of a card, and what the operation takes.
#[tactic(auto, unfolding(crate::specs::OperandHints::operand_hint))]
pub(crate) fn push_operand(text: &mut Vec<u8>, card: &Card) -> Result<(), AllocError>
    ensures { OnOk result (text.new.items ≡ text.old.items ++ operand_hint card.now) }
{
    match operation_of(card) {
        None => Ok(()),
        Some(known) => push_wrong(text, card, &known, card_cause(card, &known)),
    }
}

/// How many characters come before what is wrong in an operand field.
fn count_by_cause(cause: Option<Cause>, count: usize) -> usize
    ensures { result ≡ count_by_cause cause count }
{
    match cause {
        None => 0,
        Some(_) => count,
    }
}

/// The column of what is wrong in the operand field of a card.
#[tactic(auto, unfolding(crate::specs::OperandHints::wrong_column))]
pub(crate) fn wrong_column(card: &Card) -> usize
    ensures { result ≡ wrong_column card.now }
{
    let Some(known) = operation_of(card) else {
        return FIRST;
    };
    let stop = stop_of(&known, operand_field(card));
    let count = count_by_cause(card_cause(card, &known), stop.count);
    FIRST + BEFORE_LAST.min(count)
}
