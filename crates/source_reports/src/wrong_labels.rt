//! Of a label that is wrong: what is wrong with it, and what a label is.

ghost use Rattle.std.specs.Prelude.{◌≡◌, ◌++◌, OnOk};
ghost use Rattle.autocoder_statements.specs.Statements.{word, label_field};
ghost use Rattle.source_reports.specs.WrongLabels.{rule_text, word_text, label_text, label_hint};

use crate::pieces::push_text;
use autocoder_statements::{Class, LONGEST_NAME, Operation, label_field, operation_of};
use bcd::Code;
use cards::Card;
use std::alloc::AllocError;

/// Adds what is wrong with a label, and what a label is.
fn push_with_rule(text: &mut Vec<u8>, wrong: &str) -> Result<(), AllocError>
    ensures { OnOk result (text.new.items ≡ text.old.items ++ (wrong.now ++ rule_text)) }
{
    push_text(text, wrong)?;
    push_text(
        text,
        "; a label is one to six letters and digits, a letter first",
    )
}

/// Adds what is wrong with a word that is no label.
fn push_word(text: &mut Vec<u8>, label: &[Code]) -> Result<(), AllocError>
    ensures { OnOk result (text.new.items ≡ text.old.items ++ word_text label.now) }
{
    if LONGEST_NAME < label.len() {
        return push_with_rule(text, "; it has over six characters");
    }
    if Class::LetterOrDigit.run(label) < label.len() {
        return push_with_rule(text, "; it has a sign in it");
    }
    if 0 < Class::Digit.run(label) {
        return push_with_rule(text, "; it begins with a digit");
    }
    push_text(
        text,
        "; X1, X2 and X3 name index locations, so choose another name",
    )
}

/// The label as it stands on a card.
fn label_word(card: &Card) -> &[Code]
    ensures { result.now ≡ word (label_field card.now) }
{
    let field = label_field(card);
    &field[..Class::Filled.run(field)]
}

/// Adds what is wrong with the label of an `EQU`.
fn push_equate(text: &mut Vec<u8>, card: &Card) -> Result<(), AllocError>
    ensures { OnOk result (text.new.items
        ≡ text.old.items ++ label_text card.now Operation.Equate) }
{
    if Class::Filled.run(label_field(card)) == 0 {
        return push_text(text, "; EQU must have a label, from column 6 on");
    }
    push_word(text, label_word(card))
}

/// Adds what is wrong with the label of a card that has this operation.
fn push_label_of(text: &mut Vec<u8>, card: &Card, known: &Operation) -> Result<(), AllocError>
    ensures { OnOk result (text.new.items ≡ text.old.items ++ label_text card.now known.now) }
{
    match known {
        Operation::Job => push_text(text, "; JOB has no label, so leave columns 6 to 15 blank"),
        Operation::Control => push_text(text, "; CTL has no label, so leave columns 6 to 15 blank"),
        Operation::Origin => push_text(text, "; ORG has no label, so leave columns 6 to 15 blank"),
        Operation::End => push_text(text, "; END has no label, so leave columns 6 to 15 blank"),
        Operation::Equate => push_equate(text, card),
        _ => push_word(text, label_word(card)),
    }
}

/// Adds what is wrong with the label of a card, and what a label is.
#[tactic(auto, unfolding(crate::specs::WrongLabels::label_hint))]
pub(crate) fn push_label(text: &mut Vec<u8>, card: &Card) -> Result<(), AllocError>
    ensures { OnOk result (text.new.items ≡ text.old.items ++ label_hint card.now) }
{
    match operation_of(card) {
        None => Ok(()),
        Some(known) => push_label_of(text, card, &known),
    }
}
