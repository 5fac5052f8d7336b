//! A label that is taken: the card that has it first.

ghost use Rattle.std.specs.Prelude.{◌≡◌, ◌++◌, OnOk};
ghost use Rattle.source_reports.specs.Labels.{label_of, taken_hint};

use crate::names::first_card;
use autocoder_layout::{Layout, Line};
use autocoder_statements::{Name, Statement};
use std::alloc::AllocError;
use texts::push_number_between;

/// The label that a card says it defines.
fn label_of(line: &Line) -> Option<Name>
    ensures { result ≡ label_of line.now }
{
    match line {
        Ok(Statement::Equate { label, .. }) => Some(*label),
        Ok(Statement::Constant { label, .. }) => *label,
        Ok(Statement::Area { label, .. }) => *label,
        Ok(Statement::Instruction { label, .. }) => *label,
        _ => None,
    }
}

/// Adds the card that has a label first.
#[tactic(auto, unfolding(crate::specs::Labels::taken_hint))]
pub(crate) fn push_taken(text: &mut Vec<u8>, layout: &Layout, line: &Line) -> Result<(), AllocError>
    ensures { OnOk result (text.new.items ≡ text.old.items ++ taken_hint layout.now line.now) }
{
    let Some(label) = label_of(line) else {
        return Ok(());
    };
    let Some(card) = first_card(layout.slots(), &label) else {
        return Ok(());
    };
    push_number_between(text, b"; card ", card, b" has it first")
}
