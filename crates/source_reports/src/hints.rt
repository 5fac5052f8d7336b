//! What is known of a fault besides its words.

ghost use Rattle.std.specs.Prelude.{◌≡◌, ◌++◌, option_copied, slice_get, OnOk};
ghost use Rattle.autocoder_layout.specs.Source.{IsInRange};
ghost use Rattle.source_reports.specs.Hints.{hint_of, statement_hint};

use crate::field_hints::push_field;
use crate::labels::push_taken;
use crate::operand_hints::push_operand;
use crate::operation_hints::push_operation_hint;
use crate::outside_addresses::push_outside;
use crate::overlaps::push_filled;
use crate::unknown_names::push_unknown;
use crate::wrong_labels::push_label;
use autocoder_layout::{Layout, Line, SourceFault};
use autocoder_statements::StatementFault;
use cards::Card;
use std::alloc::{AllocError, Global};

/// The card of this index, if there is one.
pub(crate) fn card_at(source: &[Card], index: usize) -> Option<&Card>
    ensures { option_copied result ≡ slice_get source.now index }
{
    source.get(index)
}

/// Adds what follows the words of a fault of a card's statement, if there is a card.
fn push_statement(
    text: &mut Vec<u8>,
    source: &[Card],
    card: Option<&Card>,
    fault: StatementFault,
) -> Result<(), AllocError>
    ensures { OnOk result (text.new.items
        ≡ text.old.items ++ statement_hint source.now (option_copied card.entry) fault) }
{
    let Some(card) = card else {
        return Ok(());
    };
    match fault {
        StatementFault::BrokenField => push_field(text, source, card),
        StatementFault::UnknownOperation => push_operation_hint(text, source, card),
        StatementFault::Operand => push_operand(text, card),
        StatementFault::Label => push_label(text, card),
    }
}

/// Adds what follows the words of a card's fault, by the card's index.
#[tactic(auto, unfolding(crate::specs::Hints::hint_of))]
pub(crate) fn push_hint(
    alloc: Global,
    text: &mut Vec<u8>,
    layout: &Layout,
    source: &[Card],
    index: usize,
    line: &Line,
    fault: SourceFault,
) -> Result<(), AllocError>
    requires { IsInRange line.now }
    ensures { OnOk result (text.new.items
        ≡ text.old.items ++ hint_of layout.now source.now index line.now fault) }
{
    match fault {
        SourceFault::Statement(fault) => {
            push_statement(text, source, card_at(source, index), fault)
        }
        SourceFault::TakenLabel => push_taken(text, layout, line),
        SourceFault::UnknownName => push_unknown(alloc, text, layout, index, line),
        SourceFault::Outside => push_outside(text, layout, line),
        SourceFault::Filled => push_filled(text, layout, index),
        _ => Ok(()),
    }
}
