//! A statement as it is shown.

ghost use Rattle.std.specs.Prelude.{◌≡◌, ◌++◌, OnOk};
ghost use Rattle.autocoder.specs.Listing.{glyphs_of};
ghost use Rattle.disassembly.specs.Texts.{behind_blank, statement_text};

use crate::operands::push_operands;
use crate::statements::Statement;
use autocoder::push_glyphs;
use autocoder_layout::Slot;
use bcd::Code;
use source_reports::push_operation_name;
use std::alloc::{AllocError, Global};

/// Adds characters behind a blank, if there are any.
fn push_behind_blank(text: &mut Vec<u8>, codes: &[Code]) -> Result<(), AllocError>
    ensures { OnOk result (text.new.items
        ≡ text.old.items ++ behind_blank (glyphs_of codes.now)) }
{
    if codes.is_empty() {
        return Ok(());
    }
    text.push(b' ')?;
    push_glyphs(text, codes)
}

/// Adds a statement: its mnemonic, a blank and its operands, with the names that these cards
/// define. Fails only if there is no memory.
#[tactic(auto, unfolding(crate::specs::Texts::statement_text))]
pub fn push_statement(
    alloc: Global,
    text: &mut Vec<u8>,
    statement: &Statement,
    slots: &[Slot],
) -> Result<(), AllocError>
    ensures { OnOk result (text.new.items
        ≡ text.old.items ++ statement_text slots.now statement.now) }
{
    let mut operands = Vec::new(alloc);
    push_operands(&mut operands, slots, statement)?;
    push_operation_name(text, &statement.name)?;
    push_behind_blank(text, &operands)
}
