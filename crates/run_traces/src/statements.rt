//! The statement of an instruction, as it is shown.

ghost use Rattle.std.specs.Prelude.{◌≡◌, ◌++◌, option_copied, OnOk};
ghost use Rattle.run_traces.specs.Statements.{slots_named, statement_next, statement_shown};

use crate::names::Names;
use autocoder_layout::Slot;
use core_store::Core;
use disassembly::{Statement, push_statement, statement_at};
use machine::Parts;
use std::alloc::{AllocError, Global};

/// What the cards of a source define; nothing without a source.
fn slots_named<'a>(names: Option<&'a Names>) -> &'a [Slot]
    ensures { result.now ≡ slots_named (option_copied names.entry) }
{
    match names {
        None => &[],
        Some(names) => names.slots(),
    }
}

/// Adds a statement with the names that these cards define, if there is a statement.
fn push_if_any(
    alloc: Global,
    text: &mut Vec<u8>,
    statement: Option<Statement>,
    slots: &[Slot],
) -> Result<(), AllocError>
    ensures { OnOk result (text.new.items
        ≡ text.old.items ++ statement_shown slots.now statement) }
{
    match statement {
        None => Ok(()),
        Some(statement) => push_statement(alloc, text, &statement, slots),
    }
}

/// Adds the statement of Autocoder that has the characters of the instruction that a machine
/// attempts next, with the names of a source where they are given; nothing if no statement has
/// them. Fails only if there is no memory.
#[tactic(auto, unfolding(crate::specs::Statements::statement_next))]
pub fn push_statement_next<C: Core>(
    alloc: Global,
    text: &mut Vec<u8>,
    names: Option<&Names>,
    parts: &Parts<C>,
) -> Result<(), AllocError>
    ensures { OnOk result (text.new.items
        ≡ text.old.items ++ statement_next (option_copied names.entry) parts.now) }
{
    let statement = statement_at(&parts.core, parts.registers.i);
    push_if_any(alloc, text, statement, slots_named(names))
}
