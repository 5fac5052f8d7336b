//! The name of an address.

ghost use Rattle.std.specs.Prelude.{◌≡◌, ◌++◌, find, option_copied, OnOk};
ghost use Rattle.autocoder_statements.specs.Statements.{word};
ghost use Rattle.disassembly.specs.Texts.{is_at, name_at};

use autocoder_layout::Slot;
use autocoder_statements::{Class, Name};
use bcd::Code;
use std::alloc::AllocError;

/// Whether a card defines a name at just this address.
fn is_at(slot: &Slot, address: u16) -> bool
    ensures { result ≡ is_at address slot.now.defines }
{
    match slot.defines {
        None => false,
        Some(definition) => definition.address == u32::from(address),
    }
}

/// The first card that defines a name at just this address.
fn defining(slots: &[Slot], address: u16) -> Option<&Slot>
    ensures { option_copied result ≡ find (λ slot. is_at address slot.defines) slots.now }
{
    slots.iter().find(|slot| is_at(slot, address))
}

/// The name of the first card that defines one at just this address.
#[tactic(auto, unfolding(crate::specs::Texts::name_at))]
pub(crate) fn name_at(slots: &[Slot], address: u16) -> Option<Name>
    ensures { result ≡ name_at slots.now address }
{
    let slot = defining(slots, address)?;
    Some(slot.defines?.name)
}

/// Adds a name: its letters and digits.
pub(crate) fn push_name(text: &mut Vec<Code>, name: &Name) -> Result<(), AllocError>
    ensures { OnOk result (text.new.items ≡ text.old.items ++ word name.now.characters) }
{
    let characters = &name.characters[..];
    text.extend_from_slice(&characters[..Class::Filled.run(characters)])
}
