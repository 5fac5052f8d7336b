//! The names of a source: how they are shown, and which card defines one.

ghost use Rattle.std.specs.Prelude.{◌≡◌, ◌<◌, ◌++◌, length, position, count_by, IfSome, OnOk};
ghost use Rattle.autocoder_layout.specs.Names.{defines};
ghost use Rattle.source_reports.specs.Names.{name_text, first_card, differences, defines_near, known_at, near_name};

use autocoder::push_glyphs;
use autocoder_layout::Slot;
use autocoder_statements::{Class, Name};
use bcd::Code;
use std::alloc::AllocError;

/// A name, and the card that defines it.
#[derive(Clone, Copy)]
pub(crate) struct Known {
    /// The name.
    pub(crate) name: Name,
    /// The card's number, from 1.
    pub(crate) card: usize,
}

/// Adds a name as it is shown: its letters and digits. Fails only if there is no memory.
pub fn push_name(text: &mut Vec<u8>, name: &Name) -> Result<(), AllocError>
    ensures { OnOk result (text.new.items ≡ text.old.items ++ name_text name.now) }
{
    let characters = &name.characters[..];
    push_glyphs(text, &characters[..Class::Filled.run(characters)])
}

/// The index of the first of these cards that defines a name.
fn first_index(slots: &[Slot], name: &Name) -> Option<usize>
    ensures index { result ≡ position (defines name.now) slots.now }
    ensures within { IfSome result (λ index. index < length slots.now) }
{
    slots.iter().position(|slot| slot.defines(name))
}

/// The number of the first of these cards that defines a name.
pub(crate) fn first_card(slots: &[Slot], name: &Name) -> Option<usize>
    ensures { result ≡ first_card name.now slots.now }
{
    match first_index(slots, name) {
        None => None,
        Some(index) => Some(index + 1),
    }
}

/// In how many characters two names differ.
fn differences(one: &[Code], other: &[Code]) -> usize
    ensures { result ≡ differences one.now other.now }
{
    one.iter()
        .zip(other.iter())
        .filter(|(one, other)| **one != **other)
        .count()
}

/// Whether a card defines a name that differs from this one in one character.
fn defines_near(slot: &Slot, name: &Name) -> bool
    ensures { result ≡ defines_near name.now slot.now }
{
    match slot.defines {
        None => false,
        Some(definition) => differences(&definition.name.characters, &name.characters) == 1,
    }
}

/// How many of these cards define a name that differs from this one in one character.
fn count_near(slots: &[Slot], name: &Name) -> usize
    ensures { result ≡ count_by (defines_near name.now) slots.now }
{
    slots.iter().filter(|slot| defines_near(slot, name)).count()
}

/// The index of the first of these cards that defines a name that differs from this one in one
/// character.
fn near_index(slots: &[Slot], name: &Name) -> Option<usize>
    ensures index { result ≡ position (defines_near name.now) slots.now }
    ensures within { IfSome result (λ index. index < length slots.now) }
{
    slots.iter().position(|slot| defines_near(slot, name))
}

/// The name that the card of this index defines.
fn known_at(slots: &[Slot], index: usize) -> Option<Known>
    requires { index < length slots.now }
    ensures { result ≡ known_at slots.now index }
{
    let slot = &slots[index];
    match slot.defines {
        None => None,
        Some(definition) => Some(Known {
            name: definition.name,
            card: index + 1,
        }),
    }
}

/// The defined name that differs from this one in one character, if there is exactly one.
#[tactic(auto, unfolding(crate::specs::Names::near_name))]
pub(crate) fn near_name(slots: &[Slot], name: &Name) -> Option<Known>
    ensures { result ≡ near_name name.now slots.now }
{
    if count_near(slots, name) != 1 {
        return None;
    }
    match near_index(slots, name) {
        None => None,
        Some(index) => known_at(slots, index),
    }
}
