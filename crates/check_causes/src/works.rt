//! Why an operation on fields is stopped.

ghost use Rattle.std.specs.Prelude.{◌≡◌, ◌+◌, ◌-◌, ◌<◌, ◌≤◌, ℕ, IsOk, IfOk};
ghost use Rattle.core_store.specs.Storage.{largest_size};
ghost use Rattle.check_causes.specs.Fields.{field_told, sum_told, copy_told, comparison_told, modification_told, move_told, mark_told, load_told, suppression_told, edit_told};

use crate::causes::Cause;
use crate::digits::{test_digits, test_number};
use crate::places::{
    counts, counts_apart, known_cut, known_length, move_length, test_apart, test_places, test_room,
    test_three,
};
use core_store::{Core, overlaps};
use moves::{data_count, shares};

/// Why the fields at A and B cannot be added or subtracted.
#[tactic(auto, unfolding(crate::specs::Fields::sum_told))]
pub(crate) fn test_sum<C: Core>(core: &C, a: u16, b: u16) -> Result<(), Cause>
    ensures { result ≡ sum_told (C.cells core.now) a b }
{
    let counts = counts_apart(core, a, b)?;
    test_digits(core, a, counts.a)?;
    test_digits(core, b, counts.b)
}

/// Why the number at A cannot be copied to the field at B.
#[tactic(auto, unfolding(crate::specs::Fields::copy_told))]
pub(crate) fn test_copy<C: Core>(core: &C, a: u16, b: u16) -> Result<(), Cause>
    ensures { result ≡ copy_told (C.cells core.now) a b }
{
    let counts = counts_apart(core, a, b)?;
    test_digits(core, a, counts.a)
}

/// Why the fields at A and B cannot be compared.
#[tactic(auto, unfolding(crate::specs::Fields::comparison_told))]
pub(crate) fn test_comparison<C: Core>(core: &C, a: u16, b: u16) -> Result<(), Cause>
    ensures { result ≡ comparison_told (C.cells core.now) a b }
{
    let _counts = counts(core, a, b)?;
    Ok(())
}

/// Why the address at A cannot be added to the one at B.
#[tactic(auto, unfolding(crate::specs::Fields::modification_told))]
pub(crate) fn test_modification<C: Core>(core: &C, a: u16, b: u16) -> Result<(), Cause>
    ensures { result ≡ modification_told (C.cells core.now) a b }
{
    test_three(core, a)?;
    test_three(core, b)?;
    test_number(core, a)?;
    test_number(core, b)
}

/// Why the characters at A cannot be moved to B.
#[tactic(auto, unfolding(crate::specs::Fields::move_told))]
pub(crate) fn test_move<C: Core>(core: &C, a: u16, b: u16) -> Result<(), Cause>
    ensures { result ≡ move_told (C.cells core.now) a b }
{
    test_places(core, a, b)?;
    let count = move_length(core, a, b)?;
    test_room(count, a)?;
    test_room(count, b)
}

/// The length of the field at A, or why it cannot be copied to B.
#[tactic(auto, unfolding(crate::specs::Fields::field_told))]
fn known_field<C: Core>(core: &C, a: u16, b: u16) -> Result<u16, Cause>
    ensures length { result ≡ field_told (C.cells core.now) a b }
    ensures below { IsOk result → (a < largest_size) × (b < largest_size) }
    ensures room { IfOk result (λ count. count ≤ a + 1) }
{
    test_places(core, a, b)?;
    let count = known_length(core, a)?;
    test_room(count, b)?;
    Ok(count)
}

/// Whether the mark of a field that is loaded is read before it is written over.
#[tactic(auto, unfolding(crate::specs::Fields::mark_told))]
fn test_mark(a: u16, b: u16, count: u16) -> Result<(), Cause>
    requires below { a < largest_size }
    requires room { count ≤ a + 1 }
    ensures { result ≡ mark_told a b count }
{
    if overlaps(a, b, count) {
        Err(Cause::MarkWrittenOver(a + 1 - count))
    } else {
        Ok(())
    }
}

/// Why the field at A cannot be loaded at B.
#[tactic(auto, unfolding(crate::specs::Fields::load_told, crate::specs::Fields::field_told))]
pub(crate) fn test_load<C: Core>(core: &C, a: u16, b: u16) -> Result<(), Cause>
    ensures { result ≡ load_told (C.cells core.now) a b }
{
    let count = known_field(core, a, b)?;
    test_mark(a, b, count)
}

/// Why the field at A cannot be moved to B without its leading zeros.
#[tactic(auto, unfolding(crate::specs::Fields::suppression_told, crate::specs::Fields::field_told))]
pub(crate) fn test_suppression<C: Core>(core: &C, a: u16, b: u16) -> Result<(), Cause>
    ensures { result ≡ suppression_told (C.cells core.now) a b }
{
    let count = known_field(core, a, b)?;
    test_apart(overlaps(a, b, count))
}

/// Why the amount at A cannot be edited by the control field at B.
#[tactic(auto, unfolding(crate::specs::Fields::edit_told, crate::specs::Fields::places_wanted))]
pub(crate) fn test_edit<C: Core>(core: &C, a: u16, b: u16) -> Result<(), Cause>
    ensures { result ≡ edit_told (C.cells core.now) a b }
{
    test_places(core, a, b)?;
    let b_count = known_length(core, b)?;
    let a_count = known_cut(core, a, data_count(core, b, b_count))?;
    test_apart(shares(a, a_count, b, b_count))
}
