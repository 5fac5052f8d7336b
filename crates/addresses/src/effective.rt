//! The effective position of an address in a storage.

ghost use Rattle.std.specs.Prelude.{◌≡◌, ◌<◌, ◌≤◌, ℕ, nat_lt, length, Some, IfSome, Ok, IfOk};
ghost use Rattle.core_store.specs.{
  Checked.{require},
  declared.checks.Check.TheVariants.{Address},
  Storage.{largest_size},
};
ghost use Rattle.addresses.specs.Effective.{base_ending, with_index, effective, position_of};

use crate::tables::{UNREADABLE, base};
use crate::tagged::{IndexLocation, Tagged};
use core_store::{Check, Core, LARGEST_SIZE};

/// The base of the three characters that end at a position, whatever their tag, if they are an
/// address.
#[tactic(auto, unfolding(crate::specs::Effective::base_ending))]
pub fn base_ending<C: Core>(core: &C, position: u16) -> Option<u16>
    requires within { position < length (C.cells core.now) }
    requires from { 2 ≤ position }
    ensures base { result ≡ base_ending (C.cells core.now) position }
    ensures below { IfSome result (λ base. base < largest_size) }
{
    let base = base(
        core.get(position - 2),
        core.get(position - 1),
        core.get(position),
    );
    if base < UNREADABLE { Some(base) } else { None }
}

/// A base plus the number at an index location, modulo 16000.
#[inline(always)]
#[tactic(auto, unfolding(crate::specs::Effective::with_index))]
fn with_index<C: Core>(core: &C, base: u16, location: IndexLocation) -> Result<u16, Check>
    ensures number { result ≡ with_index (C.cells core.now) base (Some location) }
    ensures below { IfOk result (λ number. number < largest_size) }
{
    let units = location.units_position();
    if units >= core.size() {
        return Err(Check::Address);
    }
    let Some(index) = base_ending(core, units) else {
        return Err(Check::Address);
    };
    Ok(((base as u32 + index as u32) % LARGEST_SIZE as u32) as u16)
}

/// The number that an address represents, always below 16000: its base, plus the number at its
/// index location if it names one. Check ADDRESS if the index location cannot be read.
#[tactic(auto, unfolding(crate::specs::Effective::with_index))]
pub fn indexed<C: Core>(core: &C, tagged: Tagged) -> Result<u16, Check>
    ensures number { result ≡ effective (C.cells core.now) tagged }
    ensures below { IfOk result (λ number. number < largest_size) }
{
    match tagged.index {
        None => Ok(tagged.base),
        Some(location) => with_index(core, tagged.base, location),
    }
}

/// The position that an address with an index location represents. It is outside the storage if the
/// index location cannot be read.
#[inline(never)]
#[tactic(auto, unfolding(crate::specs::Effective::with_index))]
fn indexed_position<C: Core>(core: &C, base: u16, location: IndexLocation) -> u16
    ensures { position_of (C.cells core.now) (record { base = base; index = Some location })
        ≡ require (nat_lt result (length (C.cells core.now))) Address (Ok result) }
{
    match with_index(core, base, location) {
        Ok(position) => position,
        Err(_) => core.size(),
    }
}

/// The position of a storage that an address represents. Check ADDRESS if its index location cannot
/// be read or the position is outside the storage.
#[inline(always)]
#[tactic(auto, unfolding(crate::specs::Effective::with_index))]
pub fn position<C: Core>(core: &C, address: Tagged) -> Result<u16, Check>
    ensures position { result ≡ position_of (C.cells core.now) address }
    ensures inside { IfOk result (λ position. position < length (C.cells core.now)) }
    ensures below { IfOk result (λ position. position < largest_size) }
{
    let position = match address.index {
        None => address.base,
        Some(location) => indexed_position(core, address.base, location),
    };
    if position < core.size() {
        Ok(position)
    } else {
        Err(Check::Address)
    }
}
