//! The addresses that an instruction works at.

ghost use Rattle.std.specs.Prelude.{◌≡◌, ◌+◌, ◌<◌, ◌≤◌, ℕ, length, slice_index, Some};
ghost use Rattle.core_store.specs.Storage.{codes_from, largest_size};
ghost use Rattle.addresses.specs.Addresses.{Tagged};
ghost use Rattle.check_causes.specs.Reading.{with_index_told, position_told, operand_told, operand_told_at, operands_told};

use crate::causes::Cause;
use crate::words::sign;
use addresses::{IndexLocation, Tagged, base_ending, decode};
use bcd::Code;
use core_store::{Core, LARGEST_SIZE, Registers};
use machine::{Word, character};

/// A base plus the number at an index location, modulo 16000, or why it cannot be added.
#[tactic(auto, unfolding(crate::specs::Reading::with_index_told))]
fn with_index<C: Core>(core: &C, base: u16, location: IndexLocation) -> Result<u16, Cause>
    ensures { result ≡ with_index_told (C.cells core.now) base (Some location) }
{
    let units = location.units_position();
    if units >= core.size() {
        return Err(Cause::AddressPast(units));
    }
    let Some(index) = base_ending(core, units) else {
        return Err(Cause::NoIndex(units));
    };
    Ok(((base as u32 + index as u32) % LARGEST_SIZE as u32) as u16)
}

/// The number that an address represents, or why it represents none.
#[tactic(auto, unfolding(crate::specs::Reading::with_index_told))]
fn number<C: Core>(core: &C, address: Tagged) -> Result<u16, Cause>
    ensures { result ≡ with_index_told (C.cells core.now) address.base address.index }
{
    match address.index {
        None => Ok(address.base),
        Some(location) => with_index(core, address.base, location),
    }
}

/// The position that an address names, or why it names none.
#[tactic(auto, unfolding(crate::specs::Reading::position_told))]
fn position<C: Core>(core: &C, address: Tagged) -> Result<u16, Cause>
    ensures { result ≡ position_told (C.cells core.now) address }
{
    let position = number(core, address)?;
    if position < core.size() {
        Ok(position)
    } else {
        Err(Cause::AddressPast(position))
    }
}

/// The position that three characters name as an address, or why they name none.
#[tactic(auto, unfolding(crate::specs::Reading::operand_told))]
fn operand<C: Core>(core: &C, first: Code, second: Code, third: Code) -> Result<u16, Cause>
    ensures { result ≡ operand_told (C.cells core.now) first second third }
{
    let Some(address) = decode([first, second, third]) else {
        return Err(Cause::NoAddress(sign(first), sign(second), sign(third)));
    };
    position(core, address)
}

/// The position that the three characters from an index of an instruction on name, or why they name
/// none.
#[tactic(auto, unfolding(crate::specs::Reading::operand_told_at))]
fn operand_at<C: Core>(core: &C, word: Word, place: u16) -> Result<u16, Cause>
    requires within { word.first + word.length ≤ length (C.cells core.now) }
    requires below { word.first < largest_size }
    requires among { place + 3 ≤ word.length }
    requires most { word.length ≤ 8 }
    ensures { result ≡ operand_told_at (C.cells core.now)
        (codes_from (C.cells core.now) word.first word.length) place }
{
    operand(
        core,
        character(core, word, place),
        character(core, word, place + 1),
        character(core, word, place + 2),
    )
}

/// The positions that an instruction with so many addresses works at, or why one of its addresses
/// names none.
#[tactic(auto, unfolding(crate::specs::Reading::operands_told))]
pub(crate) fn operands<C: Core>(
    core: &C,
    registers: &Registers,
    word: Word,
    count: u16,
) -> Result<(u16, u16), Cause>
    requires within { word.first + word.length ≤ length (C.cells core.now) }
    requires below { word.first < largest_size }
    requires one { 0 < count → 4 ≤ word.length }
    requires two { 1 < count → 7 ≤ word.length }
    requires most { word.length ≤ 8 }
    ensures { result ≡ operands_told (C.cells core.now) count registers.now
        (codes_from (C.cells core.now) word.first word.length) }
{
    if count == 0 {
        return Ok((registers.a, registers.b));
    }
    let first = operand_at(core, word, 1)?;
    if count == 1 {
        return Ok((first, first));
    }
    let second = operand_at(core, word, 4)?;
    Ok((first, second))
}
