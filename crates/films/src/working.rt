//! Where the instruction of a step works.

ghost use Rattle.std.specs.Prelude.{◌≡◌, ◌+◌, ◌≤◌, ◌||◌, length, codes};
ghost use Rattle.core_store.specs.Storage.{largest_size};
ghost use Rattle.machine.specs.{Glyphs.{is_glyph}, Instructions.{operation_by}};
ghost use Rattle.films.specs.Worked.{last_named, named_at, sum_of, work_by, work_in, work_of};

use addresses::{decode, position};
use bcd::Code;
use check_causes::{fields_of, word_length};
use core_store::Core;
use machine::Parts;

/// Where an instruction works, if no check stops it.
#[derive(Clone, Copy)]
pub(crate) enum Work {
    /// At no position that a film shows.
    Nowhere,
    /// At the fields that end at these positions.
    AtFields(u16, u16),
    /// In the areas of units, by the sum of their numbers.
    InAreas(u8),
    /// It clears the positions of a hundred up to this one.
    Clears(u16),
    /// It writes an address that ends at this position.
    Writes(u16),
    /// It tests this position.
    Tests(u16),
}

/// The units that work in the operation that a character names, by the sum of their numbers; 0 if
/// none does.
fn sum_of(first: Code) -> u8
    ensures { result ≡ sum_of (operation_by first) }
{
    if first.number() < 8 {
        first.number()
    } else {
        0
    }
}

/// The position that the three characters from a position on name as an address, if they name one.
#[tactic(auto, unfolding(addresses::specs::Effective::operand))]
fn named_at<C: Core>(core: &C, p: u16) -> Option<u16>
    requires inside { p + 3 ≤ length (C.cells core.now) }
    requires below { p + 3 ≤ largest_size }
    ensures { result ≡ named_at (C.cells core.now) p }
{
    let address = decode([core.get(p), core.get(p + 1), core.get(p + 2)])?;
    match position(core, address) {
        Ok(position) => Some(position),
        Err(_) => None,
    }
}

/// The position that the last address of the next instruction names, if it names one; the one in
/// register B if it has no address.
fn last_named<C: Core>(parts: &Parts<C>, count: u16) -> Option<u16>
    requires inside { parts.now.works.registers.i + count ≤ length parts.now.works.storage }
    requires below { parts.now.works.registers.i + count ≤ largest_size }
    ensures { result ≡ last_named parts.now.works count }
{
    if count < 4 {
        return Some(parts.registers.b);
    }
    if count < 7 {
        return named_at(&parts.core, parts.registers.i + 1);
    }
    named_at(&parts.core, parts.registers.i + 4)
}

/// Whether a character is one of the operations that write an address.
fn writes(first: Code) -> bool
    ensures { result ≡ (is_glyph first (codes "H") || is_glyph first (codes "Q")) }
{
    first.glyph() == b'H' || first.glyph() == b'Q'
}

/// Whether a character is one of the operations that test a position where they have eight
/// characters.
fn may_test(first: Code) -> bool
    ensures { result ≡ (is_glyph first (codes "B") || is_glyph first (codes "V")) }
{
    first.glyph() == b'B' || first.glyph() == b'V'
}

/// Where an instruction of so many characters works, but for fields, by the first of them and the
/// position that its last address names.
fn work_by(first: Code, count: u16, position: u16) -> Work
    ensures { result ≡ work_by first count position }
{
    if first.glyph() == b'/' {
        return Work::Clears(position);
    }
    if writes(first) {
        return Work::Writes(position);
    }
    if may_test(first) && count == 8 {
        return Work::Tests(position);
    }
    Work::Nowhere
}

/// Where the next instruction works, of so many characters, but for fields.
#[tactic(auto, unfolding(crate::specs::Worked::work_in))]
fn work_in<C: Core>(parts: &Parts<C>, count: u16) -> Work
    requires inside { parts.now.works.registers.i + count ≤ length parts.now.works.storage }
    requires below { parts.now.works.registers.i + count ≤ largest_size }
    requires some { 1 ≤ count }
    ensures { result ≡ work_in parts.now.works count }
{
    let first = parts.core.get(parts.registers.i);
    let sum = sum_of(first);
    if sum != 0 {
        return Work::InAreas(sum);
    }
    match last_named(parts, count) {
        Some(position) => work_by(first, count, position),
        None => Work::Nowhere,
    }
}

/// Where the instruction works that a machine attempts next.
#[tactic(auto, unfolding(crate::specs::Worked::work_of))]
pub(crate) fn work_of<C: Core>(parts: &Parts<C>) -> Work
    ensures { result ≡ work_of parts.now.works }
{
    if let Some((a, b)) = fields_of(parts) {
        return Work::AtFields(a, b);
    }
    let _limit = parts.core.size();
    match word_length(&parts.core, parts.registers.i) {
        Some(count) => work_in(parts, count),
        None => Work::Nowhere,
    }
}
