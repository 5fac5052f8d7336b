//! A field moved up to a word mark.

ghost use Rattle.std.specs.Prelude.{◌≡◌, ◌+◌, ◌-◌, ◌<◌, ◌≤◌, ◌&&◌, ℕ, true, false, Some, length, nat_le, IfSome, IsTrue, Ok};
ghost use Rattle.core_store.specs.{
  Doing.{Does, DoesAt, DoesAtOrLeaves, DoesOrLeaves},
  Storage.{Storage, put_codes, largest_size},
  Operands.{is_overlapping, least_of, AreClear},
  declared.registers.Registers.{Registers},
};
ghost use Rattle.moves.specs.{
  Stretches.{AreIn, AreNear},
  Moved.{move_length, moved_codes, moved, IsMoved},
};

use crate::near::put_last;
use core_store::{Check, Core, Registers, are_clear, check_inside, field_length, lower, overlaps};

/// The smaller of two counts; if only one is present, that one.
#[inline(always)]
fn least_of(first: Option<u16>, second: Option<u16>) -> Option<u16>
    ensures { result ≡ least_of first second }
{
    match (first, second) {
        (Some(m), Some(n)) => Some(m.min(n)),
        (Some(m), None) => Some(m),
        (None, found) => found,
    }
}

/// The number of characters of a move, if there are at most sixteen and neither field is near
/// position 000.
#[inline(always)]
fn near_shared<C: Core>(core: &C, a: u16, b: u16) -> Option<u16>
    requires a_in { a < length (C.cells core.now) }
    requires b_in { b < length (C.cells core.now) }
    ensures length { IfSome result (λ count. move_length (C.cells core.now) a b ≡ Some count) }
{
    if a < 15 || b < 15 {
        return None;
    }
    near_minimum(core, a, b)
}

/// The number of characters of a move, if there are at most sixteen. A far mark of the other field
/// is not searched for.
#[inline(always)]
#[tactic(auto, using(crate::proofs::MovingEnds::near_shared))]
fn near_minimum<C: Core>(core: &C, a: u16, b: u16) -> Option<u16>
    requires a_in { a < length (C.cells core.now) }
    requires b_in { b < length (C.cells core.now) }
    requires a_room { 15 ≤ a }
    requires b_room { 15 ≤ b }
    ensures length { IfSome result (λ count. move_length (C.cells core.now) a b ≡ Some count) }
    ensures most { IfSome result (λ count. count ≤ 16) }
{
    let count = core.near_length(a).min(core.near_length(b));
    if count > 16 {
        return None;
    }
    Some(count)
}

/// The number of characters of a move, searched for in both fields side by side. Each field is
/// searched by itself only if one of the two passes position 000 before a mark.
#[tactic(auto, using(crate::proofs::MovingEnds::far_shared), unfolding(crate::specs::Moved::move_length))]
fn far_length<C: Core>(core: &C, a: u16, b: u16) -> Option<u16>
    requires a_in { a < length (C.cells core.now) }
    requires b_in { b < length (C.cells core.now) }
    requires a_below { a < largest_size }
    requires b_below { b < largest_size }
    ensures { result ≡ move_length (C.cells core.now) a b }
{
    match core.shared_length(a, b) {
        Some(count) => Some(count),
        None => least_of(field_length(core, a), field_length(core, b)),
    }
}

/// The number of characters of a move: up to the first mark in either field.
#[inline(always)]
#[tactic(auto, unfolding(crate::specs::Moved::move_length))]
pub fn move_length<C: Core>(core: &C, a: u16, b: u16) -> Option<u16>
    requires a_in { a < length (C.cells core.now) }
    requires b_in { b < length (C.cells core.now) }
    requires a_below { a < largest_size }
    requires b_below { b < largest_size }
    ensures { result ≡ move_length (C.cells core.now) a b }
{
    match near_shared(core, a, b) {
        Some(count) => Some(count),
        None => far_length(core, a, b),
    }
}

/// Whether `count` characters that end at A and at B do not pass position 000.
#[inline(always)]
fn have_room(a: u16, b: u16, count: u16) -> bool
    requires a { a < largest_size }
    requires b { b < largest_size }
    ensures room { result ≡ (nat_le count (a + 1) && nat_le count (b + 1)) }
    ensures within { IsTrue result → (count ≤ a + 1) × (count ≤ b + 1) }
{
    count <= a + 1 && count <= b + 1
}

/// Copies the characters that end at A to those that end at B: all at once if no character is
/// overwritten before it is copied, else one by one from the right.
#[tactic(auto, using(crate::proofs::MovingLemmas::move_none, crate::proofs::MovingLemmas::moved_apart))]
fn copy_codes<C: Core>(core: &mut C, a: u16, b: u16, count: u16)
    requires stretches { AreIn (C.cells core.old) a b count count }
    ensures { C.cells core.new
        ≡ put_codes (C.cells core.old) (b + 1 - count) (moved_codes (C.cells core.old) a b count) }
{
    if !overlaps(a, b, count) {
        core.move_codes(a, b, count);
        return;
    }
    for i in 0..count {
        let code = core.get(a - i);
        core.put(b - i, code);
    }
}

/// Copies at most sixteen characters at once.
#[inline(always)]
#[tactic(auto, using(crate::proofs::LaneLemmas::near_long))]
fn move_near<C: Core>(core: &mut C, a: u16, b: u16, count: u16)
    requires near { AreNear (C.cells core.old) a b count }
    requires apart { is_overlapping a b count ≡ false }
    ensures { C.cells core.new
        ≡ put_codes (C.cells core.old) (b + 1 - count) (moved_codes (C.cells core.old) a b count) }
{
    let codes = core.near_codes(a);
    put_last(core, b, count, codes);
}

/// Moves as `move_field` does, at most sixteen characters, all at once, between fields that end at
/// A and B, clear of position 000, if none is overwritten before it is copied. Returns whether it
/// did; if not, nothing is changed.
#[inline(always)]
pub fn move_clear<C: Core>(core: &mut C, registers: &mut Registers, a: u16, b: u16) -> bool
    requires { AreClear (C.cells core.old) a b }
    ensures { DoesAtOrLeaves result (C.cells core.old) registers.old a b
        (C.cells core.new) registers.new moved }
{
    let Some(count) = near_minimum(core, a, b) else {
        return false;
    };
    if overlaps(a, b, count) {
        return false;
    }
    move_near(core, a, b, count);
    registers.pass(a, count, b, count);
    true
}

/// Moves so if the fields at registers A and B are clear of position 000.
#[inline(always)]
fn move_at_once<C: Core>(core: &mut C, registers: &mut Registers) -> bool
    ensures { DoesOrLeaves result (C.cells core.old) registers.old
        (C.cells core.new) registers.new moved }
{
    let Registers { a, b, .. } = *registers;
    if !are_clear(core, a, b) {
        return false;
    }
    move_clear(core, registers, a, b)
}

/// Moves characters from the field at A to the field at B, up to the first mark in either. Marks
/// stay. Check ADDRESS if A or B is outside the storage or a field would pass position 000.
pub fn move_field<C: Core>(core: &mut C, registers: &mut Registers) -> Result<(), Check>
    ensures { Does result (C.cells core.old) registers.old
        (C.cells core.new) registers.new moved }
{
    if move_at_once(core, registers) {
        return Ok(());
    }
    let Registers { a, b, .. } = *registers;
    move_at(core, registers, a, b)
}

/// Moves as `move_field` does, fields of any length that end at A and B.
#[inline(never)]
#[tactic(auto, unfolding(crate::specs::Moved::moved))]
pub fn move_at<C: Core>(
    core: &mut C,
    registers: &mut Registers,
    a: u16,
    b: u16,
) -> Result<(), Check>
    ensures { DoesAt result (C.cells core.old) registers.old a b
        (C.cells core.new) registers.new moved }
{
    check_inside(core, a, b)?;
    let count = move_length(core, a, b).ok_or(Check::Address)?;
    if !have_room(a, b, count) {
        return Err(Check::Address);
    }
    copy_codes(core, a, b, count);
    registers.a = lower(a, count);
    registers.b = lower(b, count);
    Ok(())
}

/// The law of a move: each position of the field at B holds the character of its source. All other
/// characters and all marks are unchanged.
pub fn moved_is_by_position()
    ensures { (s new : Storage) (r after : Registers) (count : ℕ) →
        move_length s r.a r.b ≡ Some count → moved s r ≡ Ok (new, after) →
        IsMoved s r.a r.b count new }
{}
