//! Fields of at most sixteen characters, written at once.

ghost use Rattle.std.specs.Prelude.{◌≡◌, ◌+◌, ◌-◌, ◌<◌, ◌≤◌, ℕ, All, drop, length, nat_le, not, true, false, Some, Ok, IfSome, IfOk};
ghost use Rattle.core_store.specs.{
  Storage.{field_length, put_codes, largest_size},
  Operands.{are_inside, is_overlapping},
  Checked.{require, find_or},
  declared.checks.Check.TheVariants.{Address},
};
ghost use Rattle.moves.specs.{Stretches.{IsIn}, Suppressed.{unmarked}};

use core_store::{Check, Core, check_inside, field_length, last_of, overlaps};
use std::simd::prelude::*;

/// Writes the last `count` of sixteen characters to the positions that end at B. Marks stay.
#[inline(always)]
#[tactic(auto, using(crate::proofs::LaneLemmas::near_long, crate::proofs::LaneLemmas::last_put, crate::proofs::LaneLemmas::lanes_long, crate::proofs::LaneLemmas::lanes_below, crate::proofs::Copying::put_codes_long))]
pub fn put_last<C: Core>(core: &mut C, b: u16, count: u16, codes: u8x16)
    requires within { b < length (C.cells core.old) }
    requires room { 15 ≤ b }
    requires most { count ≤ 16 }
    requires sixteen { length codes ≡ 16 }
    requires below { All (λ code. code < 64) codes }
    ensures codes { C.cells core.new ≡ put_codes (C.cells core.old) (b + 1 - count)
        (drop (16 - count) codes) }
    ensures size { length (C.cells core.new) ≡ length (C.cells core.old) }
{
    let lanes = last_of(count, codes, core.near_codes(b));
    core.put_near_codes(b, lanes);
}

/// Clears the marks of `count` positions that end at B.
#[tactic(auto, using(crate::proofs::Copying::unmark_step, crate::proofs::Copying::unmark_none, crate::proofs::Copying::length_with_mark))]
pub fn clear_marks<C: Core>(core: &mut C, b: u16, count: u16)
    requires { IsIn (C.cells core.old) b count }
    ensures marks { C.cells core.new ≡ unmarked (C.cells core.old) (b + 1 - count) count }
    ensures size { length (C.cells core.new) ≡ length (C.cells core.old) }
{
    for i in 0..count {
        core.clear_mark(b - i);
    }
}

/// Clears the marks of at most sixteen positions that end at B, if one of them has a mark.
#[inline(always)]
#[tactic(auto, using(crate::proofs::NearLemmas::none_to_clear))]
pub fn clear_near_marks<C: Core>(core: &mut C, b: u16, count: u16)
    requires within { b < length (C.cells core.old) }
    requires room { 15 ≤ b }
    requires most { count ≤ 16 }
    requires below { b < largest_size }
    ensures marks { C.cells core.new ≡ unmarked (C.cells core.old) (b + 1 - count) count }
    ensures size { length (C.cells core.new) ≡ length (C.cells core.old) }
{
    if core.near_length(b) <= count {
        clear_marks(core, b, count);
    }
}

/// The number of characters of the field at A, if it has at most sixteen and none of them is
/// overwritten before it is read when the field is copied to B. `None` says nothing about the
/// field.
#[inline(always)]
#[tactic(auto, using(crate::proofs::NearLemmas::near_field))]
pub fn clear_field<C: Core>(core: &C, a: u16, b: u16) -> Option<u16>
    requires within { a < length (C.cells core.now) }
    requires room { 15 ≤ a }
    ensures field { IfSome result (λ count. field_length (C.cells core.now) a ≡ Some count) }
    ensures most { IfSome result (λ count. count ≤ 16) }
    ensures apart { IfSome result (λ count. is_overlapping a b count ≡ false) }
{
    let count = core.near_length(a);
    if count > 16 || overlaps(a, b, count) {
        return None;
    }
    Some(count)
}

/// The number of characters of the field at A, of any length. Check ADDRESS if A or B is outside
/// the storage, or if the field would pass position 000 at A or, copied, at B; `overlap` if, copied
/// to B, it would be overwritten before it is read.
#[inline(always)]
pub fn far_field<C: Core>(core: &C, a: u16, b: u16, overlap: Check) -> Result<u16, Check>
    ensures field { result ≡ require (are_inside (C.cells core.now) a b) Address
        (find_or (field_length (C.cells core.now) a) Address (λ count.
        require (nat_le count (b + 1)) Address
        (require (not (is_overlapping a b count)) overlap (Ok count)))) }
    ensures within { IfOk result (λ count. (a < length (C.cells core.now))
        × (b < length (C.cells core.now)) × (a < largest_size) × (b < largest_size)) }
    ensures room { IfOk result (λ count. (count ≤ a + 1) × (count ≤ b + 1)) }
    ensures apart { IfOk result (λ count. is_overlapping a b count ≡ false) }
{
    check_inside(core, a, b)?;
    let count = field_length(core, a).ok_or(Check::Address)?;
    if count > b + 1 {
        return Err(Check::Address);
    }
    if overlaps(a, b, count) {
        return Err(overlap);
    }
    Ok(count)
}
