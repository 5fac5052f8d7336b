//! The operands of an operation: how long they are, and whether they overlap.

ghost use Rattle.std.specs.Prelude.{◌≡◌, ◌+◌, ◌<◌, ◌≤◌, ℕ, true, false, length, IsTrue, IfSome, IfErr, OnOk};
ghost use Rattle.bcd.specs.Table.{zone_of};
ghost use Rattle.core_store.specs.{
  Storage.{code_at, field_length, largest_size},
  Operands.{are_inside, is_overlapping, cut_length, is_minus_zone, are_clear, AreClear},
  declared.checks.Check.TheVariants.{Address},
};

use crate::{Check, Core};
use bcd::Zone;

/// Whether both are positions of the storage.
#[inline(always)]
pub fn are_inside<C: Core>(core: &C, a: u16, b: u16) -> bool
    ensures inside { result ≡ are_inside (C.cells core.now) a b }
    ensures below { IsTrue result → (a < length (C.cells core.now))
        × (b < length (C.cells core.now)) × (a < largest_size) × (b < largest_size) }
{
    a < core.size() && b < core.size()
}

/// Whether both are positions of the storage, with more than sixteen characters up to each.
#[inline(always)]
pub fn are_clear<C: Core>(core: &C, a: u16, b: u16) -> bool
    ensures clear { result ≡ are_clear (C.cells core.now) a b }
    ensures known { IsTrue result → AreClear (C.cells core.now) a b }
{
    are_inside(core, a, b) && a >= 16 && b >= 16
}

/// Fails with check ADDRESS unless both are positions of the storage.
#[inline(always)]
pub fn check_inside<C: Core>(core: &C, a: u16, b: u16) -> Result<(), Check>
    ensures inside { OnOk result (are_inside (C.cells core.now) a b ≡ true) }
    ensures below { OnOk result ((a < length (C.cells core.now))
        × (b < length (C.cells core.now)) × (a < largest_size) × (b < largest_size)) }
    ensures check { IfErr result (λ check. (check ≡ Address)
        × (are_inside (C.cells core.now) a b ≡ false)) }
{
    if are_inside(core, a, b) {
        Ok(())
    } else {
        Err(Check::Address)
    }
}

/// Whether some of `count` characters at A are overwritten by those put at B before they are read.
#[inline(always)]
pub fn overlaps(a: u16, b: u16, count: u16) -> bool
    ensures { result ≡ is_overlapping a b count }
{
    b < a && a - b < count
}

/// The number of characters of the field at a position, if a mark begins it.
#[inline(always)]
#[tactic(auto, unfolding(crate::specs::Storage::field_length), using(crate::proofs::NearMarks::near_is_field))]
pub fn field_length<C: Core>(core: &C, position: u16) -> Option<u16>
    requires within { position < length (C.cells core.now) }
    requires below { position < largest_size }
    ensures length { result ≡ field_length (C.cells core.now) position }
    ensures within { IfSome result (λ count. (1 ≤ count) × (count ≤ position + 1)) }
{
    if position >= 15 {
        let near = core.near_length(position);
        if near <= 16 {
            return Some(near);
        }
    }
    match core.mark_at_or_below(position) {
        Some(first) => Some(position + 1 - first),
        None => None,
    }
}

/// The number of characters read at a position, at most `limit`, found one by one.
fn cut_by_steps<C: Core>(core: &C, position: u16, limit: u16) -> Option<u16>
    requires within { position < length (C.cells core.now) }
    requires below { position < largest_size }
    requires some { 1 ≤ limit }
    ensures length { result ≡ cut_length (C.cells core.now) position limit }
    ensures within { IfSome result (λ count. (1 ≤ count) × (count ≤ limit)
        × (count ≤ position + 1)) }
{
    for count in 0..limit {
        if count > position {
            return None;
        }
        if core.is_marked(position - count) {
            return Some(count + 1);
        }
    }
    Some(limit)
}

/// The number of characters read at a position, at most `limit`: up to the first mark. No mark is
/// searched for beyond the limit.
#[inline(always)]
#[tactic(auto, using(crate::proofs::NearMarks::cut_is_near))]
pub fn cut_length<C: Core>(core: &C, position: u16, limit: u16) -> Option<u16>
    requires within { position < length (C.cells core.now) }
    requires below { position < largest_size }
    requires some { 1 ≤ limit }
    ensures length { result ≡ cut_length (C.cells core.now) position limit }
    ensures within { IfSome result (λ count. (1 ≤ count) × (count ≤ limit)
        × (count ≤ position + 1)) }
{
    if position >= 15 && limit <= 16 {
        let near = core.near_length(position);
        return Some(near.min(limit));
    }
    cut_by_steps(core, position, limit)
}

/// Whether the field that has its units at a position is negative.
#[inline(always)]
pub fn is_minus<C: Core>(core: &C, position: u16) -> bool
    requires { position < length (C.cells core.now) }
    ensures { result ≡ is_minus_zone (zone_of (code_at (C.cells core.now) position)) }
{
    core.get(position).zone() == Zone::B
}
