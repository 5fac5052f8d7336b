//! Compare, by the ranks of characters.

ghost use Rattle.std.specs.{
  Prelude.{◌≡◌, ◌+◌, ◌<◌, ◌≤◌, ◌==◌, not, ℕ, List, true, false, length, Ok},
  Simd.Lanes.{mask_l, zip2},
};
ghost use Rattle.bcd.specs.Table.{rank_of};
ghost use Rattle.core_store.specs.{
  Doing.{Does, DoesAtOrLeaves, DoesOrLeaves},
  Operands.{AreClear},
  Storage.{code_at, codes_ending},
};
ghost use Rattle.arith.specs.{Operands.{AreCounts}, Order.{order, IsOrder, compared, comparison}};

use crate::operands::{Counts, clear_counts, counts_at};
use core_store::{Check, Compared, Core, Registers, are_clear};
use std::simd::prelude::*;

/// The rank of the character at a position.
#[inline(always)]
fn rank_at<C: Core>(core: &C, position: u16) -> u8
    requires { position < length (C.cells core.now) }
    ensures { result ≡ rank_of (code_at (C.cells core.now) position) }
{
    core.get(position).rank()
}

/// The order of two sequences of `count` characters that end at A and at B, one by one.
#[inline(always)]
fn order<C: Core>(core: &C, a: u16, b: u16, count: u16) -> Compared
    requires a_in { a < length (C.cells core.now) }
    requires b_in { b < length (C.cells core.now) }
    requires a_from { count ≤ a + 1 }
    requires b_from { count ≤ b + 1 }
    ensures { result ≡ order (codes_ending (C.cells core.now) a count)
        (codes_ending (C.cells core.now) b count) }
{
    for left in (0..count).rev() {
        let rank_a = rank_at(core, a - left);
        let rank_b = rank_at(core, b - left);
        if rank_b < rank_a {
            return Compared::Low;
        }
        if rank_a < rank_b {
            return Compared::High;
        }
    }
    Compared::Equal
}

/// Which of sixteen characters differ from those at the same places of others: bit 0 for the
/// leftmost.
#[inline(always)]
fn differences(a: u8x16, b: u8x16) -> u64
    requires a { length a ≡ 16 }
    requires b { length b ≡ 16 }
    ensures { result ≡ mask_l (zip2 (λ x y. not (x == y)) a b) }
{
    a.simd_ne(b).to_bitmask()
}

/// The order of two sequences of at most sixteen characters that end at A and at B, all at once.
#[inline(always)]
fn near_order<C: Core>(core: &C, a: u16, b: u16, count: u16) -> Compared
    requires a_in { a < length (C.cells core.now) }
    requires b_in { b < length (C.cells core.now) }
    requires a_room { 15 ≤ a }
    requires b_room { 15 ≤ b }
    requires some { 1 ≤ count }
    requires most { count ≤ 16 }
    ensures { result ≡ order (codes_ending (C.cells core.now) a count)
        (codes_ending (C.cells core.now) b count) }
{
    let differ = differences(core.near_codes(a), core.near_codes(b)) >> (16 - count);
    if differ == 0 {
        return Compared::Equal;
    }
    let left = count - 1 - differ.trailing_zeros() as u16;
    if rank_at(core, b - left) < rank_at(core, a - left) {
        Compared::Low
    } else {
        Compared::High
    }
}

/// The result of comparing the B field with the cut at A.
#[inline(always)]
fn comparison<C: Core>(core: &C, a: u16, b: u16, counts: Counts) -> Compared
    requires { AreCounts (C.cells core.now) a b counts.a counts.b }
    ensures { result ≡ comparison (codes_ending (C.cells core.now) a counts.a)
        (codes_ending (C.cells core.now) b counts.b) }
{
    if counts.a < counts.b {
        Compared::High
    } else {
        order(core, a, b, counts.b)
    }
}

/// The same where sixteen characters end at each position and the B field has at most that many.
#[inline(always)]
fn near_comparison<C: Core>(core: &C, a: u16, b: u16, counts: Counts) -> Compared
    requires counts { AreCounts (C.cells core.now) a b counts.a counts.b }
    requires a_room { 15 ≤ a }
    requires b_room { 15 ≤ b }
    requires most { counts.b ≤ 16 }
    ensures { result ≡ comparison (codes_ending (C.cells core.now) a counts.a)
        (codes_ending (C.cells core.now) b counts.b) }
{
    if counts.a == counts.b {
        near_order(core, a, b, counts.b)
    } else {
        Compared::High
    }
}

/// Compares as `compare` does, at most sixteen characters, all at once, of fields that end at A and
/// B, clear of position 000. Returns whether it did; if not, nothing is changed.
#[inline(always)]
#[tactic(auto, unfolding(crate::specs::Order::compared))]
pub fn compare_clear<C: Core>(core: &C, registers: &mut Registers, a: u16, b: u16) -> bool
    requires { AreClear (C.cells core.now) a b }
    ensures { DoesAtOrLeaves result (C.cells core.now) registers.old a b
        (C.cells core.now) registers.new compared }
{
    let Some(counts) = clear_counts(core, a, b) else {
        return false;
    };
    registers.compare = near_comparison(core, a, b, counts);
    registers.pass(a, counts.a, b, counts.b);
    true
}

/// Compares so if the fields at registers A and B are clear of position 000.
#[inline(always)]
fn compare_near<C: Core>(core: &C, registers: &mut Registers) -> bool
    ensures { DoesOrLeaves result (C.cells core.now) registers.old
        (C.cells core.now) registers.new compared }
{
    let Registers { a, b, .. } = *registers;
    if !are_clear(core, a, b) {
        return false;
    }
    compare_clear(core, registers, a, b)
}

/// Compares the cut at A with the B field, and sets the indicator. Storage is unchanged. Fails with
/// check ADDRESS as `counts_at` does.
pub fn compare<C: Core>(core: &mut C, registers: &mut Registers) -> Result<(), Check>
    ensures { Does result (C.cells core.old) registers.old
        (C.cells core.new) registers.new compared }
{
    if compare_near(core, registers) {
        return Ok(());
    }
    compare_far(core, registers)
}

/// Compares as `compare` does, fields of any length.
#[inline(never)]
#[tactic(auto, unfolding(crate::specs::Order::compared))]
fn compare_far<C: Core>(core: &mut C, registers: &mut Registers) -> Result<(), Check>
    ensures { Does result (C.cells core.old) registers.old
        (C.cells core.new) registers.new compared }
{
    let Registers { a, b, .. } = *registers;
    let counts = counts_at(core, a, b)?;
    registers.compare = comparison(core, a, b, counts);
    registers.lower(counts.a, counts.b);
    Ok(())
}

/// The law of comparison: the first character from the left at which the ranks differ decides; if
/// there is none, the fields are equal.
pub fn order_is_by_the_first_difference()
    ensures { (a b : List ℕ) → length a ≡ length b → IsOrder a b (order a b) }
{}
