//! Add and subtract.

ghost use Rattle.std.specs.Prelude.{◌≡◌, ◌+◌, ◌-◌, ◌<◌, ◌≤◌, ℕ, false, true, length, Ok};
ghost use Rattle.core_store.specs.{
  Doing.{Does, DoesAtOrLeaves, DoesOrLeaves},
  Storage.{codes_ending, put_codes},
  Operands.{is_overlapping, AreClear},
};
ghost use Rattle.arith.specs.{Operands.{AreCounts}, Sums.{added, sum_codes, sum_overflows}};

use crate::decimal::{is_number, sign_zone};
use crate::joining::{Joined, join};
use crate::lanes::{greater, is_over, parts, signed, sum, write_digits};
use crate::operands::{Counts, clear_counts_apart, counts_apart};
use crate::words::difference;
use core_store::{Check, Core, Registers, are_clear, is_minus, last_of};
use std::simd::prelude::*;

/// Adds the A digits to the B field. Fails as `counts_apart` does, and with check DATA if a
/// character has no numeric value.
pub fn add<C: Core>(core: &mut C, registers: &mut Registers) -> Result<(), Check>
    ensures { Does result (C.cells core.old) registers.old
        (C.cells core.new) registers.new (added false) }
{
    combine(core, registers, false)
}

/// Subtracts the A digits from the B field. Fails as `add` does.
pub fn subtract<C: Core>(core: &mut C, registers: &mut Registers) -> Result<(), Check>
    ensures { Does result (C.cells core.old) registers.old
        (C.cells core.new) registers.new (added true) }
{
    combine(core, registers, true)
}

/// Adds as `add` does, all digits at once where that is possible, fields that end at A and B, clear
/// of position 000. Returns whether it did; if not, nothing is changed.
#[inline(always)]
pub fn add_clear<C: Core>(core: &mut C, registers: &mut Registers, a: u16, b: u16) -> bool
    requires { AreClear (C.cells core.old) a b }
    ensures { DoesAtOrLeaves result (C.cells core.old) registers.old a b
        (C.cells core.new) registers.new (added false) }
{
    combine_clear(core, registers, a, b, false)
}

/// Subtracts as `subtract` does, in the same way.
#[inline(always)]
pub fn subtract_clear<C: Core>(core: &mut C, registers: &mut Registers, a: u16, b: u16) -> bool
    requires { AreClear (C.cells core.old) a b }
    ensures { DoesAtOrLeaves result (C.cells core.old) registers.old a b
        (C.cells core.new) registers.new (added true) }
{
    combine_clear(core, registers, a, b, true)
}

/// Adds the A digits to the B field. A subtraction reverses the sign of A.
#[inline(always)]
fn combine<C: Core>(core: &mut C, registers: &mut Registers, reversed: bool) -> Result<(), Check>
    ensures { Does result (C.cells core.old) registers.old
        (C.cells core.new) registers.new (added reversed) }
{
    if combine_near(core, registers, reversed) {
        return Ok(());
    }
    combine_far(core, registers, reversed)
}

/// Combines as `combine` does if the fields at registers A and B are clear of position 000.
#[inline(always)]
fn combine_near<C: Core>(core: &mut C, registers: &mut Registers, reversed: bool) -> bool
    ensures { DoesOrLeaves result (C.cells core.old) registers.old
        (C.cells core.new) registers.new (added reversed) }
{
    let Registers { a, b, .. } = *registers;
    if !are_clear(core, a, b) {
        return false;
    }
    combine_clear(core, registers, a, b, reversed)
}

/// Combines as `combine` does, all digits at once, where the B field has at most sixteen digits, or
/// fifteen if the signs are the same. Returns whether it did; if not, nothing is changed.
#[inline(always)]
fn combine_clear<C: Core>(
    core: &mut C,
    registers: &mut Registers,
    a: u16,
    b: u16,
    reversed: bool,
) -> bool
    requires { AreClear (C.cells core.old) a b }
    ensures { DoesAtOrLeaves result (C.cells core.old) registers.old a b
        (C.cells core.new) registers.new (added reversed) }
{
    let Some(counts) = clear_counts_apart(core, a, b) else {
        return false;
    };
    let old = core.near_codes(b);
    let parts_a = parts(core.near_codes(a), counts.a);
    let parts_b = parts(old, counts.b);
    if is_over(greater(parts_a, parts_b), 10) {
        return false;
    }
    let minus_a = is_minus(core, a) != reversed;
    let minus_b = is_minus(core, b);
    if minus_a != minus_b {
        let (digits, is_greater) = difference(parts_a, parts_b);
        let signed = signed(old, is_greater != minus_b);
        core.put_near_codes(b, write_digits(digits, signed, counts.b));
        registers.pass(a, counts.a, b, counts.b);
        return true;
    }
    if counts.b > 15 {
        return false;
    }
    let digits = sum(parts_a, parts_b);
    core.put_near_codes(b, write_digits(digits, old, counts.b));
    registers.pass(a, counts.a, b, counts.b);
    registers.overflow |= is_over(last_of(counts.b, u8x16::splat(0), digits), 0);
    true
}

/// Combines as `combine` does, digit by digit.
#[inline(never)]
#[tactic(auto, unfolding(crate::specs::Sums::added))]
fn combine_far<C: Core>(
    core: &mut C,
    registers: &mut Registers,
    reversed: bool,
) -> Result<(), Check>
    ensures { Does result (C.cells core.old) registers.old
        (C.cells core.new) registers.new (added reversed) }
{
    let Registers { a, b, .. } = *registers;
    let counts = counts_apart(core, a, b)?;
    if !is_number(core, a, counts.a) {
        return Err(Check::Data);
    }
    if !is_number(core, b, counts.b) {
        return Err(Check::Data);
    }
    let minus_a = is_minus(core, a) != reversed;
    let overflows = join_signed(core, a, b, counts, minus_a);
    registers.lower(counts.a, counts.b);
    registers.overflow |= overflows;
    Ok(())
}

/// Combines the digits by their signs. Returns whether the sum overflows.
fn join_signed<C: Core>(core: &mut C, a: u16, b: u16, counts: Counts, minus_a: bool) -> bool
    requires counts { AreCounts (C.cells core.old) a b counts.a counts.b }
    requires apart { is_overlapping a b counts.a ≡ false }
    ensures codes { C.cells core.new ≡ put_codes (C.cells core.old) (b + 1 - counts.b)
        (sum_codes minus_a (codes_ending (C.cells core.old) a counts.a)
        (codes_ending (C.cells core.old) b counts.b)) }
    ensures overflows { result ≡ sum_overflows minus_a (codes_ending (C.cells core.old) a counts.a)
        (codes_ending (C.cells core.old) b counts.b) }
{
    let minus_b = is_minus(core, b);
    if minus_a == minus_b {
        let zone = core.get(b).zone();
        return join(core, Joined::Sum, a, b, counts, zone);
    }
    if !join(core, Joined::Difference, a, b, counts, sign_zone(minus_b)) {
        join(
            core,
            Joined::Complement,
            a,
            b,
            Counts { a: 0, b: counts.b },
            sign_zone(minus_a),
        );
    }
    false
}
