//! Zero and add, zero and subtract.

ghost use Rattle.std.specs.Prelude.{◌≡◌, ℕ, false, true, Ok};
ghost use Rattle.core_store.specs.{Doing.{Does, DoesAtOrLeaves, DoesOrLeaves}, Operands.{AreClear}};
ghost use Rattle.arith.specs.Sums.{zero_added};

use crate::decimal::{is_number, sign_zone};
use crate::joining::{Joined, join};
use crate::lanes::{digits, is_over, parts, signed, write_digits};
use crate::operands::{clear_counts_apart, counts_apart};
use core_store::{Check, Core, Registers, are_clear, is_minus};

/// Replaces the B field by the A digits. Fails as `counts_apart` does, and with check DATA if a
/// character at A has no numeric value.
pub fn zero_add<C: Core>(core: &mut C, registers: &mut Registers) -> Result<(), Check>
    ensures { Does result (C.cells core.old) registers.old
        (C.cells core.new) registers.new (zero_added false) }
{
    replace(core, registers, false)
}

/// Replaces the B field by the A digits with the opposite sign. Fails as `zero_add` does.
pub fn zero_subtract<C: Core>(core: &mut C, registers: &mut Registers) -> Result<(), Check>
    ensures { Does result (C.cells core.old) registers.old
        (C.cells core.new) registers.new (zero_added true) }
{
    replace(core, registers, true)
}

/// Zero and add as `zero_add` does, all digits at once where that is possible, of fields that end
/// at A and B, clear of position 000. Returns whether it did; if not, nothing is changed.
#[inline(always)]
pub fn zero_add_clear<C: Core>(core: &mut C, registers: &mut Registers, a: u16, b: u16) -> bool
    requires { AreClear (C.cells core.old) a b }
    ensures { DoesAtOrLeaves result (C.cells core.old) registers.old a b
        (C.cells core.new) registers.new (zero_added false) }
{
    replace_clear(core, registers, a, b, false)
}

/// Zero and subtract as `zero_subtract` does, in the same way.
#[inline(always)]
pub fn zero_subtract_clear<C: Core>(core: &mut C, registers: &mut Registers, a: u16, b: u16) -> bool
    requires { AreClear (C.cells core.old) a b }
    ensures { DoesAtOrLeaves result (C.cells core.old) registers.old a b
        (C.cells core.new) registers.new (zero_added true) }
{
    replace_clear(core, registers, a, b, true)
}

/// Replaces the B field by the A digits. A subtraction reverses the sign.
#[inline(always)]
fn replace<C: Core>(core: &mut C, registers: &mut Registers, reversed: bool) -> Result<(), Check>
    ensures { Does result (C.cells core.old) registers.old
        (C.cells core.new) registers.new (zero_added reversed) }
{
    if replace_near(core, registers, reversed) {
        return Ok(());
    }
    replace_far(core, registers, reversed)
}

/// Replaces as `replace` does if the fields at registers A and B are clear of position 000.
#[inline(always)]
fn replace_near<C: Core>(core: &mut C, registers: &mut Registers, reversed: bool) -> bool
    ensures { DoesOrLeaves result (C.cells core.old) registers.old
        (C.cells core.new) registers.new (zero_added reversed) }
{
    let Registers { a, b, .. } = *registers;
    if !are_clear(core, a, b) {
        return false;
    }
    replace_clear(core, registers, a, b, reversed)
}

/// Replaces as `replace` does, all digits at once, where the B field has at most sixteen
/// characters. Returns whether it did; if not, nothing is changed.
#[inline(never)]
fn replace_clear<C: Core>(
    core: &mut C,
    registers: &mut Registers,
    a: u16,
    b: u16,
    reversed: bool,
) -> bool
    requires { AreClear (C.cells core.old) a b }
    ensures { DoesAtOrLeaves result (C.cells core.old) registers.old a b
        (C.cells core.new) registers.new (zero_added reversed) }
{
    let Some(counts) = clear_counts_apart(core, a, b) else {
        return false;
    };
    let parts = parts(core.near_codes(a), counts.a);
    if is_over(parts, 10) {
        return false;
    }
    let signed = signed(core.near_codes(b), is_minus(core, a) != reversed);
    core.put_near_codes(b, write_digits(digits(parts), signed, counts.b));
    registers.pass(a, counts.a, b, counts.b);
    true
}

/// Replaces as `replace` does, digit by digit.
#[inline(never)]
#[tactic(auto, unfolding(crate::specs::Sums::zero_added))]
fn replace_far<C: Core>(
    core: &mut C,
    registers: &mut Registers,
    reversed: bool,
) -> Result<(), Check>
    ensures { Does result (C.cells core.old) registers.old
        (C.cells core.new) registers.new (zero_added reversed) }
{
    let Registers { a, b, .. } = *registers;
    let counts = counts_apart(core, a, b)?;
    if !is_number(core, a, counts.a) {
        return Err(Check::Data);
    }
    let minus_a = is_minus(core, a) != reversed;
    join(core, Joined::Copy, a, b, counts, sign_zone(minus_a));
    registers.lower(counts.a, counts.b);
    Ok(())
}
