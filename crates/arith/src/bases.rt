//! Modify address.

ghost use Rattle.std.specs.Prelude.{◌≡◌, ◌+◌, ◌-◌, ◌<◌, ◌≤◌, ◌&&◌, ℕ, true, length, IsTrue};
ghost use Rattle.core_store.specs.{
  Doing.{Does, DoesAt, DoesAtOrLeaves},
  Operands.{AreClear},
  Storage.{largest_size},
};
ghost use Rattle.addresses.specs.Stored.{has_three};
ghost use Rattle.arith.specs.Bases.{modified};

use addresses::{base_ending, encode_tagged, has_three, put_three};
use core_store::{Check, Core, LARGEST_SIZE, Registers, lower};

/// Whether three characters can end at each of two positions.
#[inline(always)]
fn have_three<C: Core>(core: &C, a: u16, b: u16) -> bool
    ensures three { result ≡ (has_three (C.cells core.now) a && has_three (C.cells core.now) b) }
    ensures a { IsTrue result → (a < length (C.cells core.now)) × (a < largest_size) × (2 ≤ a) }
    ensures b { IsTrue result → (b < length (C.cells core.now)) × (b < largest_size) × (2 ≤ b) }
{
    has_three(core, a) && has_three(core, b)
}

/// Adds the address at A to the address at B, as `modify` does.
#[inline(always)]
#[tactic(auto, unfolding(crate::specs::Bases::modified))]
fn modify_at<C: Core>(core: &mut C, registers: &mut Registers, a: u16, b: u16) -> Result<(), Check>
    requires three { (has_three (C.cells core.old) a && has_three (C.cells core.old) b) ≡ true }
    requires a_in { a < length (C.cells core.old) }
    requires b_in { b < length (C.cells core.old) }
    requires a_below { a < largest_size }
    requires b_below { b < largest_size }
    requires a_room { 2 ≤ a }
    requires b_room { 2 ≤ b }
    ensures { DoesAt result (C.cells core.old) registers.old a b
        (C.cells core.new) registers.new modified }
{
    let base_a = base_ending(core, a).ok_or(Check::Data)?;
    let base_b = base_ending(core, b).ok_or(Check::Data)?;
    let tag = core.get(b - 1).zone();
    put_three(
        core,
        b,
        encode_tagged((base_a + base_b) % LARGEST_SIZE, tag),
    );
    registers.a = lower(a, 3);
    registers.b = lower(b, 3);
    Ok(())
}

/// Modifies as `modify` does, at positions clear of position 000. Returns whether it did; if not,
/// nothing is changed.
#[inline(never)]
pub fn modify_clear<C: Core>(core: &mut C, registers: &mut Registers, a: u16, b: u16) -> bool
    requires { AreClear (C.cells core.old) a b }
    ensures { DoesAtOrLeaves result (C.cells core.old) registers.old a b
        (C.cells core.new) registers.new modified }
{
    have_three(core, a, b) && modify_at(core, registers, a, b).is_ok()
}

/// Adds the address at A to the address at B, whose tag stays. Check ADDRESS if there are not three
/// characters at A and at B, check DATA if they are not an address.
#[tactic(auto, unfolding(crate::specs::Bases::modified))]
pub fn modify<C: Core>(core: &mut C, registers: &mut Registers) -> Result<(), Check>
    ensures { Does result (C.cells core.old) registers.old
        (C.cells core.new) registers.new modified }
{
    let Registers { a, b, .. } = *registers;
    if !have_three(core, a, b) {
        return Err(Check::Address);
    }
    modify_at(core, registers, a, b)
}
