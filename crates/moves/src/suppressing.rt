//! A field moved without its leading zeros.

ghost use Rattle.std.specs.Prelude.{◌≡◌, ◌+◌, ◌-◌, ◌<◌, ◌≤◌, ◌==◌, ℕ, false, length, if◌then◌else◌};
ghost use Rattle.core_store.specs.{
  Doing.{Does, DoesAtOrLeaves, DoesOrLeaves},
  Storage.{code_at, codes_ending, put_codes, largest_size},
  Operands.{is_overlapping, AreClear},
};
ghost use Rattle.moves.specs.{
  Characters.{bare, bare_units},
  Stretches.{AreIn, AreNear},
  Suppressed.{zeros_suppressed, unmarked, suppressed},
};

use crate::blanking::{Stop, blank_start};
use crate::characters::bare;
use crate::lanes;
use crate::near::{clear_field, clear_marks, clear_near_marks, far_field, put_last};
use bcd::Code;
use core_store::{Check, Core, Registers, are_clear};

/// The character at an index from the right, without its zone if it is the units.
#[inline(always)]
pub fn bare_at<C: Core>(core: &C, position: u16, place: u16) -> Code
    requires within { position < length (C.cells core.now) }
    requires from { place ≤ position }
    ensures { result ≡ (if place == 0 then bare (code_at (C.cells core.now) (position - place))
        else code_at (C.cells core.now) (position - place)) }
{
    let code = core.get(position - place);
    if place == 0 { bare(code) } else { code }
}

/// Copies the characters that end at A to those that end at B, the units without zone.
#[tactic(auto, using(crate::proofs::Copying::copy_none, crate::proofs::Copying::copied_on, crate::proofs::Copying::size_on))]
fn copy_bare<C: Core>(core: &mut C, a: u16, b: u16, count: u16)
    requires stretches { AreIn (C.cells core.old) a b count count }
    requires below { b < largest_size }
    requires apart { is_overlapping a b count ≡ false }
    ensures codes { C.cells core.new ≡ put_codes (C.cells core.old) (b + 1 - count)
        (bare_units (codes_ending (C.cells core.old) a count)) }
    ensures size { length (C.cells core.new) ≡ length (C.cells core.old) }
{
    for i in 0..count {
        let code = bare_at(core, a, i);
        core.put(b - i, code);
    }
}

/// Moves the characters that end at A to B, without marks and leading zeros.
#[tactic(auto, using(crate::proofs::Copying::all_suppressed))]
fn move_far<C: Core>(core: &mut C, a: u16, b: u16, count: u16)
    requires stretches { AreIn (C.cells core.old) a b count count }
    requires below { b < largest_size }
    requires apart { is_overlapping a b count ≡ false }
    ensures { C.cells core.new ≡ put_codes (unmarked (C.cells core.old) (b + 1 - count) count)
        (b + 1 - count) (suppressed (bare_units (codes_ending (C.cells core.old) a count))) }
{
    clear_marks(core, b, count);
    copy_bare(core, a, b, count);
    blank_start(core, b + 1 - count, count, count, Stop::Other);
}

/// Moves at most sixteen characters as `move_far` does, all at once.
#[inline(always)]
#[tactic(auto, using(crate::proofs::LaneLemmas::near_long))]
fn move_near<C: Core>(core: &mut C, a: u16, b: u16, count: u16)
    requires near { AreNear (C.cells core.old) a b count }
    requires below { b < largest_size }
    ensures { C.cells core.new ≡ put_codes (unmarked (C.cells core.old) (b + 1 - count) count)
        (b + 1 - count) (suppressed (bare_units (codes_ending (C.cells core.old) a count))) }
{
    clear_near_marks(core, b, count);
    let bare = lanes::bare_units(core.near_codes(a));
    put_last(
        core,
        b,
        count,
        lanes::blank_codes(bare, count, count, Stop::Other),
    );
}

/// Suppresses as `suppress` does, all at once, a field that ends at A, to B, both clear of position
/// 000, if it has at most sixteen characters and none is overwritten before it is read. Returns
/// whether it did; if not, nothing is changed.
#[inline(never)]
pub fn suppress_clear<C: Core>(core: &mut C, registers: &mut Registers, a: u16, b: u16) -> bool
    requires { AreClear (C.cells core.old) a b }
    ensures { DoesAtOrLeaves result (C.cells core.old) registers.old a b
        (C.cells core.new) registers.new zeros_suppressed }
{
    let Some(count) = clear_field(core, a, b) else {
        return false;
    };
    move_near(core, a, b, count);
    registers.pass(a, count, b, count);
    true
}

/// Suppresses so if the fields at registers A and B are clear of position 000.
#[inline(always)]
fn suppress_near<C: Core>(core: &mut C, registers: &mut Registers) -> bool
    ensures { DoesOrLeaves result (C.cells core.old) registers.old
        (C.cells core.new) registers.new zeros_suppressed }
{
    let Registers { a, b, .. } = *registers;
    if !are_clear(core, a, b) {
        return false;
    }
    suppress_clear(core, registers, a, b)
}

/// Moves the field at A to B without its leading zeros and without marks. Check ADDRESS if A or B
/// is outside the storage or the field would pass position 000, check OVERLAP if the field would be
/// overwritten before it is read.
#[inline(never)]
pub fn suppress<C: Core>(core: &mut C, registers: &mut Registers) -> Result<(), Check>
    ensures { Does result (C.cells core.old) registers.old
        (C.cells core.new) registers.new zeros_suppressed }
{
    if suppress_near(core, registers) {
        return Ok(());
    }
    suppress_far(core, registers)
}

/// Suppresses as `suppress` does, a field of any length.
#[inline(never)]
#[tactic(auto, unfolding(crate::specs::Suppressed::zeros_suppressed))]
fn suppress_far<C: Core>(core: &mut C, registers: &mut Registers) -> Result<(), Check>
    ensures { Does result (C.cells core.old) registers.old
        (C.cells core.new) registers.new zeros_suppressed }
{
    let Registers { a, b, .. } = *registers;
    let count = far_field(core, a, b, Check::Overlap)?;
    move_far(core, a, b, count);
    registers.lower(count, count);
    Ok(())
}
