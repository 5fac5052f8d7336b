//! A field loaded with its word mark.

ghost use Rattle.std.specs.Prelude.{◌≡◌, ◌+◌, ◌-◌, ◌<◌, ℕ, true, false, Some, length, Ok};
ghost use Rattle.core_store.specs.{
  Doing.{Does, DoesAt, DoesAtOrLeaves, DoesOrLeaves},
  Operands.{AreClear},
  Storage.{Storage, cells_ending, field_length, put_cells, largest_size},
  declared.registers.Registers.{Registers},
};
ghost use Rattle.moves.specs.{Stretches.{AreNear}, Loaded.{field_loaded, IsLoaded}};

use crate::near::{clear_field, clear_near_marks, far_field, put_last};
use core_store::{Check, Core, Registers, are_clear, lower};

/// Copies a field of at most sixteen characters to B, all at once.
#[inline(always)]
#[tactic(auto, using(crate::proofs::LaneLemmas::near_long))]
fn load_near<C: Core>(core: &mut C, a: u16, b: u16, count: u16)
    requires near { AreNear (C.cells core.old) a b count }
    requires below { b < largest_size }
    requires field { field_length (C.cells core.old) a ≡ Some count }
    ensures { C.cells core.new ≡ put_cells (C.cells core.old) (b + 1 - count)
        (cells_ending (C.cells core.old) a count) }
{
    let codes = core.near_codes(a);
    put_last(core, b, count, codes);
    clear_near_marks(core, b, count);
    core.set_mark(b + 1 - count);
}

/// Loads as `load_field` does, at most sixteen characters, all at once, of a field that ends at A,
/// to B, both clear of position 000. Returns whether it did; if not, nothing is changed.
#[inline(always)]
pub fn load_clear<C: Core>(core: &mut C, registers: &mut Registers, a: u16, b: u16) -> bool
    requires { AreClear (C.cells core.old) a b }
    ensures { DoesAtOrLeaves result (C.cells core.old) registers.old a b
        (C.cells core.new) registers.new field_loaded }
{
    let Some(count) = clear_field(core, a, b) else {
        return false;
    };
    load_near(core, a, b, count);
    registers.pass(a, count, b, count);
    true
}

/// Loads so if the fields at registers A and B are clear of position 000.
#[inline(always)]
fn load_at_once<C: Core>(core: &mut C, registers: &mut Registers) -> bool
    ensures { DoesOrLeaves result (C.cells core.old) registers.old
        (C.cells core.new) registers.new field_loaded }
{
    let Registers { a, b, .. } = *registers;
    if !are_clear(core, a, b) {
        return false;
    }
    load_clear(core, registers, a, b)
}

/// Copies the field at A to B with its word mark, and clears the other marks there. Check ADDRESS
/// if A or B is outside the storage, if the field would pass position 000 at A or at B, or if it
/// would be overwritten before it is read.
#[inline(never)]
pub fn load_field<C: Core>(core: &mut C, registers: &mut Registers) -> Result<(), Check>
    ensures { Does result (C.cells core.old) registers.old
        (C.cells core.new) registers.new field_loaded }
{
    if load_at_once(core, registers) {
        return Ok(());
    }
    let Registers { a, b, .. } = *registers;
    load_at(core, registers, a, b)
}

/// Loads as `load_field` does, a field of any length that ends at A, to B.
#[inline(never)]
#[tactic(auto, unfolding(crate::specs::Loaded::field_loaded))]
pub fn load_at<C: Core>(
    core: &mut C,
    registers: &mut Registers,
    a: u16,
    b: u16,
) -> Result<(), Check>
    ensures { DoesAt result (C.cells core.old) registers.old a b
        (C.cells core.new) registers.new field_loaded }
{
    let count = far_field(core, a, b, Check::Address)?;
    core.move_cells(a, b, count);
    registers.a = lower(a, count);
    registers.b = lower(b, count);
    Ok(())
}

/// The law of a load: the characters of the field at A are at B, the leftmost of them is marked and
/// no other is, and all other positions are unchanged.
pub fn loaded_is_by_position()
    ensures { (s new : Storage) (r after : Registers) (count : ℕ) →
        field_length s r.a ≡ Some count → field_loaded s r ≡ Ok (new, after) →
        IsLoaded s r.a r.b count new }
{}
