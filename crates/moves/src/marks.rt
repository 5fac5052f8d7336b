//! Word marks set and cleared, and storage cleared.

ghost use Rattle.std.specs.Prelude.{◌≡◌, ◌<◌, true, false, length};
ghost use Rattle.core_store.specs.{Doing.{Does}, Storage.{with_mark}};
ghost use Rattle.moves.specs.Marks.{marks_put, storage_cleared};

use core_store::{Check, Core, Registers, check_inside, lower};

/// Sets or clears the word mark at a position. The character stays.
#[inline(always)]
pub fn put_mark<C: Core>(core: &mut C, position: u16, marked: bool)
    requires { position < length (C.cells core.old) }
    ensures { C.cells core.new ≡ with_mark (C.cells core.old) position marked }
{
    if marked {
        core.set_mark(position);
    } else {
        core.clear_mark(position);
    }
}

/// Sets or clears the word marks at A and B. Check ADDRESS if A or B is outside the storage.
#[inline(always)]
#[tactic(auto, unfolding(crate::specs::Marks::marks_put))]
fn put_marks<C: Core>(core: &mut C, registers: &mut Registers, marked: bool) -> Result<(), Check>
    ensures { Does result (C.cells core.old) registers.old
        (C.cells core.new) registers.new (marks_put marked) }
{
    let Registers { a, b, .. } = *registers;
    check_inside(core, a, b)?;
    put_mark(core, a, marked);
    put_mark(core, b, marked);
    registers.lower(1, 1);
    Ok(())
}

/// Sets word marks at A and B. Check ADDRESS if A or B is outside the storage.
pub fn set_mark<C: Core>(core: &mut C, registers: &mut Registers) -> Result<(), Check>
    ensures { Does result (C.cells core.old) registers.old
        (C.cells core.new) registers.new (marks_put true) }
{
    put_marks(core, registers, true)
}

/// Clears the word marks at A and B. Check ADDRESS if A or B is outside the storage.
pub fn clear_mark<C: Core>(core: &mut C, registers: &mut Registers) -> Result<(), Check>
    ensures { Does result (C.cells core.old) registers.old
        (C.cells core.new) registers.new (marks_put false) }
{
    put_marks(core, registers, false)
}

/// Clears characters and marks from B down to the nearest hundred. Check ADDRESS if B is outside
/// the storage.
#[tactic(auto, unfolding(crate::specs::Marks::storage_cleared))]
pub fn clear_storage<C: Core>(core: &mut C, registers: &mut Registers) -> Result<(), Check>
    ensures { Does result (C.cells core.old) registers.old
        (C.cells core.new) registers.new storage_cleared }
{
    let last = registers.b;
    if last >= core.size() {
        return Err(Check::Address);
    }
    let first = last / 100 * 100;
    core.clear(first, last);
    registers.b = lower(first, 1);
    Ok(())
}
