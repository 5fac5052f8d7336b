//! The numeric part or the zone of one character moved.

ghost use Rattle.core_store.specs.Doing.{Does};
ghost use Rattle.moves.specs.Parts.{digit_moved, zone_moved};

use crate::characters::{of_parts, part_of};
use core_store::{Check, Core, Registers, check_inside};

/// Moves the numeric part of the character at A to B. The zone at B stays. Check ADDRESS if A or B
/// is outside the storage.
#[tactic(auto, unfolding(crate::specs::Parts::digit_moved))]
pub fn digit<C: Core>(core: &mut C, registers: &mut Registers) -> Result<(), Check>
    ensures { Does result (C.cells core.old) registers.old
        (C.cells core.new) registers.new digit_moved }
{
    let Registers { a, b, .. } = *registers;
    check_inside(core, a, b)?;
    let code = of_parts(core.get(b).zone(), part_of(core.get(a)));
    core.put(b, code);
    registers.lower(1, 1);
    Ok(())
}

/// Moves the zone of the character at A to B. The numeric part at B stays. Check ADDRESS if A or B
/// is outside the storage.
#[tactic(auto, unfolding(crate::specs::Parts::zone_moved))]
pub fn zone<C: Core>(core: &mut C, registers: &mut Registers) -> Result<(), Check>
    ensures { Does result (C.cells core.old) registers.old
        (C.cells core.new) registers.new zone_moved }
{
    let Registers { a, b, .. } = *registers;
    check_inside(core, a, b)?;
    let code = of_parts(core.get(a).zone(), part_of(core.get(b)));
    core.put(b, code);
    registers.lower(1, 1);
    Ok(())
}
