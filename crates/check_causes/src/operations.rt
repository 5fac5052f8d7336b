//! Why an operation is stopped.

ghost use Rattle.std.specs.Prelude.{◌≡◌, ◌≤◌, ◌<◌, true, codes};
ghost use Rattle.machine.specs.{Glyphs.{is_glyph}, Instructions.{operation_by, modifier_by}};
ghost use Rattle.check_causes.specs.{Causes.{operation_told}, Devices.{carriage_told}};

use crate::causes::Cause;
use crate::devices::{test_devices, test_order, test_pocket};
use crate::places::{test_place, test_places, test_three};
use crate::works::{
    test_comparison, test_copy, test_edit, test_load, test_modification, test_move, test_sum,
    test_suppression,
};
use core_store::Core;
use machine::Instruction;
use units::{CarriageOrder, Devices, Printer, Units};

/// Why the carriage order that the last character of an instruction names is stopped.
#[tactic(auto, unfolding(crate::specs::Devices::carriage_told))]
fn test_carriage(instruction: Instruction, printer: &Printer) -> Result<(), Cause>
    requires { is_glyph instruction.first (codes "F") ≡ true }
    ensures { result ≡ carriage_told
        (modifier_by instruction.first instruction.length instruction.last) printer.now }
{
    match CarriageOrder::of_code(instruction.last) {
        Some(order) => test_order(order, printer),
        None => Ok(()),
    }
}

/// Why one of the operations that are not of the units is stopped at these addresses. Each of its
/// characters has an arm of its own, since the last arm then knows each that it is not.
#[tactic(auto, unfolding(crate::specs::Causes::operation_told))]
fn test_other<C: Core>(core: &C, units: &Units, instruction: Instruction) -> Result<(), Cause>
    requires high { 8 ≤ instruction.first }
    requires below { instruction.first < 64 }
    ensures { result ≡ operation_told (operation_by instruction.first)
        (modifier_by instruction.first instruction.length instruction.last)
        (C.cells core.now) units.now instruction.a instruction.b }
{
    let Instruction { a, b, .. } = instruction;
    match instruction.first.glyph() {
        b'A' => test_sum(core, a, b),
        b'S' => test_sum(core, a, b),
        b'?' => test_copy(core, a, b),
        b'!' => test_copy(core, a, b),
        b'C' => test_comparison(core, a, b),
        b'#' => test_modification(core, a, b),
        b'M' => test_move(core, a, b),
        b'L' => test_load(core, a, b),
        b'D' => test_places(core, a, b),
        b'Y' => test_places(core, a, b),
        b',' => test_places(core, a, b),
        b')' => test_places(core, a, b),
        b'Z' => test_suppression(core, a, b),
        b'E' => test_edit(core, a, b),
        b'/' => test_place(core, b),
        b'F' => test_carriage(instruction, &units.printer),
        b'K' => test_pocket(&units.punch),
        b'Q' => test_three(core, a),
        b'H' => test_three(core, a),
        _ => Ok(()),
    }
}

/// Why the operation that a character names is stopped at these addresses.
#[tactic(auto, unfolding(crate::specs::Causes::operation_told))]
pub(crate) fn test_operation<C: Core>(
    core: &C,
    units: &Units,
    instruction: Instruction,
) -> Result<(), Cause>
    ensures { result ≡ operation_told (operation_by instruction.first)
        (modifier_by instruction.first instruction.length instruction.last)
        (C.cells core.now) units.now instruction.a instruction.b }
{
    match instruction.first.number() {
        0 => Ok(()),
        sum @ 1..=7 => test_devices(Devices::of_sum(sum), units),
        _ => test_other(core, units, instruction),
    }
}
