//! The cause of a check.

ghost use Rattle.std.specs.Prelude.{◌≡◌, ◌+◌, ◌<◌, ◌≤◌, length};
ghost use Rattle.core_store.specs.Storage.{codes_from, largest_size};
ghost use Rattle.machine.specs.Effect.{works_of};
ghost use Rattle.check_causes.specs.Causes.{attempt_told, cause, instruction_told};

use crate::causes::Cause;
use crate::forms::is_instruction;
use crate::operands::operands;
use crate::operations::test_operation;
use crate::words::{sign, word_at};
use core_store::{Core, Registers};
use machine::{Instruction, Parts, Word, addresses_in, character};
use units::Units;

/// Why the instruction of these characters is stopped.
#[tactic(auto, unfolding(crate::specs::Causes::instruction_told, crate::specs::Reading::decoded_told))]
fn test_instruction<C: Core>(
    core: &C,
    registers: &Registers,
    units: &Units,
    word: Word,
) -> Result<(), Cause>
    requires some { 1 ≤ word.length }
    requires most { word.length ≤ 8 }
    requires within { word.first + word.length ≤ length (C.cells core.now) }
    requires below { word.first < largest_size }
    ensures { result ≡ instruction_told
        (works_of (C.cells core.now) registers.now units.now) word.length
        (codes_from (C.cells core.now) word.first word.length) }
{
    let first = character(core, word, 0);
    let last = character(core, word, word.length - 1);
    if !is_instruction(first, word.length, last) {
        return Err(Cause::NoInstruction(sign(first)));
    }
    let count = addresses_in(first, word.length);
    let (a, b) = operands(core, registers, word, count)?;
    let instruction = Instruction {
        first,
        last,
        length: word.length,
        a,
        b,
    };
    test_operation(core, units, instruction)
}

/// The tests of the machine before the instruction at register I changes anything, in its order.
#[tactic(auto, unfolding(crate::specs::Causes::attempt_told))]
fn test_attempt<C: Core>(core: &C, registers: &Registers, units: &Units) -> Result<(), Cause>
    ensures { result ≡ attempt_told (works_of (C.cells core.now) registers.now units.now) }
{
    if registers.i >= core.size() {
        return Err(Cause::RegisterPast);
    }
    match word_at(core, registers.i) {
        Ok(word) => test_instruction(core, registers, units, word),
        Err(cause) => Err(cause),
    }
}

/// Why the instruction at register I is stopped by a check; `None` if no check stops it. A check
/// changes nothing but the standing of a machine, which is not looked at here: so this tells the
/// cause of the check that a machine met.
#[tactic(auto, unfolding(crate::specs::Causes::cause))]
pub fn cause_of<C: Core>(parts: &Parts<C>) -> Option<Cause>
    ensures { result ≡ cause parts.now.works }
{
    test_attempt(&parts.core, &parts.registers, &parts.units).err()
}
