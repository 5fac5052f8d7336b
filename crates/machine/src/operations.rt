//! What the operations do.

ghost use Rattle.std.specs.Prelude.{◌≡◌, ◌≤◌, ◌<◌, ◌==◌, ℕ, true, length, if◌then◌else◌, codes};
ghost use Rattle.core_store.specs.{
  Doing.{Does},
  Storage.{Storage, largest_size, code_at},
  Operands.{lowered},
};
ghost use Rattle.units.specs.{declared.units.Units.{Units}, Units.{areas_end}};
ghost use Rattle.machine.specs.{
  declared.named.Operation.TheVariants.{OnFields, ClearStorage, StoreA, StoreB, Operate, MoveCarriage, ChoosePocket},
  Branches.{is_met, once_tested, test_of},
  Effect.{effect, worked, Ends, works_of, branched, after_branch, after_halt},
  Instructions.{decoded_by, condition_by},
  Word.{LooksInside},
  Glyphs.{is_glyph},
  Operations.{devices},
};

use self::FieldOperation::{
    Add, ClearMark, Compare, Edit, Load, ModifyAddress, Move, MoveDigit, MoveZone, SetMark,
    Subtract, Suppress, ZeroAdd, ZeroSubtract,
};
use crate::branches::{Condition, PositionTest};
use crate::characters::*;
use crate::instruction::Instruction;
use addresses::store;
use arith::{add, compare, modify, subtract, zero_add, zero_subtract};
use core_store::{Check, Core, Registers, lower};
use moves::{
    clear_mark, clear_storage, digit, edit, load_field, move_field, set_mark, suppress, zone,
};
use units::{CarriageOrder, Devices, Fault, Pocket, Units, choose_pocket, move_carriage, operate};

/// An operation on the fields at the two addresses, named by its first character.
#[derive(Clone, Copy)]
pub enum FieldOperation {
    /// `A`: add.
    Add,
    /// `S`: subtract.
    Subtract,
    /// `?`: zero and add.
    ZeroAdd,
    /// `!`: zero and subtract.
    ZeroSubtract,
    /// `C`: compare.
    Compare,
    /// `#`: modify address.
    ModifyAddress,
    /// `M`: move characters to A or B word mark.
    Move,
    /// `L`: load characters to A word mark.
    Load,
    /// `D`: move numeric.
    MoveDigit,
    /// `Y`: move zone.
    MoveZone,
    /// `Z`: move characters and suppress zeros.
    Suppress,
    /// `E`: move characters and edit.
    Edit,
    /// `,`: set word mark.
    SetMark,
    /// `)`: clear word mark.
    ClearMark,
}

/// How an instruction without a check ended.
#[derive(Clone, Copy)]
pub enum Course {
    GoesOn,
    Halts,
}

/// Does an operation on the fields at registers A and B.
#[inline(always)]
#[tactic(auto, unfolding(crate::specs::Effect::worked))]
fn work<C: Core>(
    core: &mut C,
    registers: &mut Registers,
    operation: FieldOperation,
) -> Result<(), Check>
    ensures { Does result (C.cells core.old) registers.old
        (C.cells core.new) registers.new (worked operation) }
{
    match operation {
        Add => add(core, registers),
        Subtract => subtract(core, registers),
        ZeroAdd => zero_add(core, registers),
        ZeroSubtract => zero_subtract(core, registers),
        Compare => compare(core, registers),
        ModifyAddress => modify(core, registers),
        Move => move_field(core, registers),
        Load => load_field(core, registers),
        MoveDigit => digit(core, registers),
        MoveZone => zone(core, registers),
        Suppress => suppress(core, registers),
        Edit => edit(core, registers),
        SetMark => set_mark(core, registers),
        ClearMark => clear_mark(core, registers),
    }
}

/// Does an operation on the fields at the addresses of its instruction.
#[inline(always)]
#[tactic(auto, unfolding(crate::specs::Effect::effect))]
fn work_on_fields<C: Core>(
    core: &mut C,
    registers: &mut Registers,
    operation: FieldOperation,
    instruction: Instruction,
    next: u16,
) -> Result<Course, Fault>
    ensures { (units : Units) → Ends result (works_of (C.cells core.old) registers.old units)
        (works_of (C.cells core.new) registers.new units)
        (effect (OnFields operation) (decoded_by instruction) next) }
{
    let Registers { a, b, .. } = *registers;
    registers.a = instruction.a;
    registers.b = instruction.b;
    if let Err(check) = work(core, registers, operation) {
        registers.a = a;
        registers.b = b;
        return Err(Fault::Stopped(check));
    }
    registers.i = next;
    Ok(Course::GoesOn)
}

/// Does one of the rarer operations on fields, out of line.
#[inline(never)]
fn work_rarely<C: Core>(
    core: &mut C,
    registers: &mut Registers,
    operation: FieldOperation,
    instruction: Instruction,
    next: u16,
) -> Result<Course, Fault>
    ensures { (units : Units) → Ends result (works_of (C.cells core.old) registers.old units)
        (works_of (C.cells core.new) registers.new units)
        (effect (OnFields operation) (decoded_by instruction) next) }
{
    work_on_fields(core, registers, operation, instruction, next)
}

/// Sets the registers after a branch that is taken.
#[inline(always)]
pub fn take_branch(registers: &mut Registers, instruction: Instruction, next: u16)
    ensures { registers.new ≡ branched (decoded_by instruction) next registers.old }
{
    registers.i = instruction.a;
    registers.a = instruction.a;
    registers.b = next;
}

/// Sets the registers after a branch that tested a position and is not taken.
#[inline(always)]
fn pass_position(registers: &mut Registers, instruction: Instruction, next: u16)
    requires { instruction.b < largest_size }
    ensures { registers.new ≡ record registers.old {
      i = next;
      a = instruction.a;
      b = lowered instruction.b 1;
    } }
{
    registers.i = next;
    registers.a = instruction.a;
    registers.b = lower(instruction.b, 1);
}

/// Branches if the condition is met that the last character names.
#[inline(always)]
pub fn branch_on_condition(
    registers: &mut Registers,
    units: &Units,
    instruction: Instruction,
    next: u16,
)
    ensures { registers.new ≡ (if is_met (condition_by instruction.last) registers.old units.now
        then branched (decoded_by instruction) next
        (once_tested (condition_by instruction.last) registers.old)
        else record (once_tested (condition_by instruction.last) registers.old)
        { i = next; a = instruction.a }) }
{
    if Condition::test(instruction.last, registers, units) {
        take_branch(registers, instruction, next);
    } else {
        registers.i = next;
        registers.a = instruction.a;
    }
}

/// Branches if the character at the second address is the last one of the instruction.
#[inline(always)]
pub fn branch_on_character<C: Core>(
    core: &C,
    registers: &mut Registers,
    instruction: Instruction,
    next: u16,
)
    requires inside { instruction.b < length (C.cells core.now) }
    requires below { instruction.b < largest_size }
    ensures { registers.new ≡ (if code_at (C.cells core.now) instruction.b == instruction.last
        then branched (decoded_by instruction) next registers.old
        else record registers.old
        { i = next; a = instruction.a; b = lowered instruction.b 1 }) }
{
    if core.get(instruction.b).number() == instruction.last.number() {
        take_branch(registers, instruction, next);
    } else {
        pass_position(registers, instruction, next);
    }
}

/// Branches, on a condition or on a character at a position.
#[inline(always)]
pub fn branch<C: Core>(
    core: &C,
    registers: &mut Registers,
    units: &Units,
    instruction: Instruction,
    next: u16,
)
    requires branch { is_glyph instruction.first (codes "B") ≡ true }
    requires inside { LooksInside (decoded_by instruction).modifier instruction.b
        (length (C.cells core.now)) }
    requires below { LooksInside (decoded_by instruction).modifier instruction.b largest_size }
    ensures { registers.new ≡ after_branch (decoded_by instruction) next
        (works_of (C.cells core.now) registers.old units.now) }
{
    if instruction.length == 5 {
        branch_on_condition(registers, units, instruction, next);
        return;
    }
    if instruction.length == 8 {
        branch_on_character(core, registers, instruction, next);
        return;
    }
    take_branch(registers, instruction, next);
}

/// Branches if the position at the second address passes the test that the last character names.
#[inline(always)]
pub fn branch_on_test<C: Core>(
    core: &C,
    registers: &mut Registers,
    units: &Units,
    instruction: Instruction,
    next: u16,
)
    requires branch { is_glyph instruction.first (codes "V") ≡ true }
    requires inside { LooksInside (decoded_by instruction).modifier instruction.b
        (length (C.cells core.now)) }
    requires below { LooksInside (decoded_by instruction).modifier instruction.b largest_size }
    ensures { registers.new ≡ after_branch (decoded_by instruction) next
        (works_of (C.cells core.now) registers.old units.now) }
{
    let Some(test) = PositionTest::of_code(instruction.last) else {
        take_branch(registers, instruction, next);
        return;
    };
    if test.passes(core, instruction.b) {
        take_branch(registers, instruction, next);
    } else {
        pass_position(registers, instruction, next);
    }
}

/// Clears storage from the address of its instruction down, and branches if it has two.
#[inline(never)]
#[tactic(auto, unfolding(crate::specs::Effect::effect))]
fn clear<C: Core>(
    core: &mut C,
    registers: &mut Registers,
    instruction: Instruction,
    next: u16,
) -> Result<Course, Fault>
    ensures { (units : Units) → Ends result (works_of (C.cells core.old) registers.old units)
        (works_of (C.cells core.new) registers.new units)
        (effect ClearStorage (decoded_by instruction) next) }
{
    let mut filled = Registers {
        a: instruction.a,
        b: instruction.b,
        ..*registers
    };
    clear_storage(core, &mut filled)?;
    *registers = filled;
    if instruction.length == 7 {
        take_branch(registers, instruction, next);
        return Ok(Course::GoesOn);
    }
    registers.i = next;
    Ok(Course::GoesOn)
}

/// Stores the A register.
#[inline(never)]
#[tactic(auto, unfolding(crate::specs::Effect::effect))]
fn store_a<C: Core>(
    core: &mut C,
    registers: &mut Registers,
    instruction: Instruction,
    next: u16,
) -> Result<Course, Fault>
    ensures { (units : Units) → Ends result (works_of (C.cells core.old) registers.old units)
        (works_of (C.cells core.new) registers.new units)
        (effect StoreA (decoded_by instruction) next) }
{
    store(core, instruction.a, registers.a)?;
    registers.i = next;
    registers.b = lower(instruction.a, 3);
    Ok(Course::GoesOn)
}

/// Stores the B register.
#[inline(never)]
#[tactic(auto, unfolding(crate::specs::Effect::effect))]
fn store_b<C: Core>(
    core: &mut C,
    registers: &mut Registers,
    instruction: Instruction,
    next: u16,
) -> Result<Course, Fault>
    ensures { (units : Units) → Ends result (works_of (C.cells core.old) registers.old units)
        (works_of (C.cells core.new) registers.new units)
        (effect StoreB (decoded_by instruction) next) }
{
    store(core, instruction.a, registers.b)?;
    registers.i = next;
    registers.a = lower(instruction.a, 3);
    Ok(Course::GoesOn)
}

/// Does an operation of the units, and branches if its instruction has an address.
#[inline(never)]
#[tactic(auto, unfolding(crate::specs::Effect::effect))]
fn operate_units<C: Core>(
    core: &mut C,
    registers: &mut Registers,
    units: &mut Units,
    instruction: Instruction,
    next: u16,
) -> Result<Course, Fault>
    requires { areas_end ≤ length (C.cells core.old) }
    ensures { Ends result (works_of (C.cells core.old) registers.old units.old)
        (works_of (C.cells core.new) registers.new units.new)
        (effect (Operate (devices instruction.first)) (decoded_by instruction) next) }
{
    operate(core, units, Devices::of_sum(instruction.first.number()))?;
    if instruction.length == 4 {
        take_branch(registers, instruction, next);
        return Ok(Course::GoesOn);
    }
    registers.i = next;
    Ok(Course::GoesOn)
}

/// Gives the carriage the order that the last character names.
#[inline(never)]
#[tactic(auto, unfolding(crate::specs::Effect::effect))]
fn give_order(
    registers: &mut Registers,
    units: &mut Units,
    instruction: Instruction,
    next: u16,
) -> Result<Course, Fault>
    requires { is_glyph instruction.first (codes "F") ≡ true }
    ensures { (s : Storage) → Ends result (works_of s registers.old units.old)
        (works_of s registers.new units.new)
        (effect MoveCarriage (decoded_by instruction) next) }
{
    if let Some(order) = CarriageOrder::of_code(instruction.last) {
        move_carriage(&mut units.printer, order)?;
        registers.i = next;
        return Ok(Course::GoesOn);
    }
    registers.i = next;
    Ok(Course::GoesOn)
}

/// Chooses the pocket that the last character names.
#[inline(never)]
#[tactic(auto, unfolding(crate::specs::Effect::effect))]
fn select_pocket(
    registers: &mut Registers,
    units: &mut Units,
    instruction: Instruction,
    next: u16,
) -> Result<Course, Fault>
    requires { is_glyph instruction.first (codes "K") ≡ true }
    ensures { (s : Storage) → Ends result (works_of s registers.old units.old)
        (works_of s registers.new units.new)
        (effect ChoosePocket (decoded_by instruction) next) }
{
    let pocket = Pocket::of_code(instruction.last).unwrap_or(Pocket::Normal);
    choose_pocket(&mut units.punch, pocket)?;
    registers.i = next;
    Ok(Course::GoesOn)
}

/// Sets the registers after a halt, which goes on at its own address if it has one.
fn halt(registers: &mut Registers, instruction: Instruction, next: u16)
    ensures { registers.new ≡ after_halt (decoded_by instruction) next registers.old }
{
    registers.i = next;
    if instruction.length == 4 {
        registers.i = instruction.a;
        registers.a = instruction.a;
    }
}

/// Executes one operation. `next` is the position after its instruction. Fails with the first check
/// that applies, or if there is no memory for a card or a line.
#[inline(always)]
pub fn execute<C: Core>(
    core: &mut C,
    registers: &mut Registers,
    units: &mut Units,
    instruction: Instruction,
    next: u16,
) -> Result<Course, Fault>
    requires size { areas_end ≤ length (C.cells core.old) }
    requires inside { LooksInside (decoded_by instruction).modifier instruction.b
        (length (C.cells core.old)) }
    requires below { LooksInside (decoded_by instruction).modifier instruction.b largest_size }
    ensures { Ends result (works_of (C.cells core.old) registers.old units.old)
        (works_of (C.cells core.new) registers.new units.new)
        (effect (decoded_by instruction).operation (decoded_by instruction) next) }
{
    match instruction.first.number() {
        ADD => work_on_fields(core, registers, Add, instruction, next),
        SUBTRACT => work_on_fields(core, registers, Subtract, instruction, next),
        COMPARE => work_on_fields(core, registers, Compare, instruction, next),
        MOVE => work_on_fields(core, registers, Move, instruction, next),
        LOAD => work_on_fields(core, registers, Load, instruction, next),
        BRANCH => {
            branch(core, registers, units, instruction, next);
            Ok(Course::GoesOn)
        }
        ZERO_ADD => work_rarely(core, registers, ZeroAdd, instruction, next),
        ZERO_SUBTRACT => work_rarely(core, registers, ZeroSubtract, instruction, next),
        MODIFY_ADDRESS => work_rarely(core, registers, ModifyAddress, instruction, next),
        MOVE_DIGIT => work_rarely(core, registers, MoveDigit, instruction, next),
        MOVE_ZONE => work_rarely(core, registers, MoveZone, instruction, next),
        SUPPRESS => work_rarely(core, registers, Suppress, instruction, next),
        EDIT => work_rarely(core, registers, Edit, instruction, next),
        SET_MARK => work_rarely(core, registers, SetMark, instruction, next),
        CLEAR_MARK => work_rarely(core, registers, ClearMark, instruction, next),
        CLEAR_STORAGE => clear(core, registers, instruction, next),
        BRANCH_ON_MARK_OR_ZONE => {
            branch_on_test(core, registers, units, instruction, next);
            Ok(Course::GoesOn)
        }
        FIRST_OF_UNITS..=LAST_OF_UNITS => operate_units(core, registers, units, instruction, next),
        MOVE_CARRIAGE => give_order(registers, units, instruction, next),
        CHOOSE_POCKET => select_pocket(registers, units, instruction, next),
        STORE_A => store_a(core, registers, instruction, next),
        STORE_B => store_b(core, registers, instruction, next),
        HALT => {
            halt(registers, instruction, next);
            Ok(Course::Halts)
        }
        _ => {
            registers.i = next;
            Ok(Course::GoesOn)
        }
    }
}
