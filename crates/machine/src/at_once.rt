//! The usual instructions, executed at once.
//!
//! Most instructions that a program executes name their positions themselves, and work on fields
//! that end clear of position 000, or branch. These are done here, and all others as in `cycle`. Of
//! those whose positions index locations tell, so are moves and branches on a character.

ghost use Rattle.std.specs.Prelude.{◌≡◌, ◌≤◌, ◌<◌, ℕ, true, false, codes, length, Ok, IfSome};
ghost use Rattle.core_store.specs.{
  Doing.{DoesAtOrLeaves},
  Operands.{AreClear},
  Storage.{largest_size},
};
ghost use Rattle.units.specs.declared.units.Units.{Units};
ghost use Rattle.machine.specs.{
  declared.named.Operation.TheVariants.{OnFields},
  declared.operations.Course.TheVariants.{GoesOn},
  Effect.{effect, worked, works_of},
  Glyphs.{is_glyph},
  Instructions.{decoded_by},
  Kinds.{shape_effect, IsRight},
  Shapes.{instruction_at, operands_at},
};

use crate::cache::Entry;
use crate::decode::operands;
use crate::instruction::Instruction;
use crate::kinds::Kind;
use crate::operations::FieldOperation::{
    self, Add, Compare, Edit, Load, ModifyAddress, Move, Subtract, Suppress, ZeroAdd, ZeroSubtract,
};
use crate::operations::{branch_on_character, branch_on_condition, branch_on_test, take_branch};
use arith::{
    add_clear, compare_clear, modify_clear, subtract_clear, zero_add_clear, zero_subtract_clear,
};
use core_store::{Core, Registers, are_clear, are_inside};
use moves::{edit_clear, load_at, load_clear, move_at, move_clear, suppress_clear};
use units::Units;

/// Does an operation on the fields at A and B, if it can be done at once. Returns whether it was;
/// if not, nothing is changed.
#[inline(always)]
#[tactic(auto, unfolding(crate::specs::Effect::worked))]
fn work_at_once<C: Core>(
    core: &mut C,
    registers: &mut Registers,
    operation: FieldOperation,
    a: u16,
    b: u16,
) -> bool
    requires { AreClear (C.cells core.old) a b }
    ensures { DoesAtOrLeaves result (C.cells core.old) registers.old a b
        (C.cells core.new) registers.new (worked operation) }
{
    match operation {
        Add => add_clear(core, registers, a, b),
        Subtract => subtract_clear(core, registers, a, b),
        Compare => compare_clear(core, registers, a, b),
        ZeroAdd => zero_add_clear(core, registers, a, b),
        ZeroSubtract => zero_subtract_clear(core, registers, a, b),
        ModifyAddress => modify_clear(core, registers, a, b),
        Move => move_clear(core, registers, a, b) || move_at(core, registers, a, b).is_ok(),
        Load => load_clear(core, registers, a, b) || load_at(core, registers, a, b).is_ok(),
        Suppress => suppress_clear(core, registers, a, b),
        Edit => edit_clear(core, registers, a, b),
        _ => false,
    }
}

/// Does an operation on the fields at the addresses of its instruction, in the same way.
#[inline(always)]
#[tactic(auto, unfolding(crate::specs::Effect::effect))]
fn work_on_fields_at_once<C: Core>(
    core: &mut C,
    registers: &mut Registers,
    operation: FieldOperation,
    instruction: Instruction,
    next: u16,
) -> bool
    requires { AreClear (C.cells core.old) instruction.a instruction.b }
    ensures done { result ≡ true → (units : Units) →
        effect (OnFields operation) (decoded_by instruction) next
        (works_of (C.cells core.old) registers.old units)
        ≡ Ok (works_of (C.cells core.new) registers.new units, GoesOn) }
    ensures next { result ≡ true → registers.new.i ≡ next }
    ensures unchanged { result ≡ false → (C.cells core.new ≡ C.cells core.old)
        × (registers.new ≡ registers.old) }
{
    if !work_at_once(core, registers, operation, instruction.a, instruction.b) {
        return false;
    }
    registers.i = next;
    true
}

/// The instruction that is kept, at the positions at which it works just then, if it has some.
#[inline(always)]
fn placed_now<C: Core>(core: &C, registers: &Registers, entry: &Entry) -> Option<Instruction>
    ensures placed { IfSome result (λ instruction.
        operands_at (C.cells core.now) registers.now entry.now.shape.addresses
        ≡ Ok (instruction.a, instruction.b)) }
    ensures shape { IfSome result (λ instruction.
        instruction ≡ instruction_at entry.now.shape instruction.a instruction.b) }
{
    let Ok((a, b)) = operands(core, registers, &entry.shape.addresses) else {
        return None;
    };
    Some(entry.shape.working_at(a, b))
}

/// Moves characters between positions that index locations or the registers tell, in the same way.
#[inline(never)]
fn move_indexed<C: Core>(core: &mut C, registers: &mut Registers, entry: &Entry, next: u16) -> bool
    requires { is_glyph entry.now.shape.first (codes "M") ≡ true }
    ensures done { result ≡ true → (units : Units) →
        shape_effect entry.now.shape next (works_of (C.cells core.old) registers.old units)
        ≡ Ok (works_of (C.cells core.new) registers.new units, GoesOn) }
    ensures next { result ≡ true → registers.new.i ≡ next }
    ensures unchanged { result ≡ false → (C.cells core.new ≡ C.cells core.old)
        × (registers.new ≡ registers.old) }
{
    let Some(instruction) = placed_now(core, registers, entry) else {
        return false;
    };
    if are_clear(core, instruction.a, instruction.b) {
        return work_on_fields_at_once(core, registers, Move, instruction, next);
    }
    false
}

/// Does the same. Register I is written here once more, so that its value is known.
#[inline(always)]
fn move_and_go_on<C: Core>(
    core: &mut C,
    registers: &mut Registers,
    entry: &Entry,
    next: u16,
) -> bool
    requires { is_glyph entry.now.shape.first (codes "M") ≡ true }
    ensures done { result ≡ true → (units : Units) →
        shape_effect entry.now.shape next (works_of (C.cells core.old) registers.old units)
        ≡ Ok (works_of (C.cells core.new) registers.new units, GoesOn) }
    ensures unchanged { result ≡ false → (C.cells core.new ≡ C.cells core.old)
        × (registers.new ≡ registers.old) }
{
    if !move_indexed(core, registers, entry, next) {
        return false;
    }
    registers.i = next;
    true
}

/// Branches on a character at a position that an index location tells, or to one, in the same way.
#[inline(never)]
fn branch_indexed<C: Core>(core: &C, registers: &mut Registers, entry: &Entry, next: u16) -> bool
    requires named { is_glyph entry.now.shape.first (codes "B") ≡ true }
    requires eight { entry.now.shape.length ≡ 8 }
    ensures done { result ≡ true → (units : Units) →
        shape_effect entry.now.shape next (works_of (C.cells core.now) registers.old units)
        ≡ Ok (works_of (C.cells core.now) registers.new units, GoesOn) }
    ensures unchanged { result ≡ false → registers.new ≡ registers.old }
{
    let Some(instruction) = placed_now(core, registers, entry) else {
        return false;
    };
    if are_inside(core, instruction.a, instruction.b) {
        branch_on_character(core, registers, instruction, next);
        return true;
    }
    false
}

/// Branches on a test of a position, or as above, out of line, in the same way.
#[inline(never)]
fn branch_rarely<C: Core>(
    core: &C,
    registers: &mut Registers,
    units: &Units,
    entry: &Entry,
    next: u16,
) -> bool
    requires right { IsRight (length (C.cells core.now)) entry.now }
    requires size { length (C.cells core.now) ≤ largest_size }
    ensures done { result ≡ true →
        shape_effect entry.now.shape next (works_of (C.cells core.now) registers.old units.now)
        ≡ Ok (works_of (C.cells core.now) registers.new units.now, GoesOn) }
    ensures unchanged { result ≡ false → registers.new ≡ registers.old }
{
    match entry.kind {
        Kind::BranchOnTest => {
            let instruction = entry.shape.working_at(entry.a, entry.b);
            branch_on_test(core, registers, units, instruction, next);
            true
        }
        Kind::IndexedBranch => branch_indexed(core, registers, entry, next),
        _ => false,
    }
}

/// Executes an instruction of a usual or an indexed kind, if it can be done at once. Returns whether
/// it was; if not, nothing is changed. `next` is the position after it.
#[inline(always)]
pub fn execute_at_once<C: Core>(
    core: &mut C,
    registers: &mut Registers,
    units: &Units,
    entry: &Entry,
    next: u16,
) -> bool
    requires right { IsRight (length (C.cells core.old)) entry.now }
    requires size { length (C.cells core.old) ≤ largest_size }
    ensures done { result ≡ true →
        shape_effect entry.now.shape next (works_of (C.cells core.old) registers.old units.now)
        ≡ Ok (works_of (C.cells core.new) registers.new units.now, GoesOn) }
    ensures unchanged { result ≡ false → (C.cells core.new ≡ C.cells core.old)
        × (registers.new ≡ registers.old) }
{
    let instruction = entry.shape.working_at(entry.a, entry.b);
    match entry.kind {
        Kind::Add => work_on_fields_at_once(core, registers, Add, instruction, next),
        Kind::Subtract => work_on_fields_at_once(core, registers, Subtract, instruction, next),
        Kind::Compare => work_on_fields_at_once(core, registers, Compare, instruction, next),
        Kind::ZeroAdd => work_on_fields_at_once(core, registers, ZeroAdd, instruction, next),
        Kind::ZeroSubtract => {
            work_on_fields_at_once(core, registers, ZeroSubtract, instruction, next)
        }
        Kind::ModifyAddress => {
            work_on_fields_at_once(core, registers, ModifyAddress, instruction, next)
        }
        Kind::Move => work_on_fields_at_once(core, registers, Move, instruction, next),
        Kind::Load => work_on_fields_at_once(core, registers, Load, instruction, next),
        Kind::Suppress => work_on_fields_at_once(core, registers, Suppress, instruction, next),
        Kind::Edit => work_on_fields_at_once(core, registers, Edit, instruction, next),
        Kind::Branch => {
            take_branch(registers, instruction, next);
            true
        }
        Kind::BranchOnCondition => {
            branch_on_condition(registers, units, instruction, next);
            true
        }
        Kind::BranchOnCharacter => {
            branch_on_character(core, registers, instruction, next);
            true
        }
        Kind::BranchOnTest | Kind::IndexedBranch => {
            branch_rarely(core, registers, units, entry, next)
        }
        Kind::IndexedMove => move_and_go_on(core, registers, entry, next),
        Kind::Other => false,
    }
}
