//! The law of operands.

ghost use Rattle.std.specs.Prelude.{◌≡◌, ◌≤◌, ℕ, List, Some};
ghost use Rattle.addresses.specs.Effective.{position_of};
ghost use Rattle.core_store.specs.Storage.{Storage, largest_size};
ghost use Rattle.machine.specs.Word.{operand_at};
ghost use Rattle.autocoder_statements.specs.{
  declared.operands.Operand.{Operand},
  declared.operations.Instruction.{Instruction},
};
ghost use Rattle.autocoder_layout.specs.{
  Cells.{instruction_codes},
  Literals.{Characters},
  declared.slots.Slot.{Slot},
};
ghost use Rattle.autocoder_laws.specs.Operands.{meant_by};

/// The law of operands: the machine reads each address of an assembled instruction as the position
/// that its operand means, in any storage in which the instruction is run.
pub fn operands_are_read()
    ensures first { (size : ℕ) (slots : List Slot) (literals : List Characters)
        (spelled : Instruction) (operand : Operand) (s : Storage) → size ≤ largest_size →
        spelled.first ≡ Some operand →
        operand_at s (instruction_codes size slots literals spelled) 1
        ≡ position_of s (meant_by size slots literals operand) }
    ensures second { (size : ℕ) (slots : List Slot) (literals : List Characters)
        (spelled : Instruction) (first operand : Operand) (s : Storage) → size ≤ largest_size →
        spelled.first ≡ Some first → spelled.second ≡ Some operand →
        operand_at s (instruction_codes size slots literals spelled) 4
        ≡ position_of s (meant_by size slots literals operand) }
{}
