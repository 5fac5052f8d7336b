//! The law of statements.

ghost use Rattle.std.specs.Prelude.{◌≡◌, [], ℕ, List, Some, IsSome, Contains};
ghost use Rattle.cards.specs.Decks.{AreCharacters};
ghost use Rattle.core_store.specs.Storage.{largest_size};
ghost use Rattle.autocoder_statements.specs.{
  Mnemonics.{Row, mnemonics, mnemonic_of, instruction},
  declared.operations.Instruction.{Instruction},
};
ghost use Rattle.autocoder_layout.specs.Cells.{instruction_codes};
ghost use Rattle.disassembly.specs.{
  Statements.{statement_of},
  declared.statements.Statement.{Statement},
};
ghost use Rattle.autocoder_laws.specs.Disassembly.{IsMadeOf, IsNumbered};

/// The law of statements: where an instruction's characters have a statement, the assembler makes
/// just these characters of its text (`made`). Where they have none, no operand field of a mnemonic
/// that has numbers alone gives them (`found`).
pub fn statements_are_exact()
    ensures made { (word : List ℕ) (found : Statement) → AreCharacters word →
        statement_of word ≡ Some found → IsMadeOf found word }
    ensures found { (row : Row) (field : List ℕ) (spelled : Instruction) →
        Contains mnemonics row → instruction (mnemonic_of row.1) field ≡ Some spelled →
        IsNumbered spelled.first → IsNumbered spelled.second →
        IsSome (statement_of (instruction_codes largest_size [] [] spelled)) }
{}
