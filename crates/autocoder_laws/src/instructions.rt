//! The law of instructions.

ghost use Rattle.std.specs.Prelude.{◌≡◌, ℕ, List, Option, Some, Ok};
ghost use Rattle.cards.specs.declared.decks.Card.{Card};
ghost use Rattle.autocoder_statements.specs.{
  Mnemonics.{mnemonics, entry, mnemonic_of, instruction_with, IsAmong},
  Statements.{statement_on},
  declared.operand_forms.OperandForm.{OperandForm},
  declared.names.Name.{Name},
  declared.operands.Operands.{Operands},
  declared.operand_forms.OperandForms.{OperandForms},
  declared.operations.Instruction.{Instruction},
};
ghost use Rattle.autocoder_statements.specs.declared.reading.Statement as statement;
ghost use Rattle.autocoder_laws.specs.{Cards.{mnemonic_on}, Instructions.{IsOfForm, IsAssembledAs}};

/// The law of instructions: each mnemonic, in each of its forms, with each last character that it
/// allows, is assembled to an instruction that the machine decodes as the operation that the
/// mnemonic means, in that form, with the meaning of its last character. Only an address may be at
/// fault. The same holds of each card that is read as an instruction.
pub fn instructions_are_decoded()
    ensures forms { (mnemonic : List ℕ) (row : ℕ × Option ℕ × OperandForms) (form : OperandForm)
        (operands : Operands) → entry mnemonics mnemonic ≡ Some row → IsAmong row.2 form →
        IsOfForm form operands →
        IsAssembledAs mnemonic (instruction_with (mnemonic_of row) operands) }
    ensures cards { (card : Card) (label : Option Name) (spelled : Instruction) →
        statement_on card ≡ Ok (statement.Statement.Instruction label spelled) →
        IsAssembledAs (mnemonic_on card) spelled }
{}
