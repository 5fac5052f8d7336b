//! The law of operand fields.

ghost use Rattle.std.specs.Prelude.{◌≡◌, ◌++◌, List, Some, ℕ};
ghost use Rattle.autocoder_statements.specs.{
  Operands.{operands},
  declared.operand_forms.OperandForm.{OperandForm},
  declared.operands.Operands.{Operands},
};
ghost use Rattle.autocoder_laws.specs.{Texts.{Joined, IsEnd}, OperandFields.{AreOperands}};

/// The law of operand fields: the operands of each form are read as they are spelled, whatever
/// comment comes after them, and only operands that are so spelled are read. So a field has one
/// meaning at most in each form.
pub fn operand_fields_are_read()
    ensures read { (form : OperandForm) (o : Operands) (text rest : List ℕ) →
        AreOperands form o text → IsEnd rest → operands form (text ++ rest) ≡ Some o }
    ensures spelled { (form : OperandForm) (o : Operands) (field : List ℕ) →
        operands form field ≡ Some o → Joined (AreOperands form o) IsEnd field }
    ensures one { (form : OperandForm) (one other : Operands) (field : List ℕ) →
        Joined (AreOperands form one) IsEnd field → Joined (AreOperands form other) IsEnd field →
        one ≡ other }
{}
