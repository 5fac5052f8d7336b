//! The law of expressions.

ghost use Rattle.std.specs.Prelude.{◌≡◌, ◌++◌, List, Some, ℕ};
ghost use Rattle.autocoder_statements.specs.{
  Expressions.{expression},
  Ranges.{IsAdjustmentInRange},
  Statements.{whole},
  declared.expressions.Expression.{Expression},
};
ghost use Rattle.autocoder_laws.specs.{
  Texts.{Joined, IsEnd},
  Addresses.{HasSpelling, IsExpression},
};

/// The law of expressions, which `ORG`, `EQU` and `END` have: a number or a name, with the number
/// that is added to it or taken away, is read as it is spelled, and only what is so spelled is
/// read. Each expression with numbers below 100,000 can be spelled.
pub fn expressions_are_read()
    ensures read { (e : Expression) (text rest : List ℕ) → IsExpression e text →
        IsEnd rest → whole (text ++ rest) (expression (text ++ rest)) ≡ Some e }
    ensures spelled { (e : Expression) (field : List ℕ) →
        whole field (expression field) ≡ Some e → Joined (IsExpression e) IsEnd field }
    ensures each { (e : Expression) → HasSpelling e.base → IsAdjustmentInRange e.adjustment →
        (text : List ℕ) × IsExpression e text }
{}
