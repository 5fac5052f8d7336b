//! The law of constants.

ghost use Rattle.std.specs.Prelude.{◌≡◌, ◌++◌, List, Some, ℕ};
ghost use Rattle.autocoder_statements.specs.{
  Constants.{constant},
  Statements.{whole},
  declared.constants.Constant.{Constant},
};
ghost use Rattle.autocoder_laws.specs.{Texts.{Joined, IsEnd}, Constants.{IsConstant}};

/// The law of constants, which `DCW` and `DC` have: characters between two `@`, digits with a sign
/// or without, and a number of blanks are read as they are spelled, and only what is so spelled is
/// read.
pub fn constants_are_read()
    ensures read { (c : Constant) (text rest : List ℕ) → IsConstant c text →
        IsEnd rest → whole (text ++ rest) (constant (text ++ rest)) ≡ Some c }
    ensures spelled { (c : Constant) (field : List ℕ) →
        whole field (constant field) ≡ Some c → Joined (IsConstant c) IsEnd field }
{}
