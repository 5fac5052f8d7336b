//! The law of numbers.

ghost use Rattle.std.specs.Prelude.{◌≡◌, ◌<◌, ◌++◌, ℕ, List, Some};
ghost use Rattle.autocoder_statements.specs.{
  Expressions.{positive},
  Laws.{digits_of},
  Statements.{whole},
};
ghost use Rattle.autocoder_laws.specs.{Texts.{Joined, IsEnd}, Numbers.{IsPositive}};

/// The law of numbers, which `DS` has: a number that is spelled at the beginning of a field and
/// ended there is read as that number, and what is read as a number is so spelled. Each number from
/// 1 to 99,999 can be spelled.
pub fn numbers_are_read()
    ensures read { (n : ℕ) (text rest : List ℕ) → IsPositive n text → IsEnd rest →
        whole (text ++ rest) (positive (text ++ rest)) ≡ Some n }
    ensures spelled { (n : ℕ) (field : List ℕ) → whole field (positive field) ≡ Some n →
        Joined (IsPositive n) IsEnd field }
    ensures each { (n : ℕ) → 0 < n → n < 100000 → IsPositive n (digits_of 5 n) }
{}
