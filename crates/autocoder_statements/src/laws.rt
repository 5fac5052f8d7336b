//! Laws of numbers, of the tables and of the forms.

ghost use Rattle.std.specs.Prelude.{◌≡◌, ◌<◌, ◌≤◌, ◌^◌, ◌++◌, ℕ, List, Some, true, false};
ghost use Rattle.autocoder_statements.specs.{
  Expressions.{digit_run, most_digits, number},
  Laws.{IsOneOperation, digits_of, fits},
  declared.operand_forms.OperandForm.TheVariants.{Empty, One, Two},
  declared.operand_kinds.OperandKind.{OperandKind},
};

/// The law of numbers: a number spelled in one to five digits is read as that number, if no digit
/// follows.
pub fn a_number_is_read()
    ensures { (count n : ℕ) (rest : List ℕ) → 0 < count → count ≤ most_digits → n < 10 ^ count →
        digit_run rest ≡ 0 → number (digits_of count n ++ rest) ≡ Some (n, count) }
{}

/// The law of names: a word is the name of one operation at most.
pub fn a_word_names_one_operation()
    ensures { (word : List ℕ) → IsOneOperation word }
{}

/// The law of forms: a field has at most one of the forms without a last character. Hence the order
/// in which the forms of a mnemonic are tried does not matter.
pub fn a_field_has_one_form()
    ensures none_or_one { (kind : OperandKind) (text : List ℕ) → fits Empty text ≡ true →
        fits (One kind) text ≡ false }
    ensures none_or_two { (kind other : OperandKind) (text : List ℕ) → fits Empty text ≡ true →
        fits (Two kind other) text ≡ false }
    ensures one_or_two { (kind other third : OperandKind) (text : List ℕ) →
        fits (One kind) text ≡ true → fits (Two other third) text ≡ false }
{}
