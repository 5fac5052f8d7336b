//! The laws of layouts and literals.

ghost use Rattle.std.specs.{
  Prelude.{◌≡◌, ◌≢◌, ◌++◌, ◌∷◌, [], ℕ, List, if◌then◌else◌},
  List.{AllPairs},
};
ghost use Rattle.autocoder_layout.specs.{
  Source.{Line},
  Layout.{Laid, IsLayout, layout_of},
  Literals.{Characters, is_used, uses_of, firsts, literals_of},
  declared.slots.Slot.{Slot},
};

/// The law of layouts: a source has exactly one layout.
pub fn layout_is_unique()
    ensures one { (size : ℕ) (lines : List Line) → IsLayout size lines (layout_of size lines) }
    ensures no_other { (size : ℕ) (lines : List Line) (layout : List Laid) →
        IsLayout size lines layout → layout ≡ layout_of size lines }
{}

/// The law of literals: no two literals of a source are equal; each that is used is among them, and
/// no other; and one more use adds its literal at the end, if no use before it is of that literal.
pub fn literals_are_placed_once()
    ensures once { (lines : List Line) (slots : List Slot) →
        AllPairs (λ one other. one ≢ other) (literals_of lines slots) }
    ensures used { (lines : List Line) (slots : List Slot) (literal : Characters) →
        is_used (literals_of lines slots) literal ≡ is_used (uses_of lines slots) literal }
    ensures order { (uses : List Characters) (literal : Characters) →
        firsts [] (uses ++ literal ∷ [])
        ≡ firsts [] uses ++ (if is_used uses literal then [] else literal ∷ []) }
{}
