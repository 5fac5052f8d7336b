//! The laws of the code in a listing.

ghost use Rattle.std.specs.Prelude.{ℕ, ◌≡◌, ◌≢◌, true, List, flat_map, AllPairs, Contains};
ghost use Rattle.cards.specs.declared.decks.Card.{Card};
ghost use Rattle.autocoder_layout.specs.{declared.cells.Cell.{Cell}, declared.slots.Slot.{Slot}};
ghost use Rattle.autocoder.specs.{Listing.{line_text}, Programs.{IsFaultless, image_for}};
ghost use Rattle.autocoder_listings.specs.{
  Coded.{lines_with_code},
  Narrow.{is_placed, lines_below},
  Reading.{code_shown},
  Widths.{behind, lines_beside, lines_under},
};

/// The law of the code in a listing: the characters that the listing of a source without faults
/// shows, each row from its address on, are those of the program's image with their word marks, and
/// no others. No position is shown twice.
#[tactic(auto, using(crate::proofs::CodeLaw::image_shown, crate::proofs::CodeLaw::shown_in_image, crate::proofs::CodeLaw::each_once))]
pub fn code_shown_is_the_image()
    ensures all { (source : List Card) → IsFaultless source → (c : Cell) →
        Contains (image_for source) c → Contains (code_shown source) c }
    ensures no_other { (source : List Card) → IsFaultless source → (c : Cell) →
        Contains (code_shown source) c → Contains (image_for source) c }
    ensures once { (source : List Card) → IsFaultless source →
        AllPairs (λ c d. c.position ≢ d.position) (code_shown source) }
{}

/// The law of widths: what stands behind column 91 of a card's lines in the wide listing stands
/// behind column 10 of the lines below the card in the narrow one. So both show the same code.
#[tactic(auto, using(crate::proofs::WidthLaw::beside_is, crate::proofs::WidthLaw::below_is, crate::proofs::WidthLaw::same_code))]
pub fn both_widths_show_one_code()
    ensures beside { (number : ℕ) (slot : Slot) (card : Card) (cells : List Cell) →
        lines_with_code number slot card cells
        ≡ flat_map line_text (lines_beside number slot card cells) }
    ensures below { (number : ℕ) (slot : Slot) (card : Card) (cells : List Cell) →
        is_placed slot cells ≡ true → lines_below number slot card cells
        ≡ flat_map line_text (lines_under number slot card cells) }
    ensures same { (number : ℕ) (slot : Slot) (card : Card) (cells : List Cell) →
        behind 10 (lines_under number slot card cells)
        ≡ behind 91 (lines_beside number slot card cells) }
{}
