//! The law of the two files.

ghost use Rattle.std.specs.Prelude.{◌≡◌, ◌≢◌, ℕ, List};
ghost use Rattle.cards.specs.{
  Decks.{IsDeck},
  Faults.{IsFirstFault},
  Files.{file_of},
  declared.decks.Card.{Card},
  declared.faults.CardFault.{CardFault},
  declared.forms.Form.{Form},
};

/// The law of the two files: a file is the file of at most one deck, or has one first fault, and
/// not both. Hence a deck that was written is read as the same deck.
pub fn one_reading()
    ensures one_deck { (form : Form) (one two : List Card) → IsDeck one → IsDeck two →
        file_of form one ≡ file_of form two → one ≡ two }
    ensures one_fault { (form : Form) (file : List ℕ) (one two : CardFault) →
        IsFirstFault form file one → IsFirstFault form file two → one ≡ two }
    ensures not_both { (form : Form) (file : List ℕ) (fault : CardFault) (deck : List Card) →
        IsFirstFault form file fault → IsDeck deck → file ≢ file_of form deck }
{}
