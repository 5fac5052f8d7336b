//! The law of faults.

ghost use Rattle.std.specs.Prelude.{◌≡◌, ◌<◌, ◌∷◌, [], ℕ, List, length, false};
ghost use Rattle.cards.specs.declared.decks.Card.{Card};
ghost use Rattle.autocoder_layout.specs.{
  CardFaults.{faults_of},
  Layout.{Laid, IsLayout},
  Source.{has_end, lines_of},
};
ghost use Rattle.autocoder_layout.specs.declared.faults.SourceFault as source;
ghost use Rattle.autocoder_laws.specs.Faults.{AreLowest};

/// The law of faults: the faults of a source are, of each card that has any, the one with the
/// lowest number, in the order of the cards. What it is to have each fault is said without the
/// others. A source without a card has the fault 49 at card 0.
pub fn lowest_faults_are_told()
    ensures cards { (size : ℕ) (cards : List Card) (layout : List Laid) → 0 < length cards →
        IsLayout size (lines_of false cards) layout →
        AreLowest size cards layout (faults_of (has_end cards) layout) }
    ensures none { faults_of false [] ≡ record { card = 0; fault = source.SourceFault.NoEnd } ∷ [] }
{}
