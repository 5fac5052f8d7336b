//! The laws of texts that are taken as decks.

ghost use Rattle.std.specs.Prelude.{◌≡◌, ℕ, List, []};
ghost use Rattle.cards.specs.{Decks.{IsDeck}, Files.{text_of}, declared.decks.Card.{Card}};
ghost use Rattle.card_texts.specs.{
  DeckTexts.{IsDeckText, TakesWholeCards, in_glyphs},
  Punching.{deck_text_of, faults_of},
  declared.rules.Rules.{Rules},
};

/// The law of what is punched: a text without faults is taken as a deck's text.
#[tactic(auto, using(crate::proofs::DeckLaw::punched_is_deck))]
pub fn punching_makes_decks()
    ensures { (rules : Rules) (text : List ℕ) → faults_of rules text ≡ [] →
        IsDeckText (deck_text_of rules text) }
{}

/// The law of decks: the text of a deck is taken as it is, whatever the rules make of small letters
/// and tabs, if they take the bureau's signs, look at all columns and take an empty line as a card.
#[tactic(auto, using(crate::proofs::DeckLaw::deck_is_faultless, crate::proofs::DeckLaw::deck_stays))]
pub fn punching_keeps_decks()
    ensures faultless { (rules : Rules) (deck : List Card) → TakesWholeCards rules → IsDeck deck →
        faults_of rules (text_of deck) ≡ [] }
    ensures same { (rules : Rules) (deck : List Card) → TakesWholeCards rules → IsDeck deck →
        deck_text_of rules (text_of deck) ≡ text_of deck }
{}

/// The law of a second punching: what a text was taken as is taken as it is, by the same rules for a
/// text in the bureau's signs.
#[tactic(auto, using(crate::proofs::SettlingLaw::punched_is_faultless, crate::proofs::SettlingLaw::punched_stays))]
pub fn punching_settles()
    ensures faultless { (rules : Rules) (text : List ℕ) → faults_of rules text ≡ [] →
        faults_of (in_glyphs rules) (deck_text_of rules text) ≡ [] }
    ensures same { (rules : Rules) (text : List ℕ) → faults_of rules text ≡ [] →
        deck_text_of (in_glyphs rules) (deck_text_of rules text) ≡ deck_text_of rules text }
{}
