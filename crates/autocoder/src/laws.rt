//! The law of sources without faults.

ghost use Rattle.std.specs.Prelude.{List};
ghost use Rattle.cards.specs.declared.decks.Card.{Card};
ghost use Rattle.autocoder.specs.{
  Loadable.{IsLoadable},
  Programs.{IsFaultless, image_for, size_for, start_for},
};

/// The law of faultless sources: the program of a source that has no fault can be loaded by cards
/// into a storage of the source's size.
#[tactic(auto, using(crate::proofs::LoadingLaw::faultless_loads))]
pub fn faultless_sources_can_be_loaded()
    ensures { (source : List Card) → IsFaultless source →
        IsLoadable (size_for source) (image_for source) (start_for source) }
{}
