//! The laws of stretches and of loading.

ghost use Rattle.std.specs.Prelude.{◌≡◌, ◌++◌, ◌+◌, ◌*◌, ◌≤◌, ℕ, List, length, take, flat_map};
ghost use Rattle.cards.specs.declared.decks.Card.{Card};
ghost use Rattle.core_store.specs.{Storage.{positions_of}, declared.sizes.Size.{Size}};
ghost use Rattle.autocoder_layout.specs.declared.cells.Cell.{Cell};
ghost use Rattle.machine.specs.Run.{after, loaded};
ghost use Rattle.units.specs.{
  declared.profiles.Profile.{Profile},
  declared.switches.Switches.{Switches},
};
ghost use Rattle.autocoder.specs.{
  Loadable.{IsLoadable},
  Programs.{IsFaultless, image_for, size_for, start_for},
};
ghost use Rattle.loader.specs.{
  Stretches.{IsSplit, stretches_of},
  Cards.{loading_cards},
  Decks.{loading_cards_of},
  Loading.{at_the_start, instructions_to_load, IsBetweenCards},
};

use autocoder::faultless_sources_can_be_loaded;

/// The law of stretches: there is exactly one way to split an image into longest stretches.
pub fn stretches_are_longest()
    ensures split { (image : List Cell) → IsSplit image (stretches_of image) }
    ensures no_other { (image : List Cell) (stretches : List (List Cell)) →
        IsSplit image stretches → stretches ≡ stretches_of image }
{}

/// The law of loading: the loading cards bring a program into a machine and start it, whatever data
/// follow them and whatever the machine's profile (`loads`). It is proved card by card: after the
/// boot card's instructions, and after those of each load card, the machine is ready for the next
/// card, and has filled the positions of those stretches and no others (`by_cards`).
#[tactic(auto, using(crate::proofs::LoadingLaw::brought, crate::proofs::LoadingLaw::by_cards))]
pub fn cards_load_the_program()
    ensures loads { (size : Size) (image : List Cell) (start : ℕ) (data_cards : List Card)
        (switches : Switches) (profile : Profile) → IsLoadable (positions_of size) image start →
        after (loaded (loading_cards image start ++ data_cards) size switches profile)
        (instructions_to_load image) ≡ at_the_start image start data_cards size switches profile }
    ensures by_cards { (size : Size) (image : List Cell) (start : ℕ) (data_cards : List Card)
        (switches : Switches) (profile : Profile) → IsLoadable (positions_of size) image start →
        (k : ℕ) → k ≤ length (stretches_of image) →
        IsBetweenCards (flat_map (λ stretch. stretch) (take k (stretches_of image))) (2 + k) size
        (after (loaded (loading_cards image start ++ data_cards) size switches profile)
        (11 + 5 * k)) }
{}

/// The law of larger storages: a program that cards can load into a storage can be loaded into a
/// larger one.
#[tactic(auto, using(crate::proofs::LoadingLaw::wider))]
pub fn larger_storages_can_be_loaded()
    ensures { (size larger : ℕ) (image : List Cell) (start : ℕ) → size ≤ larger →
        IsLoadable size image start → IsLoadable larger image start }
{}

/// The law of faultless sources: the program of a source that has no fault can be loaded by cards
/// into any machine of at least the source's size (`loadable`), and its loading cards bring it
/// there and start it, whatever data follow them and whatever the machine's profile (`loads`).
pub fn faultless_sources_load()
    ensures loadable { (source : List Card) (size : Size) → IsFaultless source →
        size_for source ≤ positions_of size →
        IsLoadable (positions_of size) (image_for source) (start_for source) }
    ensures loads { (source data_cards : List Card) (size : Size) (switches : Switches)
        (profile : Profile) → IsFaultless source → size_for source ≤ positions_of size →
        after (loaded (loading_cards_of source ++ data_cards) size switches profile)
        (instructions_to_load (image_for source))
        ≡ at_the_start (image_for source) (start_for source) data_cards size switches profile }
{
    faultless_sources_can_be_loaded();
    larger_storages_can_be_loaded();
    cards_load_the_program();
}
