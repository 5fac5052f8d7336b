//! The law of code.

ghost use Rattle.std.specs.Prelude.{◌≡◌, ◌++◌, ℕ, List};
ghost use Rattle.cards.specs.declared.decks.Card.{Card};
ghost use Rattle.core_store.specs.{Storage.{Storage, positions_of}, declared.sizes.Size.{Size}};
ghost use Rattle.machine.specs.Run.{after, loaded};
ghost use Rattle.units.specs.{
  declared.profiles.Profile.{Profile},
  declared.switches.Switches.{Switches},
};
ghost use Rattle.autocoder_layout.specs.Source.{source_of};
ghost use Rattle.autocoder.specs.Programs.{image_for, size_for};
ghost use Rattle.loader.specs.{Decks.{loading_cards_of}, Loading.{instructions_to_load}};
ghost use Rattle.disassembly.specs.Sources.{HaveSameCode, IsCodeOf, IsWhole};

use loader::faultless_sources_load;

/// The law of code: the loading cards of a source that is a storage's bring the same characters and
/// word marks into a machine of that size, at each position from 081 on, whatever data follow them;
/// and those of a whole deck start it where the storage was to start.
pub fn code_loads()
    ensures storage { (s : Storage) (source data_cards : List Card) (size : Size)
        (switches : Switches) (profile : Profile) → IsCodeOf s source →
        size_for source ≡ positions_of size → HaveSameCode s
        (after (loaded (loading_cards_of source ++ data_cards) size switches profile)
        (instructions_to_load (image_for source))).works.storage }
    ensures start { (s : Storage) (start : ℕ) (data_cards deck : List Card) (size : Size)
        (switches : Switches) (profile : Profile) → IsWhole s start data_cards deck →
        let source = source_of deck in size_for source ≡ positions_of size →
        (after (loaded (loading_cards_of source ++ data_cards) size switches profile)
        (instructions_to_load (image_for source))).works.registers.i ≡ start }
{
    faultless_sources_load();
}
