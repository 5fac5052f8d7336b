//! The laws of films.

ghost use Rattle.std.specs.Prelude.{◌≡◌, ◌+◌, ◌<◌, ◌≤◌, ℕ, All, List, Option, length, take};
ghost use Rattle.cards.specs.{Decks.{largest_deck}, declared.decks.Card.{Card}};
ghost use Rattle.core_store.specs.{Storage.{positions_of}, declared.sizes.Size.{Size}};
ghost use Rattle.units.specs.declared.{
  profiles.Profile.TheVariants.{Selecting},
  switches.Switches.{Switches},
};
ghost use Rattle.machine.specs.Run.{State, after, loaded};
ghost use Rattle.run_traces.specs.Names.{Named};
ghost use Rattle.films.specs.{
  Changes.{all_played, change, played},
  Films.{film_text},
  Frames.{ComesBehind, Frame, cards_before, frame_of, lines_before, nothing},
  Laws.{IsReadable, Shows},
  Reading.{changes_read},
};

/// The law of changes: the change from a frame to one that comes behind it, played on the first,
/// gives the second. It holds whatever instruction led there.
#[tactic(auto, using(crate::proofs::ChangeLaw::change_played))]
pub fn changes_are_played()
    ensures { (old new : Frame) → ComesBehind old new → played old (change old new) ≡ new }
{}

/// The law of films: of the changes that are read of a film's text, the first and n more, played
/// one after the other on nothing, give the frame of the machine after n steps.
#[tactic(auto, using(crate::proofs::FilmLaw::film_again))]
pub fn film_is_read()
    ensures { (names : Option Named) (made : ℕ) (m : State) (steps : ℕ) →
        ((k : ℕ) → k ≤ steps → IsReadable (after m k)) →
        Shows (film_text names made m steps) m steps }
{}

/// The law of the film of a run: so it is of a deck with at most 2,000 cards, of a film that begins
/// so many steps behind the load button, where each position of the storage has one of the 64
/// characters all the while.
#[tactic(auto, using(crate::proofs::RunLaw::run_again))]
pub fn film_of_a_run_is_read()
    ensures { (names : Option Named) (deck : List Card) (size : Size) (switches : Switches)
        (made before steps n : ℕ) → 0 < length deck → length deck ≤ largest_deck →
        ((k : ℕ) → k ≤ before + steps → All (λ cell. cell.0 < 64)
        (after (loaded deck size switches Selecting) k).works.storage) → n ≤ steps →
        all_played (nothing (positions_of size)) (take (n + 1) (changes_read
        (film_text names made (after (loaded deck size switches Selecting) before) steps)))
        ≡ frame_of (lines_before (after (loaded deck size switches Selecting) before))
        (cards_before (after (loaded deck size switches Selecting) before))
        (after (loaded deck size switches Selecting) (before + n)) }
{}
