//! The card reader.

ghost use Rattle.std.specs.Prelude.{◌≡◌, ◌==◌, ◌<◌, ◌≤◌, false, length, Ok};
ghost use Rattle.core_store.specs.{
  Storage.{put_codes},
  declared.checks.Check.TheVariants.{ReaderEmpty},
};
ghost use Rattle.units.specs.Units.{read_area_end, card_read, IsStopped};

use crate::areas::{READ_AREA, put_codes};
use cards::{Card, Deck};
use core_store::Core;

/// The card reader: a deck, and the number of its cards that have been read.
#[derive(Drop)]
pub struct Hopper {
    pub deck: Deck,
    /// The number of cards read.
    pub taken: u16,
}

impl Hopper {
    /// Whether all cards have been read.
    pub(crate) fn is_empty(&self) -> bool
        ensures { result ≡ (self.now.taken == length self.now.deck) }
    {
        self.taken as usize == self.deck.cards().len()
    }

    /// Whether no card is left to read.
    #[tactic(auto, using(crate::proofs::OperationLemmas::card_there, crate::proofs::OperationLemmas::no_card))]
    pub(crate) fn has_no_card(&self) -> bool
        ensures left { result ≡ false → self.now.taken < length self.now.deck }
        ensures stopped { IsStopped result (λ s. card_read s self.now) ReaderEmpty }
    {
        self.taken as usize >= self.deck.cards().len()
    }
}

/// Writes a card into the read area, 001 to 080. Marks stay.
pub fn put_card<C: Core>(core: &mut C, card: &Card)
    requires { read_area_end ≤ length (C.cells core.old) }
    ensures { C.cells core.new ≡ put_codes (C.cells core.old) 1 card.now.0 }
{
    put_codes(core, READ_AREA, &card.0);
}

/// Reads the next card, if there is one.
#[tactic(auto, unfolding(crate::specs::Units::card_read))]
pub(crate) fn take_card<C: Core>(core: &mut C, hopper: &mut Hopper)
    requires size { read_area_end ≤ length (C.cells core.old) }
    requires some { hopper.old.taken < length hopper.old.deck }
    ensures { card_read (C.cells core.old) hopper.old ≡ Ok (C.cells core.new, hopper.new) }
{
    put_card(core, &hopper.deck.cards()[hopper.taken as usize]);
    hopper.taken += 1;
}
