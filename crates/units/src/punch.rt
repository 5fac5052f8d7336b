//! The card punch.

ghost use Rattle.std.specs.Prelude.{◌≡◌, ◌≤◌, length, take, Ok, Err, OnOk, OnErr, IfErr};
ghost use Rattle.core_store.specs.declared.checks.Check.TheVariants.{PunchFull};
ghost use Rattle.units.specs.{
  Pockets.{pocket_chosen},
  Units.{punch_area_end, card_punched, IsStopped, PunchFails},
};

use crate::areas::{PUNCH_AREA, codes_at};
use crate::fault::Fault;
use crate::pockets::Pocket;
use crate::profiles::Profile;
use cards::Card;
use core_store::{Check, Core};
use std::alloc::AllocError;
use std::marker::Model;

/// The greatest number of cards that the punch makes.
pub const MOST_CARDS: usize = 10_000;

/// A punched card, and its pocket.
#[derive(Clone, Copy)]
pub struct Punched {
    pub card: Card,
    pub pocket: Pocket,
}

/// The card punch: the cards punched after those that are kept elsewhere, in order, and the choice
/// of a pocket.
#[derive(Drop)]
pub struct Punch {
    /// The cards in the order of punching.
    pub cards: Vec<Punched>,
    /// The pocket chosen for the next card.
    pub chosen: Pocket,
    /// The machine's profile, by which a pocket may be chosen or not.
    pub profile: Profile,
}

impl Model for Punch {
    ghost use Rattle.units.specs.Stacked.{Stacked};

    ghost Value = { Stacked };

    ghost view = { λ p. record { cards = p.cards.items; chosen = p.chosen; profile = p.profile } };
}

impl Punch {
    /// Whether the punch has made its greatest number of cards: `before` earlier ones, and these.
    #[tactic(auto, unfolding(crate::specs::Units::card_punched))]
    pub(crate) fn is_full(&self, before: u32) -> bool
        ensures { IsStopped result (λ s. card_punched before s self.now) PunchFull }
    {
        self.cards.len() >= MOST_CARDS.saturating_sub(before as usize)
    }

    /// The number of cards punched.
    pub(crate) fn count(&self) -> usize
        ensures { result ≡ length self.now.cards }
    {
        self.cards.len()
    }

    /// Takes memory for all cards that can be punched.
    pub(crate) fn make_room(&mut self) -> Result<(), AllocError>
        ensures { self.new ≡ self.old }
    {
        self.cards.reserve_exact(MOST_CARDS)
    }

    /// Removes all cards after the first `count`, and chooses this pocket again.
    pub(crate) fn take_back(&mut self, count: usize, chosen: Pocket)
        ensures { self.new ≡ record self.old {
          cards = take count self.old.cards;
          chosen = chosen;
        } }
    {
        self.cards.truncate(count);
        self.chosen = chosen;
    }
}

/// Chooses the pocket of the next card, in place of any chosen before; the normal pocket leaves the
/// choice as it is. INSTRUCTION if the profile has no stacker selection.
#[tactic(auto, unfolding(crate::specs::Pockets::pocket_chosen))]
pub fn choose_pocket(punch: &mut Punch, pocket: Pocket) -> Result<(), Check>
    ensures done { OnOk result (pocket_chosen pocket punch.old ≡ Ok punch.new) }
    ensures check { IfErr result (λ check. pocket_chosen pocket punch.old ≡ Err check) }
    ensures unchanged { OnErr result (punch.new ≡ punch.old) }
{
    if !punch.profile.is_selecting() {
        return Err(Check::Instruction);
    }
    punch.chosen = pocket.chosen_after(punch.chosen);
    Ok(())
}

/// Punches the punch area, 101 to 180, into one more card, in the pocket that was chosen; then none
/// is chosen. PUNCH FULL if the punch has made its greatest number of cards: `before` earlier ones,
/// and these.
#[tactic(auto, unfolding(crate::specs::Units::card_punched))]
pub fn punch_card<C: Core>(core: &C, punch: &mut Punch, before: u32) -> Result<(), Fault>
    requires { punch_area_end ≤ length (C.cells core.now) }
    ensures done { OnOk result (card_punched before (C.cells core.now) punch.old ≡ Ok punch.new) }
    ensures refused { IfErr result (λ fault.
        PunchFails fault punch.old (card_punched before (C.cells core.now) punch.old)) }
    ensures unchanged { OnErr result (punch.new ≡ punch.old) }
{
    if punch.is_full(before) {
        return Err(Fault::Stopped(Check::PunchFull));
    }
    let punched = Punched {
        card: Card(codes_at(core, PUNCH_AREA)),
        pocket: punch.chosen,
    };
    if punch.cards.push(punched).is_err() {
        return Err(Fault::NoMemory);
    }
    punch.chosen = Pocket::Normal;
    Ok(())
}
