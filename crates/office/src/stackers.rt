//! The cards that a query asks for.

ghost use Rattle.std.specs.Prelude.{◌≡◌, ◌++◌, ◌∷◌, [], IfOk, OnOk};
ghost use Rattle.office.specs.Stackers.{is_asked, cards_from};

use crate::lists::PunchedCards;
use cards::Card;
use std::alloc::{AllocError, Global};
use units::{Pocket, Punched};

/// Which of the cards that a job has punched are asked for.
#[derive(Clone, Copy)]
pub enum Stacker {
    /// All of them, whatever their pocket.
    All,
    /// Those of this pocket.
    Of(Pocket),
    /// Those of a pocket that there is not: the query is refused.
    Unknown,
}

impl Stacker {
    /// Whether the cards of this pocket are asked for.
    pub fn has(self, pocket: Pocket) -> bool
        ensures { result ≡ is_asked self pocket }
    {
        match self {
            Stacker::All => true,
            Stacker::Of(asked) => pocket.number() == asked.number(),
            Stacker::Unknown => false,
        }
    }
}

/// Adds a copy of a card, if it is asked for.
#[tactic(auto, unfolding(crate::specs::Stackers::cards_from))]
fn push_asked(cards: &mut Vec<Card>, from: Stacker, one: &Punched) -> Result<(), AllocError>
    ensures { OnOk result
        (cards.new.items ≡ cards.old.items ++ cards_from from (one.now ∷ [])) }
{
    if from.has(one.pocket) {
        cards.push(Card(one.card.0))?;
    }
    Ok(())
}

/// Copies of the cards that are asked for, in the order in which they were punched. Fails only if
/// there is no memory.
pub fn cards_from(
    alloc: Global,
    from: Stacker,
    punched: &[Punched],
) -> Result<PunchedCards, AllocError>
    ensures { IfOk result (λ cards. cards ≡ cards_from from punched.now) }
{
    let mut cards = Vec::new(alloc);
    for one in punched {
        push_asked(&mut cards, from, one)?;
    }
    Ok(PunchedCards(cards))
}
