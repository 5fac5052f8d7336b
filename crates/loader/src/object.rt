//! The decks that load a program.

ghost use Rattle.std.specs.Prelude.{◌≡◌, ◌<◌, ◌≤◌, ◌++◌, length, map, All, IfOk, OnOk, IsErrOf};
ghost use Rattle.core_store.specs.Storage.{largest_size};
ghost use Rattle.cards.specs.Decks.{largest_deck};
ghost use Rattle.autocoder_layout.specs.Source.{source_of};
ghost use Rattle.autocoder.specs.Programs.{IsProgramOf};
ghost use Rattle.loader.specs.{
  Stretches.{stretches_of},
  Cards.{load_card, loading_cards},
  Decks.{data_of, runnable_deck},
  Loading.{Loads},
};

use crate::pieces::{boot_card, load_card, start_card};
use crate::stretches::longest;
use autocoder::Program;
use autocoder_layout::Cell;
use cards::{Card, Deck, DeckFault};
use std::alloc::Global;

/// Adds a card for each stretch of some positions.
fn push_stretches(deck: &mut Deck, cells: &[Cell]) -> Result<(), DeckFault>
    requires { All (λ c. c.position < largest_size) cells.now }
    ensures pushed { OnOk result (deck.new ≡ deck.old ++ map load_card (stretches_of cells.now)) }
    ensures full { IsErrOf result DeckFault.TooManyCards →
        largest_deck < length (deck.old ++ map load_card (stretches_of cells.now)) }
{
    let mut rest = cells;
    while !rest.is_empty() {
        let (stretch, behind) = rest.split_at(longest(rest));
        deck.push(load_card(stretch))?;
        rest = behind;
    }
    Ok(())
}

/// Returns the deck that loads a program and starts it: a boot card, a card for each stretch of its
/// image, and a last one. Fails with `TooManyCards` if there would be over 2,000, or if there is no
/// memory.
#[tactic(auto, unfolding(crate::specs::Cards::loading_cards), using(crate::proofs::LoadingLaw::deck_loads))]
pub fn object_deck(alloc: Global, program: &Program) -> Result<Deck, DeckFault>
    ensures deck { IfOk result (λ deck. deck ≡ loading_cards program.now.image program.now.start) }
    ensures full { IsErrOf result DeckFault.TooManyCards →
        largest_deck < length (loading_cards program.now.image program.now.start) }
    ensures loads { IfOk result (Loads program.now) }
{
    let mut deck = Deck::empty(alloc);
    deck.push(boot_card())?;
    push_stretches(&mut deck, program.image())?;
    deck.push(start_card(program.start() as u16))?;
    Ok(deck)
}

/// Returns the deck that runs a program on data cards: its loading cards, then the data. Fails with
/// `TooManyCards` if there would be over 2,000, or if there is no memory.
pub fn deck_to_run(alloc: Global, program: &Program, data: &[Card]) -> Result<Deck, DeckFault>
    ensures deck { IfOk result (λ deck.
        deck ≡ loading_cards program.now.image program.now.start ++ «data».now) }
    ensures full { IsErrOf result DeckFault.TooManyCards →
        largest_deck < length (loading_cards program.now.image program.now.start ++ «data».now) }
{
    let mut deck = object_deck(alloc, program)?;
    deck.push_all(data)?;
    Ok(deck)
}

/// The data of a deck: its cards after the source.
#[tactic(auto, using(crate::proofs::ObjectSources::source_within))]
fn data_of<'a>(deck: &'a Deck, program: &Program) -> &'a [Card]
    requires program { IsProgramOf (source_of deck.now) program.now }
    ensures { result.now ≡ data_of deck.now }
{
    &deck.cards()[program.last() as usize..]
}

/// Returns the deck that runs the program of a deck's source on the deck's data: the cards that
/// load the program, then the data. Fails with `TooManyCards` if there would be over 2,000, or if
/// there is no memory.
#[tactic(auto, unfolding(crate::specs::Decks::runnable_deck))]
pub fn runnable_deck(alloc: Global, deck: &Deck, program: &Program) -> Result<Deck, DeckFault>
    requires program { IsProgramOf (source_of deck.now) program.now }
    ensures deck { IfOk result (λ runnable. runnable ≡ runnable_deck deck.now) }
    ensures fits { IfOk result (λ _. length (runnable_deck deck.now) ≤ largest_deck) }
    ensures full { IsErrOf result DeckFault.TooManyCards →
        largest_deck < length (runnable_deck deck.now) }
{
    deck_to_run(alloc, program, data_of(deck, program))
}
