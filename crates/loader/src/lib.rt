//! Loading cards: from a program to a deck that loads itself on a machine with nothing in its
//! storage.
//!
//! A boot card sets the word marks that the cards after it need. Each further card carries the
//! longest stretch of the image that it can, and moves it to its place; the last one starts the
//! program. The crate uses the programs of `autocoder`, and its contract speaks of `machine`'s
//! runs. For the layers above: the deck is exactly the list of cards of `specs/Cards.antt`, whose
//! stretches are the one split of the image into longest ones (`specs/Stretches.antt`); and run on
//! a machine that is large enough, it leaves the program in a storage that is blank otherwise, at
//! its start, with the data unread (`specs/Loading.antt`). It takes memory for the deck alone.
//!
//! Laws over the definitions: there is one split into longest stretches
//! ([`stretches_are_longest`]); the cards load the program, one card after the other
//! ([`cards_load_the_program`]); this holds of every source without faults, on any machine of at
//! least its size ([`faultless_sources_load`]); and a larger storage takes what a smaller one takes
//! ([`larger_storages_can_be_loaded`]).
#![tactic(auto)]

mod columns;
mod laws;
mod object;
mod pieces;
mod places;
mod stretches;

pub use laws::{
    cards_load_the_program, faultless_sources_load, larger_storages_can_be_loaded,
    stretches_are_longest,
};
pub use object::{deck_to_run, object_deck, runnable_deck};
