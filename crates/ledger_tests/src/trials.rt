//! Trials of a bureau over disks in memory, of which one fails from some call on: sessions of
//! stages, and steps that are stopped at each call in turn.
//!
//! They promise nothing beyond what `ledger` proves: a trial that fails says in words which reply or
//! which office was another one.

mod asking;
mod commands;
mod decks;
mod disks;
mod sessions;
mod stages;
mod stopping;

pub(crate) use disks::{ALL, Ended, Failing, disks_after, empty_disks, session_over, told_on};
pub(crate) use stopping::{NONE, Step, Stops, Trial, stop_each};
