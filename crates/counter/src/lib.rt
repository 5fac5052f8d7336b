//! The counter: the calls for requests over HTTP, for scripts, for a program's words and for local
//! runs.
//!
//! A program that serves customers needs this crate and the bureau of `ledger` or `ledger_files`.
//! [`exchange`] answers one request over HTTP, and [`script`] carries out a script. [`words`] returns
//! the row of words that the arguments of the program `bureau` spell. [`run_deck`] runs a deck and
//! [`assemble_deck`] assembles a source, both without a bureau.
//!
//! This crate has no code of its own: it exports these calls, and the types that their callers name.
//! Each name is documented in its home crate, with its contract: `exchanges` has the first two calls,
//! `command_line` has [`words`], `local_runs` has the last two, and `http_messages` has [`Routes`].
//! The arguments have types of lower crates: the bureau is from `ledger`, the meter from `machine`,
//! the size of storage from `core_store`, and the switches from `units`.
#![tactic(auto)]

pub use command_line::{Found, Mistake, Misuse, Status, Subcommand, Words, WordsFault, words};
pub use exchanges::{Exchange, ScriptEnd, Scripted, exchange, script};
pub use http_messages::Routes;
pub use local_runs::{Assembled, assemble_deck, run_deck};
