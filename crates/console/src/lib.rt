//! A console: looking at a simulated machine step by step, by lines that are read and answered.
//!
//! A [`Session`] is a machine that was loaded with a deck, with the stops and the watched position
//! that were set. [`answer_line`] takes a line (`specs/Commands.antt`) and answers it
//! (`specs/Answers.antt`), and [`console`] does so for the lines of a reader, until it has none
//! (`specs/Talks.antt`). No line changes storage: a session shows runs of its deck, and nothing
//! else.
//!
//! Laws: the machine of a session is that of its past, whatever lines it was given, and without a
//! start that is a run of so many steps ([`sessions_are_runs`]). Going back undoes steps
//! ([`back_undoes_steps`]). A machine that goes on stands at the first change, stop, halt or check
//! that it comes to ([`go_ends_at_the_first_stop`]). Stops rise ([`stops_rise`]).
#![tactic(auto)]

mod answering;
mod commands;
mod going;
mod laws;
mod readings;
mod sessions;
mod showing;
mod starts;
mod stops;
mod talking;
mod verbs;
mod watching;
mod words;

pub use answering::{Answer, answer_line};
pub use laws::{back_undoes_steps, go_ends_at_the_first_stop, sessions_are_runs, stops_rise};
pub use sessions::Session;
pub use starts::Start;
pub use talking::{Ended, console};
