//! The film of a run: one page that shows the run of a deck step by step.
//!
//! A film knows of a machine a frame (`specs/Frames.antt`): its registers, indicators and counts,
//! its storage, and the lines and cards that it has made. Its text has the first frame, and for
//! each step the change from one frame to the next (`specs/Changes.antt`): what differs, whatever
//! the instruction did. Before these items stand the statement that has the characters of the
//! step's instruction, if one has them, and the positions at which it works (`specs/Worked.antt`):
//! its own, and those of its fields, of the areas of the units, or of what it clears, writes or
//! tests. The contract for the layer above: the text of a [`Film`] is that of `specs/Films.antt`,
//! of the machine that is loaded, and [`film_page`] returns exactly the page of `specs/Pages.antt`.
//! A script in the page plays the changes and draws what they give; what it draws is not proved.
//! The style, the body and the script are constants, which `tools/building/film-constants` makes of
//! `film.css`, `film.html` and `film.js`.
//!
//! Laws: a change played on a frame gives the next one ([`changes_are_played`]), and the changes
//! that are read of a film's text (`specs/Reading.antt`), played one after the other, give the
//! frames of the machine after each step ([`film_is_read`]), so of a run from the load button on
//! ([`film_of_a_run_is_read`]). Both suppose that each position of storage has one of the 64
//! characters. Of the films that [`Film::of`] makes this is so, and its contract says of each what
//! is read of it (`Shows` of `specs/Laws.antt`).
#![tactic(auto)]

mod bodies;
mod filming;
mod films;
mod items;
mod laws;
mod numbers;
mod pages;
mod readers;
mod scripts;
mod signs;
mod spans;
mod statements;
mod styles;
mod working;

pub use films::{Film, FilmError, FilmOptions, instructions_of};
pub use laws::{changes_are_played, film_is_read, film_of_a_run_is_read};
pub use pages::{Subject, film_page};
