//! Decks as people have them: texts with cut blanks, tabs, small letters, signs of another table and
//! line ends of any kind.
//!
//! [`punch`] takes such a text as a deck by rules that its caller names, and forgives nothing else.
//! Its contract: the deck text that it returns is the one that the rules make of the text
//! (`specs/Punching.antt`): each line's bytes are read as glyphs (`specs/Signs.antt`), put into
//! columns, cut and filled up (`specs/Columns.antt`); or else the faults are exactly those of the
//! lines, in order (`specs/Faults.antt`); a line of a punch file is one. [`changes`] says what was
//! done to each line, and [`remedy_of`] what helps where a character is none of the 64
//! (`specs/Remedies.antt`). [`take`] takes a file of which nothing is known in the one way that fits,
//! or not at all (`specs/Taking.antt`). What the lines of a text are is in `specs/Lines.antt`. The
//! laws: what is returned is a deck's text ([`punching_makes_decks`]); a deck's own text stays as it
//! is, by rules that take whole cards in the bureau's signs ([`punching_keeps_decks`]); and what was
//! punched stays so, taken in the bureau's signs ([`punching_settles`]).
#![tactic(auto)]

mod changing;
mod columns;
mod faults;
mod finding;
mod laws;
mod lines;
mod punching;
mod remedies;
mod rules;
mod taking;

pub use changing::{Change, changes};
pub use faults::{TextError, TextFault};
pub use laws::{punching_keeps_decks, punching_makes_decks, punching_settles};
pub use punching::{Unpunched, punch};
pub use remedies::{Remedy, remedy_of};
pub use rules::{EmptyLine, Rules, Signs};
pub use taking::{Reading, Untaken, Way, take};
