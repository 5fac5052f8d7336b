//! The layout of an Autocoder source: the place of each card, what it defines and what it fills,
//! and its lowest fault.
//!
//! The crate uses the statements of `autocoder_statements`. `Source::read` reads each card once,
//! `Layout::of` gives each card its place, and `Layout::judge` returns what the source fills and
//! its faults. The contract for the layer above: a source has exactly one layout
//! (`layout_is_unique`), and each call returns a piece of it by the definitions of `specs/`. A rule
//! for a card depends on the cards before and after it, and on the names and literals of the whole
//! source; no rule speaks of passes. No literal is placed twice (`literals_are_placed_once`).
//! Memory is taken for lists of lines, slots, literals and cells.
#![tactic(auto)]

mod card_faults;
mod cells;
mod faults;
mod judging;
mod laws;
mod layout;
mod literals;
mod names;
mod passes;
mod slots;
mod source;
mod tables;

pub use card_faults::CardFault;
pub use cells::{Cell, FIRST_FREE};
pub use faults::SourceFault;
pub use judging::expressions_of;
pub use laws::{layout_is_unique, literals_are_placed_once};
pub use layout::Layout;
pub use names::{Value, base_number};
pub use passes::Judgement;
pub use slots::{Definition, Role, Slot, first_instruction, is_closed, place_after};
pub use source::{Line, Source, source_of};
