//! The listing of a source that shows the assembled code.
//!
//! It shows the characters that each card places, as the assembler's layout defines them, and after
//! the cards a table of the names: beside the card, or below it. Its contract:
//! [`listing_in`] returns exactly the bytes of `specs/Listing.antt`, or fails if there is no
//! memory. The laws: the code in the listing is the image of the program
//! ([`code_shown_is_the_image`]), all of it and nothing else, and no position is shown twice; both
//! widths show it ([`both_widths_show_one_code`]).
#![tactic(auto)]

mod cards_shown;
mod laws;
mod listings;
mod names;
mod narrow;
mod placed;
mod rows;
mod widths;

pub use laws::{both_widths_show_one_code, code_shown_is_the_image};
pub use listings::{listing_in, listing_with_code};
pub use widths::Width;
