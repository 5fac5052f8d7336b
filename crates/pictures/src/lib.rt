//! Pictures of punched cards, as SVG and as an HTML page, and of listings, as HTML pages of
//! continuous forms with green bars.
//!
//! Each picture is one text that needs no other file. The crate uses of `card_forms` the images of
//! cards, whose columns need be no characters. Its contract for the layers above: each text is exactly
//! that of a definition (`specs/Cards.antt`, `specs/Decks.antt`, `specs/Forms.antt`), and a listing
//! with a byte that no page shows, or with a line of over 132 columns, is refused with the first
//! such place (`specs/Faults.antt`). What is pushed can be joined into other pages.
//!
//! The laws read the texts back (`specs/Reading.antt`): the holes in a picture are the punches of
//! its card ([`holes_are_the_punches`]), its print is the card's glyphs ([`print_is_read`]), no two
//! cards have one picture ([`pictures_differ`]), the figures on the page of a deck show its cards
//! ([`figures_are_the_cards`]), and the forms on the pages are the listing ([`listing_is_read`]).
#![tactic(auto)]

mod card_pictures;
mod deck_pages;
mod escapes;
mod faults;
mod finding;
mod forms;
mod heads;
mod holes;
mod laws;
mod listings;
mod stocks;
mod styles;

pub use card_pictures::card_picture;
pub use deck_pages::{deck_page, push_card_figures, push_stock_definition};
pub use escapes::push_escaped;
pub use faults::{ListingError, ListingFault};
pub use forms::push_listing_forms;
pub use heads::{push_page_head, push_page_heading};
pub use laws::{
    figures_are_the_cards, holes_are_the_punches, listing_is_read, pictures_differ, print_is_read,
};
pub use listings::listing_pages;
pub use styles::{CARD_STYLE, FIGURE_STYLE, FORM_STYLE};
